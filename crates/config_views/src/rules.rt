//! DescribeRule and ListRules.
ghost use Rattle.std.specs.Prelude.{◌≡◌, IfOk};
ghost use Rattle.std.specs.Option.{option_copied};
ghost use Rattle.json_text.specs.View.{trees_of, pairs_of};
ghost use Rattle.api_replies.specs.View.{reply_of};
ghost use Rattle.config_views.specs.Views as spec;

use crate::parts::{has_prefix, listing, no_bus, no_rule, served};
use api_replies::Reply;
use json_text::{Items, Json, Members, NoMemory, push_text};
use rule_table::{Bus, Rule, RuleSet};
use std::alloc::Global;

/// The reply to a DescribeRule: the rule's name, its ARN, its pattern's text as it was given, its state and its bus.
pub fn describe_rule(alloc: Global, set: &RuleSet, bus: &str, name: &str) -> Result<Reply, NoMemory>
    ensures { IfOk result (λ r. reply_of r ≡ spec.described_rule bus.now name.now set.now) }
{
    if set.bus(bus).is_none() {
        return no_bus(alloc, bus);
    }
    match set.rule(bus, name) {
        Some(rule) => Ok(served(rule_members(alloc, bus, rule)?)),
        None => no_rule(alloc, name),
    }
}

/// The reply to a ListRules: the rules of the bus whose names begin with the prefix, or all its rules, as DescribeRule shows them.
pub fn list_rules(
    alloc: Global,
    set: &RuleSet,
    bus: &str,
    prefix: Option<&str>,
) -> Result<Reply, NoMemory>
    ensures { IfOk result (λ r. reply_of r ≡ spec.listed_rules bus.now (option_copied prefix.entry) set.now) }
{
    match set.bus(bus) {
        Some(found) => {
            let items = rule_items(alloc, bus, found, prefix)?;
            listing(alloc, "Rules", items)
        }
        None => no_bus(alloc, bus),
    }
}

/// The rules whose names begin with the prefix, of the bus of this name.
fn rule_items(alloc: Global, name: &str, bus: &Bus, prefix: Option<&str>) -> Result<Items, NoMemory>
    ensures { IfOk result (λ items. trees_of items.items ≡ spec.rule_items name.now (option_copied prefix.entry) bus.now.rules) }
{
    let mut items: Items = Vec::new(alloc);
    let mut rules = bus.rules();
    while let Some(rule) = rules.next() {
        if has_prefix(prefix, rule.name()) {
            items.push(Json::Obj(rule_members(alloc, name, rule)?))?;
        }
    }
    Ok(items)
}

fn rule_members(alloc: Global, bus: &str, rule: &Rule) -> Result<Members, NoMemory>
    ensures { IfOk result (λ members. pairs_of members.items ≡ spec.rule_members bus.now rule.now) }
{
    let mut members: Members = Vec::with_capacity(alloc, 5)?;
    push_text(alloc, &mut members, "Name", rule.name())?;
    push_text(alloc, &mut members, "Arn", rule.arn())?;
    push_text(
        alloc,
        &mut members,
        "EventPattern",
        rule.pattern().text().as_str(),
    )?;
    push_text(alloc, &mut members, "State", state_text(rule.is_enabled()))?;
    push_text(alloc, &mut members, "EventBusName", bus)?;
    Ok(members)
}

fn state_text(enabled: bool) -> &'static str
    ensures { result.now ≡ spec.state_text enabled }
{
    if enabled { "ENABLED" } else { "DISABLED" }
}
