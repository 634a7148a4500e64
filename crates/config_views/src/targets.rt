//! ListTargetsByRule and ListRuleNamesByTarget.
ghost use Rattle.std.specs.Prelude.{◌≡◌, ◌++◌, ◌∷◌, [], map, codes, decimal, IfOk, OnOk};
ghost use Rattle.std.specs.List.{list_any};
ghost use Rattle.std.specs.Option.{option_map};
ghost use Rattle.std.specs.Str.{bytes_eq};
ghost use Rattle.json_text.specs.Tree.{number, text, object, members_of};
ghost use Rattle.json_text.specs.View.{tree_of, trees_of, pairs_of};
ghost use Rattle.api_replies.specs.View.{reply_of};
ghost use Rattle.rule_table.specs.Target.{target_of};
ghost use Rattle.config_views.specs.Views as spec;

use crate::inputs::push_input;
use crate::parts::{listing, no_bus, no_rule};
use api_replies::Reply;
use json_text::{Items, Json, Members, NoMemory, Text, push_member, push_text};
use rule_table::{Bus, Rule, RuleSet, RuleTarget};
use rule_targets::RetryPolicy;
use std::alloc::Global;

/// The reply to a ListTargetsByRule: each target's id, its ARN, its input as it was given if it has one, its retry policy if one was given,
/// and its dead-letter queue if it has one.
pub fn list_targets_by_rule(
    alloc: Global,
    set: &RuleSet,
    bus: &str,
    name: &str,
) -> Result<Reply, NoMemory>
    ensures { IfOk result (λ r. reply_of r ≡ spec.listed_targets bus.now name.now set.now) }
{
    if set.bus(bus).is_none() {
        return no_bus(alloc, bus);
    }
    match set.rule(bus, name) {
        Some(rule) => {
            let items = target_items(alloc, rule.targets())?;
            listing(alloc, "Targets", items)
        }
        None => no_rule(alloc, name),
    }
}

/// The reply to a ListRuleNamesByTarget: the names of the bus's rules that have a target with this ARN. Whether the ARN's queue
/// exists is not asked.
pub fn list_rule_names_by_target(
    alloc: Global,
    set: &RuleSet,
    arn: &str,
    bus: &str,
) -> Result<Reply, NoMemory>
    ensures { IfOk result (λ r. reply_of r ≡ spec.listed_rule_names arn.now bus.now set.now) }
{
    match set.bus(bus) {
        Some(found) => {
            let items = rule_names(alloc, found, arn)?;
            listing(alloc, "RuleNames", items)
        }
        None => no_bus(alloc, bus),
    }
}

fn target_items(alloc: Global, targets: &[RuleTarget]) -> Result<Items, NoMemory>
    ensures { IfOk result (λ items. trees_of items.items ≡ spec.target_items (map target_of targets.now)) }
{
    let mut items: Items = Vec::with_capacity(alloc, targets.len())?;
    for target in targets {
        items.push(Json::Obj(target_members(alloc, target)?))?;
    }
    Ok(items)
}

fn target_members(alloc: Global, target: &RuleTarget) -> Result<Members, NoMemory>
    ensures { IfOk result (λ members. pairs_of members.items ≡ spec.target_members (target_of target.now)) }
{
    let mut members: Members = Vec::with_capacity(alloc, 5)?;
    push_text(alloc, &mut members, "Id", target.id())?;
    push_text(alloc, &mut members, "Arn", target.arn())?;
    push_input(alloc, &mut members, target.input())?;
    push_retry(alloc, &mut members, target.retry())?;
    push_dead_letter(alloc, &mut members, target.dead_letter())?;
    Ok(members)
}

/// Appends the retry policy, if there is one.
fn push_retry(
    alloc: Global,
    members: &mut Members,
    retry: Option<RetryPolicy>,
) -> Result<(), NoMemory>
    ensures { OnOk result (pairs_of members.new.items ≡ pairs_of members.old.items ++ spec.retry_member retry) }
{
    match retry {
        Some(policy) => push_member(alloc, members, "RetryPolicy", retry_json(alloc, policy)?),
        None => Ok(()),
    }
}

fn retry_json(alloc: Global, policy: RetryPolicy) -> Result<Json, NoMemory>
    ensures { IfOk result (λ json. tree_of json ≡ object (members_of (spec.retry_members policy))) }
{
    let mut members: Members = Vec::with_capacity(alloc, 2)?;
    let attempts = number_json(alloc, u32::from(policy.attempts))?;
    push_member(alloc, &mut members, "MaximumRetryAttempts", attempts)?;
    let age = number_json(alloc, policy.age)?;
    push_member(alloc, &mut members, "MaximumEventAgeInSeconds", age)?;
    Ok(Json::Obj(members))
}

fn number_json(alloc: Global, value: u32) -> Result<Json, NoMemory>
    ensures { IfOk result (λ json. tree_of json ≡ number (decimal value)) }
{
    Ok(Json::Num(Text::from(format!(in alloc; "{value}")?)))
}

/// Appends the dead-letter queue of this ARN, if there is one.
fn push_dead_letter(alloc: Global, members: &mut Members, arn: Option<&str>) -> Result<(), NoMemory>
    ensures { OnOk result (pairs_of members.new.items ≡ pairs_of members.old.items ++ spec.dead_letter_member (option_map (λ a. a.now) arn.entry)) }
{
    match arn {
        Some(arn) => push_member(alloc, members, "DeadLetterConfig", arn_json(alloc, arn)?),
        None => Ok(()),
    }
}

/// An object whose only member is the ARN.
fn arn_json(alloc: Global, arn: &str) -> Result<Json, NoMemory>
    ensures { IfOk result (λ json. tree_of json ≡ object (members_of ((codes "Arn", text arn.now) ∷ []))) }
{
    let mut members: Members = Vec::with_capacity(alloc, 1)?;
    push_text(alloc, &mut members, "Arn", arn)?;
    Ok(Json::Obj(members))
}

/// The names of the bus's rules that have a target with this ARN.
fn rule_names(alloc: Global, bus: &Bus, arn: &str) -> Result<Items, NoMemory>
    ensures { IfOk result (λ items. trees_of items.items ≡ spec.rule_names arn.now bus.now.rules) }
{
    let mut items: Items = Vec::new(alloc);
    let mut rules = bus.rules();
    while let Some(rule) = rules.next() {
        if has_target_arn(rule, arn) {
            items.push(Json::Str(Text::from_str(alloc, rule.name())?))?;
        }
    }
    Ok(items)
}

fn has_target_arn(rule: &Rule, arn: &str) -> bool
    ensures { result ≡ spec.has_target_arn arn.now rule.now }
{
    is_arn_of_any(rule.targets(), arn)
}

/// Whether the ARN is that of a target.
fn is_arn_of_any(targets: &[RuleTarget], arn: &str) -> bool
    ensures { result ≡ list_any (λ stored. bytes_eq stored.row.endpoint arn.now) targets.now }
{
    targets.iter().any(|target| target.arn() == arn)
}
