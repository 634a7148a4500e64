//! DescribeEventBus and ListEventBuses.
ghost use Rattle.std.specs.Prelude.{◌≡◌, IfOk};
ghost use Rattle.std.specs.Option.{option_copied};
ghost use Rattle.json_text.specs.Tree.{object, members_of};
ghost use Rattle.json_text.specs.View.{tree_of, trees_of, pairs_of};
ghost use Rattle.api_replies.specs.View.{reply_of};
ghost use Rattle.config_views.specs.Views as spec;

use crate::parts::{has_prefix, listing, no_bus, served};
use api_replies::Reply;
use event_shape::bus_arn;
use json_text::{Items, Json, Members, NoMemory, push_member, push_text};
use rule_table::{Bus, RuleSet};
use std::alloc::Global;

/// The reply to a DescribeEventBus: the bus's name, its ARN, and its policy if it has one.
pub fn describe_event_bus(alloc: Global, set: &RuleSet, name: &str) -> Result<Reply, NoMemory>
    ensures { IfOk result (λ r. reply_of r ≡ spec.described_bus name.now set.now) }
{
    match set.bus(name) {
        Some(bus) => Ok(served(bus_members(alloc, bus)?)),
        None => no_bus(alloc, name),
    }
}

/// The reply to a ListEventBuses: the buses whose names begin with the prefix, or all buses, as DescribeEventBus shows them.
pub fn list_event_buses(
    alloc: Global,
    set: &RuleSet,
    prefix: Option<&str>,
) -> Result<Reply, NoMemory>
    ensures { IfOk result (λ r. reply_of r ≡ spec.listed_buses (option_copied prefix.entry) set.now) }
{
    let items = bus_items(alloc, set, prefix)?;
    listing(alloc, "EventBuses", items)
}

/// The buses whose names begin with the prefix.
fn bus_items(alloc: Global, set: &RuleSet, prefix: Option<&str>) -> Result<Items, NoMemory>
    ensures { IfOk result (λ items. trees_of items.items ≡ spec.bus_items (option_copied prefix.entry) set.now.buses) }
{
    let mut items: Items = Vec::new(alloc);
    let mut buses = set.buses();
    while let Some(bus) = buses.next() {
        if has_prefix(prefix, bus.name()) {
            items.push(bus_json(alloc, bus)?)?;
        }
    }
    Ok(items)
}

fn bus_json(alloc: Global, bus: &Bus) -> Result<Json, NoMemory>
    ensures { IfOk result (λ json. tree_of json ≡ object (members_of (spec.bus_members bus.now))) }
{
    Ok(Json::Obj(bus_members(alloc, bus)?))
}

fn bus_members(alloc: Global, bus: &Bus) -> Result<Members, NoMemory>
    ensures { IfOk result (λ members. pairs_of members.items ≡ spec.bus_members bus.now) }
{
    let mut members: Members = Vec::with_capacity(alloc, 3)?;
    push_text(alloc, &mut members, "Name", bus.name())?;
    let arn = bus_arn(alloc, bus.name())?;
    push_member(alloc, &mut members, "Arn", Json::Str(arn))?;
    match bus.policy() {
        Some(policy) => push_text(alloc, &mut members, "Policy", policy.as_str())?,
        None => (),
    }
    Ok(members)
}
