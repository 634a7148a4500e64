//! Names, targets and ids that are well formed, whatever the rule set is.
ghost use Rattle.std.specs.Prelude.{◌≡◌, IfOk, length};
ghost use Rattle.std.specs.List.{list_all};
ghost use Rattle.event_shape.specs.Names.{is_short_name};
ghost use Rattle.rule_targets.specs.WellFormed as spec;

use crate::checks::member_fault;
use crate::target::Target;
use event_shape::{is_bus_name, is_rule_name, is_target_id};
use json_text::{NoMemory, Text};
use std::alloc::Global;

/// The greatest number of targets, or of ids of targets, in one change.
const MOST_IN_CHANGE: usize = 100;

/// Whether the names are those of a bus and of a rule.
pub fn names_rule(bus: &Text, name: &Text) -> bool
    ensures { result ≡ spec.names_rule bus.now name.now }
{
    is_bus_name(bus.as_str()) && is_rule_name(name.as_str())
}

fn are_few(count: usize) -> bool
    ensures { result ≡ spec.are_few count }
{
    count >= 1 && count <= MOST_IN_CHANGE
}

/// Whether there are from 1 to 100 targets, no member of which has a fault.
pub fn are_targets(alloc: Global, targets: &[Target]) -> Result<bool, NoMemory>
    ensures { IfOk result (λ yes. yes ≡ spec.are_targets_formed targets.now) }
{
    if !are_few(targets.len()) {
        return Ok(false);
    }
    each_is_formed(alloc, targets)
}

fn each_is_formed(alloc: Global, targets: &[Target]) -> Result<bool, NoMemory>
    ensures { IfOk result (λ yes. yes ≡ list_all spec.is_target_formed targets.now) }
{
    match targets {
        [target, rest @ ..] => {
            if !is_formed(alloc, target)? {
                return Ok(false);
            }
            each_is_formed(alloc, rest)
        }
        [] => Ok(true),
    }
}

fn is_formed(alloc: Global, target: &Target) -> Result<bool, NoMemory>
    ensures { IfOk result (λ yes. yes ≡ spec.is_target_formed target.now) }
{
    let asked = target.asked(alloc)?;
    Ok(member_fault(alloc, &asked)?.is_none())
}

/// Whether there are from 1 to 100 ids, each with the syntax of a target's id.
pub fn are_ids(ids: &[Text]) -> bool
    ensures { result ≡ spec.are_ids_formed ids.now }
{
    are_few(ids.len()) && each_is_id(ids)
}

fn each_is_id(ids: &[Text]) -> bool
    ensures { result ≡ list_all is_short_name ids.now }
{
    match ids {
        [id, rest @ ..] => is_target_id(id.as_str()) && each_is_id(rest),
        [] => true,
    }
}
