//! Changes that are well formed, whatever the rule set is.
ghost use Rattle.std.specs.Prelude.{◌≡◌, ◌&&◌, IfOk};
ghost use Rattle.rule_targets.specs.WellFormed.{names_rule, are_targets_formed};
ghost use Rattle.rule_table.specs.View.{control_of};
ghost use Rattle.rule_table.specs.WellFormed as spec;

use crate::control::Control;
use event_shape::{is_archive_name, is_bus_name, is_queue_name};
use json_text::{NoMemory, Text};
use rule_targets::{Target, are_ids, are_targets, names_rule};
use std::alloc::Global;

/// The greatest number of days for which an archive keeps an event.
pub const MOST_DAYS: u32 = 2_147_483_647;

/// Whether the names of the change, its days, its targets, its ids and their numbers are well formed, whatever the rule set is.
pub fn is_well_formed(alloc: Global, control: &Control) -> Result<bool, NoMemory>
    ensures { IfOk result (λ yes. yes ≡ spec.is_well_formed (control_of control.now)) }
{
    match control {
        Control::BusCreated { name } => Ok(is_bus_name(name.as_str())),
        Control::BusDeleted { name } => Ok(is_bus_name(name.as_str())),
        Control::RulePut {
            bus,
            name,
            pattern: _,
            enabled: _,
        } => Ok(names_rule(bus, name)),
        Control::RuleDeleted { bus, name } => Ok(names_rule(bus, name)),
        Control::StatePut {
            bus,
            name,
            enabled: _,
        } => Ok(names_rule(bus, name)),
        Control::TargetsPut { bus, rule, targets } => { is_put_formed(alloc, bus, rule, targets) }
        Control::TargetsRemoved { bus, rule, ids } => Ok(names_rule(bus, rule) && are_ids(ids)),
        Control::PolicyPut { bus, policy: _ } => Ok(is_bus_name(bus.as_str())),
        Control::QueueCreated { name } => Ok(is_queue_name(name.as_str())),
        Control::QueueDeleted { name } => Ok(is_queue_name(name.as_str())),
        Control::ArchiveCreated {
            name,
            bus,
            pattern: _,
            days,
        } => {
            Ok(is_archive_name(name.as_str()) && is_bus_name(bus.as_str()) && *days <= MOST_DAYS)
        }
        Control::ArchiveUpdated {
            name,
            pattern: _,
            days,
        } => Ok(is_archive_name(name.as_str()) && *days <= MOST_DAYS),
        Control::ArchiveDeleted { name } => Ok(is_archive_name(name.as_str())),
    }
}

fn is_put_formed(
    alloc: Global,
    bus: &Text,
    rule: &Text,
    targets: &[Target],
) -> Result<bool, NoMemory>
    ensures { IfOk result (λ yes. yes ≡ (names_rule bus.now rule.now && are_targets_formed targets.now)) }
{
    if !names_rule(bus, rule) {
        return Ok(false);
    }
    are_targets(alloc, targets)
}
