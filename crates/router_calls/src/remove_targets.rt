//! RemoveTargets.
ghost use Rattle.std.specs.Prelude.{◌≡◌, ◌≤◌, length, map, Some, IfOk, All};
ghost use Rattle.json_text.specs.View.{tree_of, trees_of};
ghost use Rattle.event_shape.specs.Names.{IsShortName};
ghost use Rattle.rule_table.specs.Control.{targets_removed};
ghost use Rattle.rule_table.specs.RuleSet.{rule_at};
ghost use Rattle.rule_table.specs.Target.{target_of};
ghost use Rattle.rule_table.specs.View.{control_of};
ghost use Rattle.rule_targets.specs.WellFormed.{NamesRule};
ghost use Rattle.api_replies.specs.declared.kind.Kind.TheVariants as kind_is;
ghost use Rattle.api_replies.specs.declared.cause.Cause.TheVariants as cause_is;
ghost use Rattle.router_calls.specs.Removals.{failed_ids, has_target, removed_ids, without_target};
ghost use Rattle.call_replies.specs.Replies.{target_report};
ghost use Rattle.router_calls.specs.Answer.{on_rule, removals_decided};
ghost use Rattle.resource_calls.specs.Decided.{decided_of, CanBeMade};

use crate::on_rule::{are_some, change_with_reports, no_rule};
use crate::put_targets::copies;
use call_replies::target_json;
use json_text::{Items, Json, NoMemory, Text};
use resource_calls::Decided;
use router_core::{Cause, Kind, Tables};
use rule_table::{Control, Rule, RuleTarget};
use rule_targets::Target;
use std::alloc::Global;

/// Removes the target of each id from the rule, as one change. If no id is a target's, nothing is changed.
pub(crate) fn remove_targets(
    alloc: Global,
    tables: &Tables,
    moment: u64,
    bus: &Text,
    rule: &Text,
    ids: &[Text],
) -> Result<Decided, NoMemory>
    requires names { NamesRule bus.now rule.now }
    requires few { length ids.now ≤ 100 }
    requires ids { All IsShortName ids.now }
    ensures answer { IfOk result (λ d. decided_of d ≡ on_rule tables.now.set bus.now rule.now (λ r.
        removals_decided bus.now rule.now r.targets ids.now)) }
    ensures made { IfOk result (λ d. CanBeMade tables.now moment d) }
{
    match tables.set().rule(bus.as_str(), rule.as_str()) {
        Some(old) => remove_from(alloc, tables, moment, bus, rule, old, ids),
        None => no_rule(alloc, tables.set(), bus, rule),
    }
}

/// Removes the targets of these ids from the rule, which is there.
fn remove_from(
    alloc: Global,
    tables: &Tables,
    moment: u64,
    bus: &Text,
    rule: &Text,
    old: &Rule,
    ids: &[Text],
) -> Result<Decided, NoMemory>
    requires there { rule_at bus.now rule.now tables.now.set ≡ Some old.now }
    requires names { NamesRule bus.now rule.now }
    requires few { length ids.now ≤ 100 }
    requires ids { All IsShortName ids.now }
    ensures answer { IfOk result (λ d. decided_of d ≡ removals_decided bus.now rule.now old.now.targets ids.now) }
    ensures made { IfOk result (λ d. CanBeMade tables.now moment d) }
{
    let Removals { removed, reports } = remove_all(alloc, old.targets(), ids)?;
    let some = are_some(removed.as_slice());
    let control = targets_removed(alloc, bus, rule, removed)?;
    change_with_reports(alloc, tables, moment, some, control, reports)
}

/// The change that removes the targets of these ids.
fn targets_removed(
    alloc: Global,
    bus: &Text,
    rule: &Text,
    ids: Vec<Text>,
) -> Result<Control, NoMemory>
    ensures { IfOk result (λ control. control_of control ≡ targets_removed bus.now rule.now ids.items) }
{
    Ok(Control::TargetsRemoved {
        bus: bus.copy(alloc)?,
        rule: rule.copy(alloc)?,
        ids,
    })
}

/// What ids became.
#[derive(Drop)]
pub(crate) struct Removals {
    removed: Vec<Text>,
    /// The items of the ids that are no target's.
    reports: Items,
}

/// Removes the targets of these ids from those of a rule, one after the other.
fn remove_all(alloc: Global, targets: &[RuleTarget], ids: &[Text]) -> Result<Removals, NoMemory>
    ensures removed { IfOk result (λ all. all.removed.items ≡ removed_ids ids.now (map target_of targets.now)) }
    ensures reports { IfOk result (λ all. trees_of all.reports.items ≡ map target_report (failed_ids ids.now (map target_of targets.now))) }
{
    let mut left = copies(alloc, targets)?;
    let mut removed = Vec::new(alloc);
    let mut reports: Items = Vec::new(alloc);
    for id in ids {
        if has_target(left.as_slice(), id.as_str()) {
            left = without_target(alloc, left, id.as_str())?;
            removed.push(id.copy(alloc)?)?;
        } else {
            reports.push(missing_json(alloc, id)?)?;
        }
    }
    Ok(Removals { removed, reports })
}

/// Whether one of the targets has this id.
fn has_target(targets: &[Target], id: &str) -> bool
    ensures { result ≡ has_target id.now targets.now }
{
    targets.iter().any(|target| target.id.as_str() == id)
}

/// The targets without the one of this id.
fn without_target(alloc: Global, targets: Vec<Target>, id: &str) -> Result<Vec<Target>, NoMemory>
    ensures { IfOk result (λ left. left.items ≡ without_target id.now targets.items) }
{
    let mut left = Vec::with_capacity(alloc, targets.len())?;
    for target in targets {
        if target.id.as_str() != id {
            left.push(target)?;
        }
    }
    Ok(left)
}

/// The item of an id that is no target's.
fn missing_json(alloc: Global, id: &Text) -> Result<Json, NoMemory>
    ensures { IfOk result (λ j. tree_of j ≡ target_report (id.now, cause_is.NotFound kind_is.Target id.now)) }
{
    let name = id.copy(alloc)?;
    let kind = Kind::Target;
    target_json(alloc, id.as_str(), &Cause::NotFound { kind, name })
}
