//! PutTargets.
ghost use Rattle.std.specs.Prelude.{◌≡◌, ◌≤◌, length, map, Some, IfOk, OnOk, All};
ghost use Rattle.rule_targets.specs.Target.{HasValidReads};
ghost use Rattle.rule_targets.specs.WellFormed.{NamesRule};
ghost use Rattle.rule_table.specs.Control.{targets_put};
ghost use Rattle.rule_table.specs.RuleSet.{rule_at};
ghost use Rattle.rule_table.specs.Target.{target_of};
ghost use Rattle.rule_table.specs.View.{control_of};
ghost use Rattle.router_calls.specs.Answer.{on_rule, targets_decided};
ghost use Rattle.resource_calls.specs.Decided.{decided_of, CanBeMade};
ghost use Rattle.router_calls.specs.Steps.{AddsTargets, AreAllSplit, IsOneSplit};

use crate::on_rule::{are_some, change_with_reports, no_rule};
use call_replies::{target_cause, target_json};
use json_text::{Items, NoMemory, Text};
use resource_calls::Decided;
use router_core::Tables;
use rule_table::{Control, Rule, RuleSet, RuleTarget, put_target};
use rule_targets::{AskedTarget, Target};
use std::alloc::Global;

/// Puts each target that has no fault to the rule, as one change. If all fail, nothing is changed.
pub(crate) fn put_targets(
    alloc: Global,
    tables: &Tables,
    moment: u64,
    bus: &Text,
    rule: &Text,
    targets: &[AskedTarget],
) -> Result<Decided, NoMemory>
    requires names { NamesRule bus.now rule.now }
    requires few { length targets.now ≤ 100 }
    requires valid { All HasValidReads targets.now }
    ensures answer { IfOk result (λ d. decided_of d ≡ on_rule tables.now.set bus.now rule.now (λ r.
        targets_decided tables.now.set bus.now rule.now r.targets targets.now)) }
    ensures made { IfOk result (λ d. CanBeMade tables.now moment d) }
{
    match tables.set().rule(bus.as_str(), rule.as_str()) {
        Some(old) => put_to(alloc, tables, moment, bus, rule, old, targets),
        None => no_rule(alloc, tables.set(), bus, rule),
    }
}

/// Puts the targets to the rule, which is there.
fn put_to(
    alloc: Global,
    tables: &Tables,
    moment: u64,
    bus: &Text,
    rule: &Text,
    old: &Rule,
    targets: &[AskedTarget],
) -> Result<Decided, NoMemory>
    requires there { rule_at bus.now rule.now tables.now.set ≡ Some old.now }
    requires names { NamesRule bus.now rule.now }
    requires few { length targets.now ≤ 100 }
    requires valid { All HasValidReads targets.now }
    ensures answer { IfOk result (λ d. decided_of d ≡ targets_decided tables.now.set bus.now rule.now old.now.targets targets.now) }
    ensures made { IfOk result (λ d. CanBeMade tables.now moment d) }
{
    let SplitTargets {
        have: _,
        accepted,
        reports,
    } = split_all(alloc, tables.set(), old.targets(), targets)?;
    let some = are_some(accepted.as_slice());
    let control = targets_put(alloc, bus, rule, accepted)?;
    change_with_reports(alloc, tables, moment, some, control, reports)
}

/// The change that puts the targets.
fn targets_put(
    alloc: Global,
    bus: &Text,
    rule: &Text,
    targets: Vec<Target>,
) -> Result<Control, NoMemory>
    ensures { IfOk result (λ control. control_of control ≡ targets_put bus.now rule.now targets.items) }
{
    Ok(Control::TargetsPut {
        bus: bus.copy(alloc)?,
        rule: rule.copy(alloc)?,
        targets,
    })
}

/// Targets that were put one after the other.
#[derive(Drop)]
pub(crate) struct SplitTargets {
    /// The rule's targets with the accepted ones put to them.
    have: Vec<Target>,
    accepted: Vec<Target>,
    /// The items of those that failed.
    reports: Items,
}

/// Puts the targets to a rule that has these targets.
fn split_all(
    alloc: Global,
    set: &RuleSet,
    have: &[RuleTarget],
    targets: &[AskedTarget],
) -> Result<SplitTargets, NoMemory>
    ensures { IfOk result (λ all. AreAllSplit set.now (map target_of have.now) targets.now all) }
{
    let mut all = SplitTargets {
        have: copies(alloc, have)?,
        accepted: Vec::with_capacity(alloc, targets.len())?,
        reports: Vec::new(alloc),
    };
    split(alloc, set, targets, &mut all)?;
    Ok(all)
}

/// Copies of the targets that a rule has.
pub(crate) fn copies(alloc: Global, targets: &[RuleTarget]) -> Result<Vec<Target>, NoMemory>
    ensures { IfOk result (λ others. others.items ≡ map target_of targets.now) }
{
    let mut others = Vec::with_capacity(alloc, targets.len())?;
    for target in targets {
        others.push(target.copy(alloc)?)?;
    }
    Ok(others)
}

/// Puts the targets in their order.
fn split(
    alloc: Global,
    set: &RuleSet,
    targets: &[AskedTarget],
    all: &mut SplitTargets,
) -> Result<(), NoMemory>
    ensures { OnOk result (AddsTargets set.now targets.now all.old all.new) }
{
    match targets {
        [target, rest @ ..] => {
            split_one(alloc, set, target, all)?;
            split(alloc, set, rest, all)
        }
        [] => Ok(()),
    }
}

fn split_one(
    alloc: Global,
    set: &RuleSet,
    target: &AskedTarget,
    all: &mut SplitTargets,
) -> Result<(), NoMemory>
    ensures { OnOk result (IsOneSplit set.now target.now all.old all.new) }
{
    match set.target_fault(alloc, all.have.as_slice(), target)? {
        None => {
            put_target(&mut all.have, target.put_as(alloc)?)?;
            all.accepted.push(target.put_as(alloc)?)?;
        }
        Some(fault) => {
            let cause = target_cause(fault);
            all.reports
                .push(target_json(alloc, target.id.as_str(), &cause)?)?;
        }
    }
    Ok(())
}
