//! Whether tables admit the start, a step or the cancellation of a replay, and what applying it needs.
ghost use Rattle.std.specs.Prelude.{◌≡◌, ◌↔◌, ◌≤◌, ℕ, None, All, IfOk, IfSome, IsTrue, OnOk, Err};
ghost use Rattle.std.specs.List.{list_all};
ghost use Rattle.json_text.specs.Moment.{IsMoment};
ghost use Rattle.event_shape.specs.Names.{IsShortName, is_short_name};
ghost use Rattle.replay_run.specs.Replays.{found};
ghost use Rattle.router_requests.specs.Batch.{replay_started, replay_stepped};
ghost use Rattle.router_requests.specs.View.{stepped_of};
ghost use Rattle.router_core.specs.Admitted.{IsCancellationAdmitted, IsStartAdmitted, IsStepAdmitted};
ghost use Rattle.router_core.specs.Ready.{IsMadeOn, IsPartOf};
ghost use Rattle.duty_journal.specs.Redo.{IsNextOfReplay};

use crate::admit::{LAST_MOMENT, MOST_DUTIES, are_short};
use crate::fault::ReplayFault;
use event_shape::{is_replay_name, is_rule_name};
use json_text::{NoMemory, Text};
use replay_run::{MOST_RUNNING, RuleNames, TimeRange};
use router_core::{Part, Tables};
use router_requests::{StartedReplay, SteppedReplay};
use std::alloc::Global;

/// The part of the start, if the tables admit it: its selection is made again of the archives that they have.
pub(crate) fn admit_start(
    alloc: Global,
    tables: &Tables,
    moment: u64,
    start: &StartedReplay,
) -> Result<Part, ReplayFault>
    ensures ok { IfOk result (λ part. IsStartAdmitted tables.now start.now
        × (IsPartOf moment tables.now.set (replay_started start.now) part × IsMadeOn moment tables.now (replay_started start.now) part)) }
    ensures refused { result ≡ Err ReplayFault.NotAdmitted → ¬ IsStartAdmitted tables.now start.now }
{
    if !can_start(tables, start) {
        return Err(ReplayFault::NotAdmitted);
    }
    match Part::of_start(alloc, tables, start, moment) {
        Ok(part) => Ok(part),
        Err(NoMemory) => Err(ReplayFault::NoMemory),
    }
}

fn can_start(tables: &Tables, start: &StartedReplay) -> bool
    ensures { IsTrue result ↔ IsStartAdmitted tables.now start.now }
{
    let named = is_replay_name(start.name.as_str());
    let filtered = are_rules_named(&start.rules);
    let ranged = is_range(start.range);
    let fresh = is_new(tables, start.name.as_str());
    let kept = tables.set().archive(start.archive.as_str()).is_some();
    let room = tables.replays().running_count() < MOST_RUNNING;
    named & filtered & ranged & fresh & kept & room
}

/// Whether the names of the rules of the filter, if there is one, have their form.
fn are_rules_named(rules: &Option<RuleNames>) -> bool
    ensures { IsTrue result ↔ IfSome rules.now (All IsShortName) }
{
    match rules {
        Some(rules) => are_rule_names(rules.names()),
        None => true,
    }
}

fn are_rule_names(names: &[Text]) -> bool
    ensures { result ≡ list_all is_short_name names.now }
{
    names.iter().all(|name| is_rule_name(name.as_str()))
}

/// Whether both ends are moments, and the first is not after the last.
fn is_range(range: TimeRange) -> bool
    ensures { IsTrue result ↔ (IsMoment range.start × (IsMoment range.end × (range.start ≤ range.end))) }
{
    (range.start <= range.end) & (range.end <= LAST_MOMENT)
}

/// Whether no replay has the name.
fn is_new(tables: &Tables, name: &str) -> bool
    ensures { IsTrue result ↔ (found name.now tables.now.replays ≡ None) }
{
    match tables.replays().find(name) {
        Some(_) => false,
        None => true,
    }
}

/// The part of the step, if the tables admit it.
pub(crate) fn admit_step(
    alloc: Global,
    tables: &Tables,
    step: &SteppedReplay,
) -> Result<Part, ReplayFault>
    ensures ok { IfOk result (λ part. IsStepAdmitted tables.now (stepped_of step.now)
        × ((moment : ℕ) → IsPartOf moment tables.now.set (replay_stepped (stepped_of step.now)) part)) }
    ensures refused { result ≡ Err ReplayFault.NotAdmitted → ¬ IsStepAdmitted tables.now (stepped_of step.now) }
{
    if step.duties.len() > MOST_DUTIES {
        return Err(ReplayFault::NotAdmitted);
    }
    if !are_short(&step.duties) {
        return Err(ReplayFault::NotAdmitted);
    }
    if !is_next(tables, step) {
        return Err(ReplayFault::NotAdmitted);
    }
    match Part::of_step(alloc, step) {
        Ok(part) => Ok(part),
        Err(NoMemory) => Err(ReplayFault::NoMemory),
    }
}

/// Whether the step is the next one of the replay that it names, which is running.
fn is_next(tables: &Tables, step: &SteppedReplay) -> bool
    ensures { IsTrue result ↔ IsNextOfReplay tables.now step.now.name step.now.event }
{
    match tables.replays().find(step.name.as_str()) {
        Some(row) => match row.replay.next() {
            Some(event) => event.number() == step.event,
            None => false,
        },
        None => false,
    }
}

/// Nothing, if the tables admit the cancellation of the replay of this name.
pub(crate) fn admit_cancellation(tables: &Tables, name: &Text) -> Result<(), ReplayFault>
    ensures ok { OnOk result (IsCancellationAdmitted tables.now name.now) }
    ensures refused { result ≡ Err ReplayFault.NotAdmitted → ¬ IsCancellationAdmitted tables.now name.now }
{
    match tables.replays().find(name.as_str()) {
        Some(row) => {
            if row.is_running() {
                Ok(())
            } else {
                Err(ReplayFault::NotAdmitted)
            }
        }
        None => Err(ReplayFault::NotAdmitted),
    }
}
