//! Whether tables admit an operation, and what applying it needs.
ghost use Rattle.std.specs.Prelude.{◌≡◌, ◌↔◌, ◌<◌, ◌≤◌, ◌^◌, ◌++◌, ℕ, List, true, false, map, IfOk, IsTrue, MatchOption, OnOk, Err};
ghost use Rattle.std.specs.List.{list_all};
ghost use Rattle.json_text.specs.Moment.{IsMoment};
ghost use Rattle.event_shape.specs.Names.{IsQueueArn};
ghost use Rattle.rule_table.specs.RuleSet.{RuleSet as Set, has_archive};
ghost use Rattle.rule_table.specs.WellFormed.{IsSpelled};
ghost use Rattle.rule_table.specs.View.{control_of};
ghost use Rattle.rule_table.specs.declared.control.ControlFault.TheVariants as control_faults;
ghost use Rattle.delivery_duties.specs.declared.outcome.Outcome.TheVariants as outcomes;
ghost use Rattle.delivery_queues.specs.Queues.{has_queue};
ghost use Rattle.router_requests.specs.Batch.{control as change, accepted};
ghost use Rattle.router_requests.specs.View.{accepted_of, entry_of};
ghost use Rattle.router_core.specs.Tables.{is_full};
ghost use Rattle.router_core.specs.Admitted.{IsAnEvent, IsAttemptAdmitted, IsDeletionAdmitted, IsEntryAdmitted, IsTextAdmitted, IsUnnamed};
ghost use Rattle.router_core.specs.Ready.{IsPartOf, ArePartsOf};
ghost use Rattle.router_core.specs.declared.ready.Part.{Part as PartView};
ghost use Rattle.duty_journal.specs.Batch.{HasValidTexts};
ghost use Rattle.duty_journal.specs.Redo.{AreNextEvents, HasNoClaim, IsFreeDuty, IsNeedOf, IsNextEvent, are_in_order, is_before_first, is_short};

use crate::fault::ReplayFault;
use crate::replays::{admit_cancellation, admit_start, admit_step};
use delivery_duties::{NewDuty, Outcome};
use event_shape::{is_bus_name, queue_of};
use event_text::is_numbered_text;
use json_text::{NoMemory, Text};
use router_core::{Part, Tables};
use router_requests::{AcceptedEvent, Entry};
use rule_table::{Control, ControlFault, RuleSet, is_well_formed};
use std::alloc::Global;
use std::cmp::Ordering;
use std::collections::VecDeque;

/// The last moment of a time, in seconds since 1970-01-01T00:00:00Z.
pub(crate) const LAST_MOMENT: u64 = 250_000_000_000;

/// The greatest number of duties of an event or of a step.
pub(crate) const MOST_DUTIES: usize = 1500;

/// The greatest number of bytes of a duty's text.
const MOST_TEXT: usize = 1_048_576;

/// The greatest number.
const LAST_NUMBER: u64 = u64::MAX;

/// What one operation needs to be applied.
#[derive(Drop)]
pub enum Need {
    OfPart(Part),
    OfAttempt(u64, Outcome),
}

/// Whether a batch may have this moment, and be the next one.
pub(crate) fn is_on_time(tables: &Tables, moment: u64) -> bool
    ensures count { tables.now.set.count < 2 ^ 63 }
    ensures events { tables.now.events < 2 ^ 63 }
    ensures on_time { IsTrue result ↔ (IsMoment moment × (tables.now.moment ≤ moment) × (is_full tables.now ≡ false)) }
{
    if tables.full() {
        return false;
    }
    if moment > LAST_MOMENT {
        return false;
    }
    tables.moment() <= moment
}

/// What the operation needs, or the reason why it cannot be applied.
pub(crate) fn admit_one(
    alloc: Global,
    tables: &Tables,
    moment: u64,
    entry: &Entry,
) -> Result<Need, ReplayFault>
    requires valid { HasValidTexts (entry_of entry.now) }
    requires unclaimed { HasNoClaim tables.now }
    requires count { tables.now.set.count < 2 ^ 63 }
    requires events { tables.now.events < 2 ^ 63 }
    ensures ok { IfOk result (λ need. IsEntryAdmitted moment (entry_of entry.now) tables.now × IsNeedOf tables.now moment (entry_of entry.now) need) }
    ensures refused { result ≡ Err ReplayFault.NotAdmitted → ¬ IsEntryAdmitted moment (entry_of entry.now) tables.now }
{
    match entry {
        Entry::Control(control) => match admit_change(alloc, tables, moment, control) {
            Ok(part) => Ok(Need::OfPart(part)),
            Err(fault) => Err(fault),
        },
        Entry::Accepted(event) => {
            let number = tables.events() + 1;
            match admit_event(alloc, tables.set(), moment, number, event) {
                Ok(part) => Ok(Need::OfPart(part)),
                Err(fault) => Err(fault),
            }
        }
        Entry::Attempt { duty, outcome } => match admit_attempt(tables, moment, *duty, *outcome) {
            Ok(()) => Ok(Need::OfAttempt(*duty, *outcome)),
            Err(fault) => Err(fault),
        },
        Entry::ReplayStarted(start) => match admit_start(alloc, tables, moment, start) {
            Ok(part) => Ok(Need::OfPart(part)),
            Err(fault) => Err(fault),
        },
        Entry::ReplayStepped(step) => match admit_step(alloc, tables, step) {
            Ok(part) => Ok(Need::OfPart(part)),
            Err(fault) => Err(fault),
        },
        Entry::ReplayCancelled { name } => match admit_cancellation(tables, name) {
            Ok(()) => Ok(Need::OfPart(Part::Cancellation)),
            Err(fault) => Err(fault),
        },
        Entry::MessagesDeleted { queue, through } => match admit_deletion(tables, queue, *through) {
            Ok(()) => Ok(Need::OfPart(Part::Nothing)),
            Err(fault) => Err(fault),
        },
    }
}

fn admit_change(
    alloc: Global,
    tables: &Tables,
    moment: u64,
    control: &Control,
) -> Result<Part, ReplayFault>
    requires valid { IsSpelled (control_of control.now) }
    requires count { tables.now.set.count < 2 ^ 63 }
    ensures ok { IfOk result (λ part. IsEntryAdmitted moment (change (control_of control.now)) tables.now
        × IsPartOf moment tables.now.set (change (control_of control.now)) part) }
    ensures refused { result ≡ Err ReplayFault.NotAdmitted → ¬ IsEntryAdmitted moment (change (control_of control.now)) tables.now }
{
    match is_well_formed(alloc, control) {
        Ok(yes) => {
            if !yes {
                return Err(ReplayFault::NotAdmitted);
            }
        }
        Err(NoMemory) => return Err(ReplayFault::NoMemory),
    }
    if !is_unnamed(tables, control) {
        return Err(ReplayFault::NotAdmitted);
    }
    match Part::of_control(alloc, tables.set(), control, moment) {
        Ok(part) => Ok(part),
        Err(fault) => Err(as_replay_fault(fault)),
    }
}

/// Whether no pending duty and no message names a queue that the change deletes, and no running replay sends its events to a bus that it
/// deletes.
fn is_unnamed(tables: &Tables, control: &Control) -> bool
    ensures { IsTrue result ↔ IsUnnamed (control_of control.now) tables.now }
{
    match control {
        Control::QueueDeleted { name } => !tables.duties().names(name.as_str()),
        Control::BusDeleted { name } => !tables.replays().goes_to(name.as_str()),
        Control::BusCreated { .. }
        | Control::RulePut { .. }
        | Control::RuleDeleted { .. }
        | Control::StatePut { .. }
        | Control::TargetsPut { .. }
        | Control::TargetsRemoved { .. }
        | Control::PolicyPut { .. }
        | Control::QueueCreated { .. }
        | Control::ArchiveCreated { .. }
        | Control::ArchiveUpdated { .. }
        | Control::ArchiveDeleted { .. } => true,
    }
}

/// A refusal, or out of memory.
fn as_replay_fault(fault: ControlFault) -> ReplayFault
    ensures { result ≡ ReplayFault.NotAdmitted → ¬ (fault ≡ control_faults.NoMemory) }
{
    match fault {
        ControlFault::NoMemory => ReplayFault::NoMemory,
        ControlFault::ResourceNotFound(_)
        | ControlFault::AlreadyExists(_)
        | ControlFault::LimitExceeded(_)
        | ControlFault::Validation(_)
        | ControlFault::PolicyTooLong
        | ControlFault::InUse(_)
        | ControlFault::HasTargets
        | ControlFault::DefaultBus => ReplayFault::NotAdmitted,
    }
}

/// The part of the event in a batch of this moment, if it is the next one with this number, and this is the tables' rule set.
fn admit_event(
    alloc: Global,
    set: &RuleSet,
    moment: u64,
    number: u64,
    event: &AcceptedEvent,
) -> Result<Part, ReplayFault>
    ensures ok { IfOk result (λ part. IsNextEvent number set.now (accepted_of event.now)
        × ((s : Set) → IsPartOf moment s (accepted (accepted_of event.now)) part)) }
    ensures refused { result ≡ Err ReplayFault.NotAdmitted → ¬ IsNextEvent number set.now (accepted_of event.now) }
{
    if event.number != number {
        return Err(ReplayFault::NotAdmitted);
    }
    if event.k > set.control_count() {
        return Err(ReplayFault::NotAdmitted);
    }
    if event.time > LAST_MOMENT {
        return Err(ReplayFault::NotAdmitted);
    }
    if !is_bus_name(event.bus.as_str()) {
        return Err(ReplayFault::NotAdmitted);
    }
    if event.duties.len() > MOST_DUTIES {
        return Err(ReplayFault::NotAdmitted);
    }
    if !are_short(&event.duties) {
        return Err(ReplayFault::NotAdmitted);
    }
    if !are_in_order(&event.archives) {
        return Err(ReplayFault::NotAdmitted);
    }
    if !have_archives(set, &event.archives) {
        return Err(ReplayFault::NotAdmitted);
    }
    match is_event_text(alloc, event.text.as_str()) {
        Ok(yes) => {
            if !yes {
                return Err(ReplayFault::NotAdmitted);
            }
        }
        Err(NoMemory) => return Err(ReplayFault::NoMemory),
    }
    match Part::of_event(alloc, event, moment) {
        Ok(part) => Ok(part),
        Err(NoMemory) => Err(ReplayFault::NoMemory),
    }
}

/// Whether no text is too long.
pub(crate) fn are_short(duties: &[NewDuty]) -> bool
    ensures { result ≡ list_all is_short duties.now }
{
    match duties {
        [duty, rest @ ..] => duty.text.as_str().len() <= MOST_TEXT && are_short(rest),
        [] => true,
    }
}

/// Whether the names are in byte order, each once.
fn are_in_order(names: &[Text]) -> bool
    ensures { result ≡ are_in_order names.now }
{
    let mut left = names;
    while let [name, rest @ ..] = left {
        if !is_first(name, rest) {
            return false;
        }
        left = rest;
    }
    true
}

/// Whether the name is before the first of the others, if there is one.
fn is_first(name: &Text, others: &[Text]) -> bool
    ensures { result ≡ is_before_first name.now others.now }
{
    match others {
        [other, ..] => match name.as_str().cmp(other.as_str()) {
            Ordering::Less => true,
            Ordering::Equal | Ordering::Greater => false,
        },
        [] => true,
    }
}

/// Whether the rule set has an archive of each of the names.
fn have_archives(set: &RuleSet, names: &[Text]) -> bool
    ensures { result ≡ list_all (λ name. has_archive name set.now) names.now }
{
    for name in names {
        if set.archive(name.as_str()).is_none() {
            return false;
        }
    }
    true
}

/// Whether the text is that of an event with a number and an account.
fn is_event_text(alloc: Global, text: &str) -> Result<bool, NoMemory>
    ensures { IfOk result (λ yes. IsTrue yes ↔ IsTextAdmitted text.now) }
{
    is_numbered_text(alloc, text.as_bytes())
}

fn admit_attempt(
    tables: &Tables,
    moment: u64,
    duty: u64,
    outcome: Outcome,
) -> Result<(), ReplayFault>
    requires unclaimed { HasNoClaim tables.now }
    ensures ok { OnOk result (IsAttemptAdmitted tables.now moment duty outcome × IsFreeDuty duty tables.now.duties) }
    ensures refused { result ≡ Err ReplayFault.NotAdmitted → ¬ IsAttemptAdmitted tables.now moment duty outcome }
{
    match tables.duties().pending(duty) {
        Some(row) => {
            if row.due > moment {
                return Err(ReplayFault::NotAdmitted);
            }
            if has_its_queue(tables, row.duty.target.endpoint(), outcome) {
                Ok(())
            } else {
                Err(ReplayFault::NotAdmitted)
            }
        }
        None => Err(ReplayFault::NotAdmitted),
    }
}

/// Whether the queue that accepted the text exists, if one did.
fn has_its_queue(tables: &Tables, endpoint: &str, outcome: Outcome) -> bool
    ensures { IsTrue result ↔ (outcome ≡ outcomes.Accepted → (queue : List ℕ) → IsQueueArn endpoint.now queue → has_queue queue tables.now.duties.queues ≡ true) }
{
    match outcome {
        Outcome::Accepted => match queue_of(endpoint) {
            Some(queue) => tables.duties().has_queue(queue),
            None => true,
        },
        Outcome::Code(_) | Outcome::NoAnswer | Outcome::NoQueue | Outcome::TooOld => true,
    }
}

fn admit_deletion(tables: &Tables, queue: &Text, through: u64) -> Result<(), ReplayFault>
    ensures ok { OnOk result (IsDeletionAdmitted tables.now queue.now through) }
    ensures refused { result ≡ Err ReplayFault.NotAdmitted → ¬ IsDeletionAdmitted tables.now queue.now through }
{
    if !tables.duties().has_queue(queue.as_str()) {
        return Err(ReplayFault::NotAdmitted);
    }
    if through >= 1 << 48 {
        return Err(ReplayFault::NotAdmitted);
    }
    if tables.duties().count_through(queue.as_str(), through) == 0 {
        return Err(ReplayFault::NotAdmitted);
    }
    Ok(())
}

/// Adds the parts of the events in a batch of this moment, if they are the next ones with numbers from `number` on, and this is the tables'
/// rule set.
pub(crate) fn admit_events(
    alloc: Global,
    set: &RuleSet,
    moment: u64,
    number: u64,
    entries: &[Entry],
    parts: &mut VecDeque<Part>,
) -> Result<(), ReplayFault>
    ensures ok { OnOk result (AreNextEvents number set.now (map entry_of entries.now)
        × ((ps : List PartView) × (parts.new.items ≡ parts.old.items ++ ps) × ((s : Set) → ArePartsOf moment s (map entry_of entries.now) ps))) }
    ensures refused { result ≡ Err ReplayFault.NotAdmitted → ¬ AreNextEvents number set.now (map entry_of entries.now) }
{
    match entries {
        [] => Ok(()),
        [first, rest @ ..] => match event_in(first) {
            Some(event) => {
                let part = admit_event(alloc, set, moment, number, event)?;
                if parts.push_back(part).is_err() {
                    return Err(ReplayFault::NoMemory);
                }
                // Never so: tables are full long before.
                if number == LAST_NUMBER {
                    return Err(ReplayFault::NoMemory);
                }
                admit_events(alloc, set, moment, number.saturating_add(1), rest, parts)
            }
            None => Err(ReplayFault::NotAdmitted),
        },
    }
}

/// The event, if the operation is one.
fn event_in(entry: &Entry) -> Option<&AcceptedEvent>
    ensures { MatchOption result
        (¬ IsAnEvent (entry_of entry.now))
        (λ event. entry_of entry.now ≡ accepted (accepted_of event.now)) }
{
    match entry {
        Entry::Accepted(event) => Some(event),
        Entry::Control(_)
        | Entry::Attempt { .. }
        | Entry::ReplayStarted(_)
        | Entry::ReplayStepped(_)
        | Entry::ReplayCancelled { .. }
        | Entry::MessagesDeleted { .. } => None,
    }
}
