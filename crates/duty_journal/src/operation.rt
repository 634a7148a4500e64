//! Operations are read.
ghost use Rattle.std.specs.Prelude.{◌≡◌, IfOk};
ghost use Rattle.entry_bytes.specs.Reading.{Gives, Finds, pair_at, made_at, eight_at, text_at};
ghost use Rattle.entry_bytes.specs.ChangeReading.{change_at};
ghost use Rattle.entry_bytes.specs.DutyReading.{outcome_at};
ghost use Rattle.router_requests.specs.Batch.{control};
ghost use Rattle.std.specs.Option.{option_map};
ghost use Rattle.router_requests.specs.View.{accepted_of, stepped_of, entry_of};
ghost use Rattle.duty_journal.specs.Batch.{HasValidTexts};
ghost use Rattle.duty_journal.specs.Reading.{event_at, started_at, stepped_at, attempt_of, deleted_of, other_at, operation_at};

use entry_bytes::{
    ReadFault, take_change, take_duties, take_optional_texts, take_outcome, take_str, take_text,
    take_texts, take_u8, take_u64,
};
use json_text::Text;
use replay_run::{RuleNames, TimeRange};
use router_requests::{AcceptedEvent, Entry, StartedReplay, SteppedReplay};
use shared_text::SharedText;
use std::alloc::Global;

/// The greatest kind of a change.
const LAST_CHANGE: u8 = 13;

/// The operation at the front, and the bytes after it. Refused if it is a change whose pattern, policy or input is not valid.
pub(crate) fn take_operation(alloc: Global, bytes: &[u8]) -> Result<(Entry, &[u8]), ReadFault>
    ensures { Finds (λ x. (entry_of x.0, x.1.now)) HasValidTexts result (operation_at bytes.now) }
{
    match take_u8(bytes) {
        Ok((kind, rest)) => {
            if kind <= LAST_CHANGE {
                take_changed(alloc, bytes)
            } else {
                take_other(alloc, kind, rest)
            }
        }
        Err(fault) => Err(fault),
    }
}

fn take_changed(alloc: Global, bytes: &[u8]) -> Result<(Entry, &[u8]), ReadFault>
    ensures { Finds (λ x. (entry_of x.0, x.1.now)) HasValidTexts result (made_at control change_at bytes.now) }
{
    match take_change(alloc, bytes) {
        Ok((control, rest)) => Ok((Entry::Control(control), rest)),
        Err(fault) => Err(fault),
    }
}

#[tactic(auto, unfolding(crate::specs::Reading::other_at))]
fn take_other(alloc: Global, kind: u8, bytes: &[u8]) -> Result<(Entry, &[u8]), ReadFault>
    ensures gives { Gives (λ x. (entry_of x.0, x.1.now)) result (other_at kind bytes.now) }
    ensures valid { IfOk result (λ x. HasValidTexts (entry_of x.0)) }
{
    match kind {
        14 => {
            let (event, rest) = take_event(alloc, bytes)?;
            Ok((Entry::Accepted(event), rest))
        }
        15 => take_attempt(bytes),
        16 => {
            let (start, rest) = take_started(alloc, bytes)?;
            Ok((Entry::ReplayStarted(start), rest))
        }
        17 => {
            let (step, rest) = take_stepped(alloc, bytes)?;
            Ok((Entry::ReplayStepped(step), rest))
        }
        18 => {
            let (name, rest) = take_text(alloc, bytes)?;
            Ok((Entry::ReplayCancelled { name }, rest))
        }
        19 => take_deletion(alloc, bytes),
        _ => Err(ReadFault::NotSpelled),
    }
}

/// The duties whose text is equal to the event's share it.
fn take_event(alloc: Global, bytes: &[u8]) -> Result<(AcceptedEvent, &[u8]), ReadFault>
    ensures { Gives (λ x. (accepted_of x.0, x.1.now)) result (event_at bytes.now) }
{
    let (number, rest) = take_u64(bytes)?;
    let (bus, rest) = take_str(rest)?;
    let (k, rest) = take_u64(rest)?;
    let (time, rest) = take_u64(rest)?;
    let (text, rest) = take_str(rest)?;
    let (archives, rest) = take_texts(alloc, rest)?;
    let text = SharedText::new(alloc, Text::from_str(alloc, text)?)?;
    let (duties, rest) = take_duties(alloc, &text, rest)?;
    let bus = Text::from_str(alloc, bus)?;
    let event = AcceptedEvent {
        number,
        bus,
        k,
        time,
        text,
        archives,
        duties,
    };
    Ok((event, rest))
}

fn take_attempt(bytes: &[u8]) -> Result<(Entry, &[u8]), ReadFault>
    ensures gives { Gives (λ x. (entry_of x.0, x.1.now)) result (made_at attempt_of (pair_at eight_at outcome_at) bytes.now) }
    ensures valid { IfOk result (λ x. HasValidTexts (entry_of x.0)) }
{
    let (duty, rest) = take_u64(bytes)?;
    let (outcome, rest) = take_outcome(rest)?;
    Ok((Entry::Attempt { duty, outcome }, rest))
}

fn take_deletion(alloc: Global, bytes: &[u8]) -> Result<(Entry, &[u8]), ReadFault>
    ensures gives { Gives (λ x. (entry_of x.0, x.1.now)) result (made_at deleted_of (pair_at text_at eight_at) bytes.now) }
    ensures valid { IfOk result (λ x. HasValidTexts (entry_of x.0)) }
{
    let (queue, rest) = take_str(bytes)?;
    let (through, rest) = take_u64(rest)?;
    let queue = Text::from_str(alloc, queue)?;
    Ok((Entry::MessagesDeleted { queue, through }, rest))
}

fn take_started(alloc: Global, bytes: &[u8]) -> Result<(StartedReplay, &[u8]), ReadFault>
    ensures { Gives (λ x. (x.0, x.1.now)) result (started_at bytes.now) }
{
    let (name, rest) = take_text(alloc, bytes)?;
    let (archive, rest) = take_text(alloc, rest)?;
    let (start, rest) = take_u64(rest)?;
    let (end, rest) = take_u64(rest)?;
    let (names, rest) = take_optional_texts(alloc, rest)?;
    let start = StartedReplay {
        name,
        archive,
        range: TimeRange { start, end },
        rules: rules_of(names),
    };
    Ok((start, rest))
}

/// The filter of the rules of these names, if there are names.
fn rules_of(names: Option<Vec<Text>>) -> Option<RuleNames>
    ensures { result ≡ option_map (λ t. t.items) names }
{
    match names {
        Some(names) => Some(RuleNames::new(names)),
        None => None,
    }
}

/// A step has no text of its own that its duties could share, so each duty's text is read by itself.
fn take_stepped(alloc: Global, bytes: &[u8]) -> Result<(SteppedReplay, &[u8]), ReadFault>
    ensures { Gives (λ x. (stepped_of x.0, x.1.now)) result (stepped_at bytes.now) }
{
    let (name, rest) = take_text(alloc, bytes)?;
    let (event, rest) = take_u64(rest)?;
    let nothing = SharedText::new(alloc, Text::from_str(alloc, "")?)?;
    let (duties, rest) = take_duties(alloc, &nothing, rest)?;
    let step = SteppedReplay {
        name,
        event,
        duties,
    };
    Ok((step, rest))
}
