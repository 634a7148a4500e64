//! Batches are written.
ghost use Rattle.std.specs.Prelude.{◌≡◌, ◌<◌, ◌≤◌, ◌^◌, ◌++◌, ◌∷◌, map, length, take, OnOk, OnErr};
ghost use Rattle.std.specs.List.{flat_map, AllByRecursion};
ghost use Rattle.entry_bytes.specs.Fields.{two_bytes, eight_bytes, text_bytes, IsText};
ghost use Rattle.entry_bytes.specs.Duty.{IsDuty};
ghost use Rattle.std.specs.Option.{option_map};
ghost use Rattle.router_requests.specs.View.{accepted_of, stepped_of, entry_of, batch_of};
ghost use Rattle.duty_journal.specs.Batch.{accepted_bytes, started_bytes, stepped_bytes, operation_bytes, batch_bytes, IsAccepted, IsStarted, IsStepped, IsOperation, FitsBytes};

use entry_bytes::{
    put_change, put_duties, put_optional_texts, put_outcome, put_text, put_texts, put_u8, put_u16,
    put_u64,
};
use json_text::{Bytes, NoMemory, Text};
use replay_run::RuleNames;
use router_requests::{AcceptedEvent, Batch, Entry, StartedReplay, SteppedReplay};

/// Adds the bytes of the batch. Refused as out of memory if it has no operation, or 65,536 or more, or a text or list of 2^32 or more.
/// After an `Err` the bytes are as before.
pub fn put_batch(batch: &Batch, out: &mut Bytes) -> Result<(), NoMemory>
    ensures bytes { OnOk result (out.new ≡ out.old ++ batch_bytes (batch_of batch.now)) }
    ensures fits { OnOk result (FitsBytes (batch_of batch.now)) }
    ensures err { OnErr result (out.new ≡ out.old) }
{
    let before = out.len();
    match put_whole(batch, out) {
        Ok(()) => Ok(()),
        Err(NoMemory) => {
            out.truncate(before);
            Err(NoMemory)
        }
    }
}

fn put_whole(batch: &Batch, out: &mut Bytes) -> Result<(), NoMemory>
    ensures bytes { OnOk result (out.new ≡ out.old ++ batch_bytes (batch_of batch.now)) }
    ensures fits { OnOk result (FitsBytes (batch_of batch.now)) }
    ensures err { OnErr result (take (length out.old) out.new ≡ out.old) }
{
    put_u64(batch.moment, out)?;
    put_count(batch.entries.len(), out)?;
    put_entries(&batch.entries, out)
}

fn put_count(count: usize, out: &mut Bytes) -> Result<(), NoMemory>
    ensures bytes { OnOk result (out.new ≡ out.old ++ two_bytes count) }
    ensures fits { OnOk result ((1 ≤ count) × (count < 2 ^ 16)) }
    ensures err { OnErr result (take (length out.old) out.new ≡ out.old) }
{
    if count == 0 {
        return Err(NoMemory);
    }
    match u16::try_from(count) {
        Ok(count) => put_u16(count, out),
        Err(_) => Err(NoMemory),
    }
}

fn put_entries(entries: &[Entry], out: &mut Bytes) -> Result<(), NoMemory>
    ensures bytes { OnOk result (out.new ≡ out.old ++ flat_map operation_bytes (map entry_of entries.now)) }
    ensures fits { OnOk result (AllByRecursion (IsOperation IsDuty) (map entry_of entries.now)) }
    ensures err { OnErr result (take (length out.old) out.new ≡ out.old) }
{
    for entry in entries {
        put_entry(entry, out)?;
    }
    Ok(())
}

fn put_entry(entry: &Entry, out: &mut Bytes) -> Result<(), NoMemory>
    ensures bytes { OnOk result (out.new ≡ out.old ++ operation_bytes (entry_of entry.now)) }
    ensures fits { OnOk result (IsOperation IsDuty (entry_of entry.now)) }
    ensures err { OnErr result (take (length out.old) out.new ≡ out.old) }
{
    match entry {
        Entry::Control(control) => put_change(control, out),
        Entry::Accepted(event) => {
            put_u8(14, out)?;
            put_accepted(event, out)
        }
        Entry::Attempt { duty, outcome } => {
            put_u8(15, out)?;
            put_u64(*duty, out)?;
            put_outcome(*outcome, out)
        }
        Entry::ReplayStarted(start) => {
            put_u8(16, out)?;
            put_started(start, out)
        }
        Entry::ReplayStepped(step) => {
            put_u8(17, out)?;
            put_stepped(step, out)
        }
        Entry::ReplayCancelled { name } => {
            put_u8(18, out)?;
            put_text(name.as_str(), out)
        }
        Entry::MessagesDeleted { queue, through } => {
            put_u8(19, out)?;
            put_text(queue.as_str(), out)?;
            put_u64(*through, out)
        }
    }
}

fn put_accepted(event: &AcceptedEvent, out: &mut Bytes) -> Result<(), NoMemory>
    ensures bytes { OnOk result (out.new ≡ out.old ++ accepted_bytes (accepted_of event.now)) }
    ensures fits { OnOk result (IsAccepted IsDuty (accepted_of event.now)) }
    ensures err { OnErr result (take (length out.old) out.new ≡ out.old) }
{
    put_place(event, out)?;
    put_text(event.text.as_str(), out)?;
    put_texts(&event.archives, out)?;
    put_duties(&event.duties, out)
}

/// The event without its text, its archives and its duties.
fn put_place(event: &AcceptedEvent, out: &mut Bytes) -> Result<(), NoMemory>
    ensures bytes { OnOk result (out.new ≡ out.old ++ (eight_bytes event.now.number ++ (text_bytes event.now.bus
        ++ (eight_bytes event.now.k ++ eight_bytes event.now.time)))) }
    ensures fits { OnOk result ((event.now.number < 2 ^ 64) × (IsText event.now.bus × ((event.now.k < 2 ^ 64) × (event.now.time < 2 ^ 64)))) }
    ensures err { OnErr result (take (length out.old) out.new ≡ out.old) }
{
    put_u64(event.number, out)?;
    put_text(event.bus.as_str(), out)?;
    put_u64(event.k, out)?;
    put_u64(event.time, out)
}

fn put_started(start: &StartedReplay, out: &mut Bytes) -> Result<(), NoMemory>
    ensures bytes { OnOk result (out.new ≡ out.old ++ started_bytes start.now) }
    ensures fits { OnOk result (IsStarted start.now) }
    ensures err { OnErr result (take (length out.old) out.new ≡ out.old) }
{
    put_text(start.name.as_str(), out)?;
    put_text(start.archive.as_str(), out)?;
    put_u64(start.range.start, out)?;
    put_u64(start.range.end, out)?;
    put_optional_texts(names_of(&start.rules), out)
}

/// The names of the rules of the filter, if there is one.
fn names_of(rules: &Option<RuleNames>) -> Option<&[Text]>
    ensures { option_map (λ t. t.now) result ≡ rules.now }
{
    match rules {
        Some(rules) => Some(rules.names()),
        None => None,
    }
}

fn put_stepped(step: &SteppedReplay, out: &mut Bytes) -> Result<(), NoMemory>
    ensures bytes { OnOk result (out.new ≡ out.old ++ stepped_bytes (stepped_of step.now)) }
    ensures fits { OnOk result (IsStepped IsDuty (stepped_of step.now)) }
    ensures err { OnErr result (take (length out.old) out.new ≡ out.old) }
{
    put_text(step.name.as_str(), out)?;
    put_u64(step.event, out)?;
    put_duties(&step.duties, out)
}
