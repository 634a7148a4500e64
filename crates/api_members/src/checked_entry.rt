//! Entries of a PutEvents, checked once.
ghost use Rattle.std.specs.Prelude.{◌≡◌, ◌-◌, ◌^◌, map, min, IfOk};
ghost use Rattle.json_text.specs.Moment.{IsMoment};
ghost use Rattle.event_shape.specs.Entry.{entry_of};
ghost use Rattle.api_members.specs.CheckedEntry as spec;

use event_shape::{CheckFault, EntryFault, EventEntry, Unnumbered, check, size};
use json_text::NoMemory;
use std::alloc::Global;

/// What checking an entry gives: its event, which has no number yet, or its first fault.
pub type CheckedEntry = Result<Unnumbered, EntryFault>;

/// Checks each entry, in order. An event's account is the caller, and its time is its entry's, or else `reading`.
pub fn check_entries(
    alloc: Global,
    entries: &[EventEntry],
    reading: u64,
    caller: &str,
) -> Result<Vec<CheckedEntry>, NoMemory>
    requires { IsMoment reading }
    ensures { IfOk result (λ all. spec.AreChecked reading caller.now (map entry_of entries.now) all.items) }
{
    let mut all = Vec::with_capacity(alloc, entries.len())?;
    for entry in entries {
        let one = check_entry(alloc, entry, reading, caller)?;
        all.push(one)?;
    }
    Ok(all)
}

fn check_entry(
    alloc: Global,
    entry: &EventEntry,
    reading: u64,
    caller: &str,
) -> Result<CheckedEntry, NoMemory>
    requires { IsMoment reading }
    ensures { IfOk result (λ one. spec.IsChecked reading caller.now (entry_of entry.now) one) }
{
    match check(alloc, entry) {
        Ok(checked) => Ok(Ok(Unnumbered::make(alloc, checked, reading, caller)?)),
        Err(CheckFault::Entry(fault)) => Ok(Err(fault)),
        Err(CheckFault::NoMemory) => Err(NoMemory),
    }
}

/// The number of bytes that the entries have together, faulty ones included; `u64::MAX` if the sum is greater.
pub fn total_size(entries: &[EventEntry]) -> u64
    ensures { result ≡ min (spec.total_size (map entry_of entries.now)) (2 ^ 64 - 1) }
{
    let mut total: u64 = 0;
    for entry in entries {
        total = total.saturating_add(size(entry));
    }
    total
}
