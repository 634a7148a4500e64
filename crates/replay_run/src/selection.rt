//! What a replay selects of an archive.
ghost use Rattle.std.specs.Prelude.{◌≡◌, ◌<◌, IfOk, OnOk, IsTrue, filter};
ghost use Rattle.archive_keep.specs.Kept.{AreInOrder};
ghost use Rattle.archive_keep.specs.Archive.{retained_at};
ghost use Rattle.replay_run.specs.Selection as spec;

use archive_keep::{Archive, EventRef};
use json_text::NoMemory;
use std::alloc::Global;

/// A range of times in seconds, with both ends.
#[derive(Clone, Copy, Debug, PartialEq, Eq)]
pub struct TimeRange {
    pub start: u64,
    pub end: u64,
}

/// The events that the archive retains at the moment and whose time is in the range, by time and then by number. They are
/// counted first, so the vector has no more room than it needs.
pub(crate) fn selection(
    alloc: Global,
    archive: &Archive,
    range: TimeRange,
    moment: u64,
) -> Result<Vec<EventRef>, NoMemory>
    ensures { IfOk result (λ events. events.items ≡ spec.selection_of range moment archive.now) }
{
    let mut events = chosen(alloc, archive, range, moment)?;
    sort_by_time(&mut events)?;
    Ok(events)
}

/// The events in the range, oldest first.
fn chosen(
    alloc: Global,
    archive: &Archive,
    range: TimeRange,
    moment: u64,
) -> Result<Vec<EventRef>, NoMemory>
    ensures { IfOk result (λ events. events.items ≡ spec.chosen_of range moment archive.now) }
{
    let mut events = Vec::with_capacity(alloc, chosen_count(archive, range, moment))?;
    for event in archive.retained(moment) {
        if is_in_range(range, event) {
            events.push(event.share()?)?;
        }
    }
    Ok(events)
}

fn chosen_count(archive: &Archive, range: TimeRange, moment: u64) -> usize {
    archive
        .retained(moment)
        .filter(|event| is_in_range(range, event))
        .count()
}

fn is_in_range(range: TimeRange, event: &EventRef) -> bool
    ensures { result ≡ spec.is_in_range range event.now }
{
    let time = event.time();
    (range.start <= time) & (time <= range.end)
}

/// Puts the events in the order of their times; of those with one time the order stays. An `Err` changes nothing.
fn sort_by_time(events: &mut Vec<EventRef>) -> Result<(), NoMemory>
    ensures { OnOk result (events.new.items ≡ spec.by_time events.old.items) }
{
    if are_by_time(events) {
        return Ok(());
    }
    events.sort_by_key(|event| event.time())?;
    Ok(())
}

/// Whether no event has an earlier time than one before it.
fn are_by_time(events: &[EventRef]) -> bool
    ensures { IsTrue result → spec.AreByTime events.now }
{
    let mut last = 0;
    for event in events {
        let time = event.time();
        if time < last {
            return false;
        }
        last = time;
    }
    true
}
