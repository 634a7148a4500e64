//! An entry of a request to put events.
ghost use Rattle.std.specs.Prelude.{◌≡◌, ◌+◌, ◌-◌, ◌^◌, ℕ, List, Option, min, length, sum_by};
ghost use Rattle.event_shape.specs.Entry.{entry_of, size_of, text_size};

use json_text::{Json, NoMemory, Text};
use thiserror::Error;

/// An entry of a request to put events. An absent bus is `default`.
#[derive(Debug, Drop)]
pub struct EventEntry {
    pub time: Option<Json>,
    pub source: Option<Text>,
    pub resources: Vec<Text>,
    pub detail_type: Option<Text>,
    pub detail: Option<Text>,
    /// A bus's name or its ARN.
    pub bus: Option<Text>,
}

/// Why an entry is no event. If several faults are there, the first in this order is reported.
#[derive(Clone, Copy, Debug, PartialEq, Eq, Error)]
pub enum EntryFault {
    #[error("the source is absent or empty")]
    Source,
    #[error("the detail type is absent or empty")]
    DetailType,
    #[error("the detail is absent")]
    Detail,
    #[error("the time is no moment")]
    Time,
    #[error("the bus is neither a name nor an ARN")]
    Bus,
    #[error("the detail is no JSON object of at most 99 levels")]
    Malformed,
    #[error("the source begins with `aws.`")]
    NotAuthorized,
}

/// Why `check` refuses an entry.
#[derive(Debug, Drop, Error)]
pub enum CheckFault {
    #[error("{0}")]
    Entry(EntryFault),
    #[error("out of memory")]
    NoMemory,
}

impl From<NoMemory> for CheckFault {
    ghost use Rattle.std.specs.Prelude.{◌≡◌};
    ghost use Rattle.event_shape.specs.declared.entry.CheckFault.TheVariants.{NoMemory as out_of_memory};

    ghost from_gives = { λ _ e. e ≡ out_of_memory };

    fn from(_refused: NoMemory) -> CheckFault {
        CheckFault::NoMemory
    }
}

impl From<EntryFault> for CheckFault {
    ghost use Rattle.std.specs.Prelude.{◌≡◌};
    ghost use Rattle.event_shape.specs.declared.entry.CheckFault.TheVariants.{Entry};

    ghost from_gives = { λ f e. e ≡ Entry f };

    fn from(fault: EntryFault) -> CheckFault {
        CheckFault::Entry(fault)
    }
}

/// The size of the entry, in bytes: 14 for a time, and the lengths in UTF-8 of its texts except the bus. A sum above
/// `u64::MAX` is `u64::MAX`.
pub fn size(entry: &EventEntry) -> u64
    ensures { result ≡ min (size_of (entry_of entry.now)) (2 ^ 64 - 1) }
{
    let time: u64 = if entry.time.is_some() { 14 } else { 0 };
    let mut total = time
        .saturating_add(text_len(&entry.source))
        .saturating_add(text_len(&entry.detail_type))
        .saturating_add(text_len(&entry.detail));
    for resource in &entry.resources {
        total = total.saturating_add(resource.as_str().len() as u64);
    }
    total
}

fn text_len(text: &Option<Text>) -> u64
    ensures { result ≡ text_size text.now }
{
    match text {
        Some(text) => text.as_str().len() as u64,
        None => 0,
    }
}
