//! The faults that an entry has by itself, whatever buses and policies there are.
ghost use Rattle.std.specs.Prelude.{◌≡◌, ◌==◌, ℕ, not, length, take, All, IsTrue, is_some, IfOk, MatchResult, Some, None, unwrap_or};
ghost use Rattle.std.specs.Option.{option_map};
ghost use Rattle.std.specs.Str.{IsUtf8};
ghost use Rattle.json_text.specs.Moment.{IsMoment};
ghost use Rattle.json_text.specs.Tree.{Tree};
ghost use Rattle.json_text.specs.View.{tree_of};
ghost use Rattle.event_shape.specs.Entry.{entry_of};
ghost use Rattle.event_shape.specs.Names.{bus_of_entry};
ghost use Rattle.json_text.specs.Checks.{IsFirst};
ghost use Rattle.event_shape.specs.Fault.{has_text, GivesMoment, GivesDetail, is_reserved as reserved, IsDetail, IsMemoryOr, entry_checks, without_memory};
ghost use Rattle.event_shape.specs.Event.{IsTimeOf, IsCheckedOf};
ghost use Rattle.event_shape.specs.declared.entry.EntryFault.{EntryFault};

use crate::entry::{CheckFault, EntryFault, EventEntry};
use crate::names::{DEFAULT_BUS, bus_of};
use crate::time::read_time;
use json_text::{Json, JsonFault, NoMemory, Text, read};
use std::alloc::Global;
use std::marker::Model;

/// The number of levels of lists and objects that a detail may have. In the event it is one level deeper.
const DETAIL_LEVELS: u32 = 99;

/// Sources with this prefix are reserved for the cloud's own events.
const RESERVED: &str = "aws.";

/// An entry without a fault.
#[derive(Debug, Drop)]
pub struct Checked {
    pub(crate) source: Text,
    pub(crate) detail_type: Text,
    pub(crate) resources: Vec<Text>,
    pub(crate) time: Option<u64>,
    pub(crate) detail: Json,
    pub(crate) bus: Text,
}

impl Model for Checked {
    ghost use Rattle.json_text.specs.View.{tree_of};
    ghost use Rattle.event_shape.specs.Event.{Checked as View, IsChecked, checked_code};

    ghost Value = { View };

    ghost coded = { checked_code };

    ghost view = { λ c. record {
      source = c.source;
      detail_type = c.detail_type;
      resources = c.resources.items;
      time = c.time;
      detail = tree_of c.detail;
      bus = c.bus;
    } };

    ghost invariant = { λ c. IsChecked (record {
      source = c.source;
      detail_type = c.detail_type;
      resources = c.resources.items;
      time = c.time;
      detail = tree_of c.detail;
      bus = c.bus;
    }) };
}

impl Checked {
    /// The name of the bus, which is `default` if the entry gives none.
    pub fn bus(&self) -> &str
        ensures { result.now ≡ self.now.bus }
    {
        self.bus.as_str()
    }

    /// The moment of the entry's Time, or else the reading of the clock.
    pub(crate) fn moment(&self, reading: u64) -> u64
        requires { IsMoment reading }
        ensures value { result ≡ unwrap_or self.now.time reading }
        ensures moment { IsMoment result }
    {
        self.time.unwrap_or(reading)
    }
}

/// The members of the entry as they were read, if it has no fault; else its first fault, in the order of `EntryFault`. The
/// faults up to `Bus` are found without memory. Does not check that the bus exists or that its policy allows the entry.
/// The texts are copied; the detail is read, and its text is not copied.
pub fn check(alloc: Global, entry: &EventEntry) -> Result<Checked, CheckFault>
    ensures checked { IfOk result (λ c. IsCheckedOf (entry_of entry.now) c) }
    ensures fault { (f : EntryFault) → result ≡ Err (CheckFault.Entry f) → IsFirst (entry_checks (entry_of entry.now)) f }
    ensures before_memory { (f : EntryFault) → IsFirst (take without_memory (entry_checks (entry_of entry.now))) f
        → result ≡ Err (CheckFault.Entry f) }
{
    let source = given(&entry.source, EntryFault::Source)?;
    let detail_type = given(&entry.detail_type, EntryFault::DetailType)?;
    let detail = spelled(&entry.detail)?;
    let time = moment_given(&entry.time)?;
    let bus = bus_given(alloc, &entry.bus)?;
    let detail = detail_given(alloc, detail)?;
    if is_reserved(source) {
        return Err(CheckFault::Entry(EntryFault::NotAuthorized));
    }
    let (source, detail_type, resources) = copies(alloc, source, detail_type, &entry.resources)?;
    Ok(Checked {
        source,
        detail_type,
        resources,
        time,
        detail,
        bus,
    })
}

/// The text, if it is given and not empty.
fn given(text: &Option<Text>, fault: EntryFault) -> Result<&Text, EntryFault>
    ensures { MatchResult result
        (λ t. (text.now ≡ Some t.now) × IsTrue (has_text text.now) × IsUtf8 t.now)
        (λ e. (e ≡ fault) × (¬ IsTrue (has_text text.now))) }
{
    match text {
        Some(text) => {
            if text.as_str().is_empty() {
                Err(fault)
            } else {
                Ok(text)
            }
        }
        None => Err(fault),
    }
}

fn spelled(detail: &Option<Text>) -> Result<&Text, EntryFault>
    ensures { MatchResult result (λ t. detail.now ≡ Some t.now) (λ e. (e ≡ EntryFault.Detail) × (¬ IsTrue (is_some detail.now))) }
{
    match detail {
        Some(text) => Ok(text),
        None => Err(EntryFault::Detail),
    }
}

fn moment_given(time: &Option<Json>) -> Result<Option<u64>, EntryFault>
    ensures { MatchResult result
        (λ m. IsTimeOf (option_map tree_of time.now) m)
        (λ e. (e ≡ EntryFault.Time) × (¬ GivesMoment (option_map tree_of time.now))) }
{
    match time {
        Some(json) => match read_time(json) {
            Some(moment) => Ok(Some(moment)),
            None => Err(EntryFault::Time),
        },
        None => Ok(None),
    }
}

fn bus_given(alloc: Global, bus: &Option<Text>) -> Result<Text, CheckFault>
    ensures given { MatchResult result (λ name. bus_of_entry bus.now ≡ Some name)
        (λ e. IsMemoryOr e EntryFault.Bus (bus_of_entry bus.now ≡ None)) }
    ensures before_memory { bus_of_entry bus.now ≡ None → result ≡ Err (CheckFault.Entry EntryFault.Bus) }
{
    match bus {
        Some(text) => match bus_of(text.as_str()) {
            Some(name) => Ok(Text::from_str(alloc, name)?),
            None => Err(CheckFault::Entry(EntryFault::Bus)),
        },
        None => Ok(Text::from_str(alloc, DEFAULT_BUS)?),
    }
}

/// The object that the detail's text spells.
fn detail_given(alloc: Global, detail: &Text) -> Result<Json, CheckFault>
    ensures { MatchResult result
        (λ json. IsDetail detail.now (tree_of json) × ((tree : Tree) → IsDetail detail.now tree → tree ≡ tree_of json))
        (λ e. IsMemoryOr e EntryFault.Malformed (¬ GivesDetail (Some detail.now))) }
{
    match read(alloc, detail.as_str().as_bytes(), DETAIL_LEVELS) {
        Ok(json) => {
            if json.is_object() {
                Ok(json)
            } else {
                Err(CheckFault::Entry(EntryFault::Malformed))
            }
        }
        Err(JsonFault::NoMemory) => Err(CheckFault::NoMemory),
        Err(_) => Err(CheckFault::Entry(EntryFault::Malformed)),
    }
}

pub(crate) fn is_reserved(source: &Text) -> bool
    ensures { result ≡ reserved source.now }
{
    source.as_str().as_bytes().starts_with(RESERVED.as_bytes())
}

/// Copies of the texts that an event takes over from its entry.
fn copies(
    alloc: Global,
    source: &Text,
    detail_type: &Text,
    resources: &[Text],
) -> Result<(Text, Text, Vec<Text>), NoMemory>
    ensures source { IfOk result (λ c. c.0 ≡ source.now) }
    ensures detail_type { IfOk result (λ c. c.1 ≡ detail_type.now) }
    ensures resources { IfOk result (λ c. c.2.items ≡ resources.now) }
    ensures utf8 { IfOk result (λ c. All IsUtf8 c.2.items) }
{
    let copies = copies_of(alloc, resources)?;
    let source = source.copy(alloc)?;
    Ok((source, detail_type.copy(alloc)?, copies))
}

fn copies_of(alloc: Global, texts: &[Text]) -> Result<Vec<Text>, NoMemory>
    ensures same { IfOk result (λ copies. copies.items ≡ texts.now) }
    ensures utf8 { IfOk result (λ copies. All IsUtf8 copies.items) }
{
    let mut copies = Vec::with_capacity(alloc, texts.len())?;
    for text in texts {
        copies.push(Text::from_str(alloc, text.as_str())?)?;
    }
    Ok(copies)
}
