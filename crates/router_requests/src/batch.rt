//! Batches: the changes of one turn, as a journal records them.
ghost use Rattle.std.specs.Prelude.{◌≡◌, IfOk};

use delivery_duties::{NewDuty, Outcome};
use json_text::{NoMemory, Text};
use replay_run::{RuleNames, TimeRange};
use rule_table::Control;
use shared_text::SharedText;
use std::alloc::Global;

/// An event that is accepted, with its duties.
#[derive(Drop)]
pub struct AcceptedEvent {
    /// The place among all accepted events, from 1.
    pub number: u64,
    /// The name of its bus.
    pub bus: Text,
    /// The configuration version at which it was matched, as in `Seen`.
    pub k: u64,
    /// Its member `time`, in seconds since 1970-01-01T00:00:00Z.
    pub time: u64,
    /// The whole event, as compact JSON. Its duties share it.
    pub text: SharedText,
    /// The names of the archives that keep it, in byte order.
    pub archives: Vec<Text>,
    /// One for each target of each rule that matches.
    pub duties: Vec<NewDuty>,
}

/// A replay that starts. Its events go to the bus of its archive.
#[derive(Drop)]
pub struct StartedReplay {
    pub name: Text,
    /// The name of the archive.
    pub archive: Text,
    pub range: TimeRange,
    /// The rules that see the events; without a filter all do.
    pub rules: Option<RuleNames>,
}

impl StartedReplay {
    /// The same start.
    pub fn copy(&self, alloc: Global) -> Result<StartedReplay, NoMemory>
        ensures { IfOk result (λ same. same ≡ self.now) }
    {
        let name = self.name.copy(alloc)?;
        let archive = self.archive.copy(alloc)?;
        let rules = copied_rules(alloc, &self.rules)?;
        Ok(StartedReplay {
            name,
            archive,
            range: self.range,
            rules,
        })
    }
}

/// A step of a replay: one event is repeated.
#[derive(Drop)]
pub struct SteppedReplay {
    pub name: Text,
    /// The number of the event.
    pub event: u64,
    /// One for each target of each rule that matches.
    pub duties: Vec<NewDuty>,
}

/// One entry of a batch.
#[derive(Drop)]
pub enum Entry {
    /// A change of the configuration.
    Control(Control),
    /// An accepted event.
    Accepted(AcceptedEvent),
    /// The outcome of an attempt of the duty of this number.
    Attempt { duty: u64, outcome: Outcome },
    /// A replay that starts.
    ReplayStarted(StartedReplay),
    /// A step of a replay.
    ReplayStepped(SteppedReplay),
    /// The replay of this name is cancelled.
    ReplayCancelled { name: Text },
    /// The messages of the queue with numbers up to this one are deleted.
    MessagesDeleted { queue: Text, through: u64 },
}

/// The changes of one turn.
#[derive(Drop)]
pub struct Batch {
    /// When they are made, in seconds since 1970-01-01T00:00:00Z.
    pub moment: u64,
    pub entries: Vec<Entry>,
}

/// The same filter, if there is one.
pub fn copied_rules(alloc: Global, rules: &Option<RuleNames>) -> Result<Option<RuleNames>, NoMemory>
    ensures { IfOk result (λ same. same ≡ rules.now) }
{
    match rules {
        Some(rules) => Ok(Some(RuleNames::new(copies(alloc, rules.names())?))),
        None => Ok(None),
    }
}

/// The same names.
fn copies(alloc: Global, names: &[Text]) -> Result<Vec<Text>, NoMemory>
    ensures { IfOk result (λ same. same.items ≡ names.now) }
{
    let mut same = Vec::with_capacity(alloc, names.len())?;
    for name in names {
        same.push(name.copy(alloc)?)?;
    }
    Ok(same)
}
