//! The result of matching a request against a rule set.
use event_shape::EntryFault;
use json_text::Text;
use rule_targets::SharedInput;
use shared_text::{SharedRow, SharedText};
use std::collections::VecDeque;

/// A target of a rule that matches an event. It stays valid after its rule set is dropped.
#[derive(Debug, Drop)]
pub struct SeenTarget {
    pub row: SharedRow,
    /// What its text is made of; without an input it gets the event's text.
    pub input: Option<SharedInput>,
}

/// An archive that keeps an event. It stays valid after its rule set is dropped.
#[derive(Debug, Drop)]
pub struct SeenArchive {
    pub name: SharedText,
    /// The configuration version after its creation.
    pub made: u64,
}

/// The verdict on an entry of a PutEvents, on a rule set.
#[derive(Debug, Drop)]
pub enum SeenVerdict {
    /// The entry's own fault.
    Fault(EntryFault),
    /// The entry's bus does not exist.
    NoBus,
    /// The statement of this name of the bus's policy denies it: its Sid, or `#` and its place.
    DeniedBy(Text),
    /// No statement of the bus's policy allows it.
    NotAllowed,
    Allowed,
}

/// Targets, in the order of their rules.
pub type SeenTargets = VecDeque<SeenTarget>;

/// Archives, in the byte order of their names.
pub type SeenArchives = VecDeque<SeenArchive>;

/// The result of matching one entry of a PutEvents.
#[derive(Debug, Drop)]
pub struct SeenEntry {
    pub verdict: SeenVerdict,
    /// The targets of the rules that match the event, in the order of the rule set; none if the entry is not allowed.
    pub targets: SeenTargets,
    /// The archives that keep the event, by name; none if the entry is not allowed.
    pub archives: SeenArchives,
}

/// The result of matching each entry of a PutEvents, in their order.
pub type SeenEntries = VecDeque<SeenEntry>;

/// What matching finds for a request.
#[derive(Debug, Drop)]
pub enum SeenResult {
    /// Of a PutEvents, for each entry.
    Entries(SeenEntries),
    /// Of a TestEventPattern, whether the pattern matches the event.
    Tested(bool),
    /// Of any other request.
    Nothing,
}

/// The result of matching a request against one rule set.
#[derive(Debug, Drop)]
pub struct Seen {
    /// The configuration version: the number of changes that made the rule set.
    pub k: u64,
    pub result: SeenResult,
}
