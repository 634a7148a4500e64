//! What a client asks of the router, which rules and archives an event matches, the deliveries it makes, and the batch that is written.
#![tactic(auto)]

mod batch;
mod duties;
mod finder;
mod matching;
mod request;
mod seen;

pub use batch::{AcceptedEvent, Batch, Entry, StartedReplay, SteppedReplay, copied_rules};
pub use duties::{duties_of, need_tree};
pub use finder::Finder;
pub use matching::{
    archives_keeping, pattern_matches, push_targets, see_event_with, see_plain, see_plain_event,
    see_with,
};
pub use request::{Action, Request};
pub use seen::{
    Seen, SeenArchive, SeenArchives, SeenEntries, SeenEntry, SeenResult, SeenTarget, SeenTargets,
    SeenVerdict,
};
