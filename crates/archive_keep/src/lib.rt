//! Archives: the events that each keeps, for its days, and those that have to go.
#![tactic(auto)]

mod archive;
mod archives;
mod event_ref;
mod laws;

pub use archive::Archive;
pub use archives::{Archives, MOST_ARCHIVES};
pub use event_ref::{EventRef, KeptEvent};
pub use laws::what_is_retained_later_was_not_dropped;
