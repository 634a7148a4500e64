//! An entry becomes an event. The event has one JSON value and one text, and only that text is read back as the event.
#![tactic(auto)]

mod checking;
mod digits;
mod entry;
mod event;
mod front;
mod id;
mod laws;
mod names;
mod parts;
mod reading;
mod time;
mod unnumbered;
mod writing;

pub use checking::{Checked, check};
pub use entry::{CheckFault, EntryFault, EventEntry, size};
pub use event::Event;
pub use id::event_id;
pub use laws::{events_are_made, one_event};
pub use names::{
    DEFAULT_BUS, OWNER, REGION, archive_arn, bus_arn, bus_of, is_account, is_archive_name,
    is_bus_arn, is_bus_name, is_queue_arn, is_queue_name, is_replay_name, is_rule_name,
    is_target_id, queue_arn, queue_name_in, queue_of, replay_arn, rule_arn,
};
pub use time::{iso, read_time};
pub use unnumbered::Unnumbered;
