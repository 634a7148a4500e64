//! What is decided of a call, and the calls on event buses, archives, replays and queues.
#![tactic(auto)]

mod archives;
mod buses;
mod changes;
mod decided;
mod queues;
mod replays;
mod tables;

pub use archives::{create_archive, delete_archive, update_archive};
pub use buses::{create_event_bus, delete_event_bus};
pub use changes::configure;
pub use decided::{Decided, refused, shown, writes};
pub use queues::{create_queue, delete_messages, delete_queue};
pub use replays::{cancel_replay, start_replay};
pub use tables::read_tables;
