//! The router's workers at a door: a session for each connection that comes, and steps of deliveries and of replays while none comes.
#![tactic(auto)]

mod clerk;
mod door;
mod places;

pub use door::serve_door;
pub use door_workers::{DoorEnd, Serving};
