//! Workers that serve the connections of one door side by side.
#![tactic(auto)]

mod counts;
mod door;
mod site;
mod staff;
mod worker;

pub use counts::may_leave;
pub use door::{DoorEnd, Serving, serve_door};
pub use worker::{Seating, Work};
