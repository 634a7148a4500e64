//! The requests of a drill: a run of the router that a seed and a number of events repeat.
#![tactic(auto)]

mod message;
mod operations;
mod requests;

pub use operations::deliver_due_message;
pub use requests::DrillMessages;
