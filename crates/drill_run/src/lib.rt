//! A drill: sessions over messages that the program makes itself, and the summary of what they led to.
#![tactic(auto)]

mod run;
mod script;
mod still;

pub use run::{ONLY_CONNECTION, drill};
pub use still::{Moment, StillClock};
