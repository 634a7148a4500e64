//! A text is read to the pattern that it is, and to no other, or refused with its first fault.
#![tactic(auto)]

mod building;
mod counting;
mod excluded;
mod fault;
mod kind;
mod laws;
mod leaf;
mod numeric;
mod pattern_text;
mod reading;
mod shared_pattern;

pub use fault::{PatternFault, Why};
pub use laws::faults_decide;
pub use pattern_text::PatternText;
pub use reading::read_pattern;
pub use shared_pattern::SharedPattern;
