//! The program: one session over its streams, workers that serve the connections of a port side by side, or a drill.
#![tactic(auto)]

mod journal;
mod once;
mod program;
mod serve;

pub use program::run;
