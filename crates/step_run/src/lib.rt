//! Steps within a budget over any book of steps and any clock.
#![tactic(auto)]

mod book;
mod fault;
mod run;

pub use book::StepBook;
pub use fault::{StepFault, StepsFault};
pub use run::run_steps;
