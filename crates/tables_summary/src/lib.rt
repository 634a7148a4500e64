//! The summary of tables, printed on a sink.
#![tactic(auto)]

mod summing;

pub use summing::sum_up;
