//! The file of a journal is read, and what it holds is printed.
#![tactic(auto)]

mod journal;

pub use journal::{check, fault_status, opening_status};
