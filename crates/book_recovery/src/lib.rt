//! The router's book is opened: with the first tables, or with what the journal on a disk holds.
#![tactic(auto)]

mod opened;

pub use duty_journal::JournalFault as OpenFault;
pub use opened::{Opened, recover_book};
