//! The disk of a journal: its file, which no other process opens so meanwhile, and a flag that the first failed call of it sets.
#![tactic(auto)]

mod fault_flag;
mod journal_disk;
mod journal_file;

pub use fault_flag::FaultFlag;
pub use journal_disk::JournalDisk;
pub use journal_file::open_disk;
