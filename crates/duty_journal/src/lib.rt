//! Batches as the payloads of a journal's records, and back; the journal that is appended to, opened and read.
#![tactic(auto)]

mod admit;
mod fault;
mod home;
mod journal;
mod laws;
mod operation;
mod prepared;
mod put;
mod record;
mod recover;
mod redo;
mod replays;
mod take;

pub use fault::{DiskFault, JournalFault, ReplayFault};
pub use home::Home;
pub use journal::Journal;
pub use laws::{
    a_batch_has_its_own_bytes, a_file_is_one_journal, no_batch_claims, rows_name_their_rules,
    safe_batches_are_found,
};
pub use prepared::{Prepared, prepare};
pub use put::put_batch;
pub use record::attempt_record;
pub use recover::{Found, inspect};
pub use redo::{Redo, replay_batch};
pub use take::take_batch;
