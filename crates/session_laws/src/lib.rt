//! Laws of sessions: what a session writes follows from what it is given, all batches are admitted, and without a journal no book breaks.
#![tactic(auto)]

mod laws;

pub use laws::{batches_are_admitted, no_journal_no_break, one_session, the_mark_breaks};
