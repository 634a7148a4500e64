//! A file of records on a disk: lists of payloads, each appended as a whole, and found again after a crash at any moment.
#![tactic(auto)]

mod find;
mod halves;
mod kind;
mod laws;
mod record_file;
mod scan;
mod text;
mod window;

pub use kind::{FIRST_GATE, FileKind, file_kind, settle};
pub use laws::one_reading;
pub use record_file::RecordFile;
pub use scan::{Next, Scan};
pub use text::{NoMemory, Text};
