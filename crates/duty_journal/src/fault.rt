//! Why a journal is not appended to, opened or read.
use thiserror::Error;

/// The disk failed. Its count of faults shows it, unless the journal was broken before.
#[derive(Clone, Copy, Debug, PartialEq, Eq, Error)]
#[error("the disk failed")]
pub struct DiskFault;

/// Why a batch is not applied again.
#[derive(Clone, Copy, Debug, PartialEq, Eq, Error)]
pub enum ReplayFault {
    #[error("the tables do not admit the batch")]
    NotAdmitted,
    #[error("out of memory")]
    NoMemory,
}

/// Why a journal is not opened or read.
#[derive(Clone, Copy, Debug, PartialEq, Eq, Error)]
pub enum JournalFault {
    /// The file has more than nine bytes, and another header.
    #[error("not a journal")]
    NotOurs,
    /// An open gate comes, and no record of an admitted batch with a gate after it: the record's place, from 1, and the byte of its gate.
    #[error("journal damaged at record {place}, byte {byte}")]
    Damaged { place: u64, byte: u64 },
    /// A call of the disk failed. Its count of faults shows it.
    #[error("the disk failed")]
    Failed,
    #[error("out of memory")]
    NoMemory,
}
