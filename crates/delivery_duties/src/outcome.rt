//! How attempts and duties end.

/// How an attempt ended.
#[derive(Clone, Copy, Debug, PartialEq, Eq)]
pub enum Outcome {
    /// The target accepted the text.
    Accepted,
    /// The target answered with this code, and did not accept the text.
    Code(u16),
    /// The target gave no answer.
    NoAnswer,
    /// The target is a queue that does not exist.
    NoQueue,
    /// The event was too old, so no attempt was made.
    TooOld,
}

/// The state of a duty.
#[derive(Clone, Copy, Debug, PartialEq, Eq)]
pub enum Fate {
    Pending,
    Delivered,
    /// It ended without a delivery, and is a message of its dead-letter queue.
    DeadLettered,
    /// It ended without a delivery, and had no dead-letter queue.
    Dropped,
}

/// The number and fate of a duty that ended.
#[derive(Clone, Copy, Debug, PartialEq, Eq)]
pub struct SettledDuty {
    /// The place among all duties made so far, from 1.
    pub number: u64,
    pub fate: Fate,
}
