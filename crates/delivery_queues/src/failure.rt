//! Why duties end without a delivery.

/// How the last attempt failed, or why there was none.
#[derive(Clone, Copy, Debug, PartialEq, Eq)]
pub enum Cause {
    /// The target answered with this code.
    Answered(u16),
    /// The target gave no answer.
    Unanswered,
    /// The event was too old before the first attempt.
    NotAttempted,
    /// The text is longer than a target accepts.
    TextTooLong,
    /// The target is a queue that does not exist.
    QueueMissing,
}

/// A limit of a target's retries.
#[derive(Clone, Copy, Debug, PartialEq, Eq)]
pub enum RetryLimit {
    MaximumAttempts,
    MaximumAge,
}

/// Why a duty ended without a delivery.
#[derive(Clone, Copy, Debug, PartialEq, Eq)]
pub struct Failure {
    pub cause: Cause,
    /// The limit that ended the duty, if one did.
    pub exhausted: Option<RetryLimit>,
    /// The number of attempts made, less one; 0 if none was made.
    pub retries: u32,
}
