//! Messages as queues store them.

use crate::failure::Failure;
use shared_text::{SharedRow, SharedText};

/// A message of a queue, as it is stored.
#[derive(Debug, Drop)]
pub struct StoredMessage {
    /// The place among all messages of the queue so far, from 1.
    pub number: u64,
    pub body: SharedText,
    /// What is known of a dead letter; none for a delivered text.
    pub dead: Option<DeadLetter>,
}

/// The target of a duty that ended without a delivery, and why it did.
#[derive(Debug, Drop)]
pub struct DeadLetter {
    pub target: SharedRow,
    pub failure: Failure,
}
