//! Queues and messages that were deleted, until they are dropped.
ghost use Rattle.std.specs.Prelude.{◌≡◌, length};

use crate::queue::Queue;
use crate::stored::StoredMessage;
use std::collections::LinkedList;
use std::marker::Model;

/// A deleted queue with its messages. Dropping it frees them, so drop it where nobody waits.
#[derive(Drop)]
pub struct RemovedQueue {
    queue: Queue,
}

impl Model for RemovedQueue {
    ghost use Rattle.delivery_queues.specs.Queues.{Queue as View};

    ghost Value = { View };

    ghost view = { λ r. r.queue };
}

impl RemovedQueue {
    pub fn new(queue: Queue) -> RemovedQueue
        ensures { result ≡ queue }
    {
        RemovedQueue { queue }
    }
}

/// Deleted messages of a queue. Dropping them frees them, so drop them where nobody waits.
#[derive(Drop)]
pub struct DeletedMessages {
    messages: LinkedList<StoredMessage>,
}

impl Model for DeletedMessages {
    ghost use Rattle.std.specs.Prelude.{List};
    ghost use Rattle.delivery_queues.specs.declared.stored.StoredMessage.{StoredMessage};

    ghost Value = { List StoredMessage };

    ghost view = { λ d. d.messages };
}

impl DeletedMessages {
    pub fn new(messages: LinkedList<StoredMessage>) -> DeletedMessages
        ensures { result ≡ messages }
    {
        DeletedMessages { messages }
    }

    /// The number of messages.
    pub fn count(&self) -> u64
        ensures { result ≡ length self.now }
    {
        self.messages.len() as u64
    }
}
