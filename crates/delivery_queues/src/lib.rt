//! Queues with their messages: the texts that were delivered to them, and dead letters with their attributes.
#![tactic(auto)]

mod failure;
mod message;
mod new_queue;
mod queue;
mod queues;
mod removed;
mod stored;

pub use failure::{Cause, Failure, RetryLimit};
pub use message::{DeadLetterAttributes, QueueMessage};
pub use new_queue::NewQueue;
pub use queue::Queue;
pub use queues::{MOST_QUEUES, Queues};
pub use removed::{DeletedMessages, RemovedQueue};
pub use stored::{DeadLetter, StoredMessage};
