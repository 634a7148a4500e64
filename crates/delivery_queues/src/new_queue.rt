//! Queues that are to be created.
ghost use Rattle.std.specs.Prelude.{◌≡◌, IfOk};
ghost use Rattle.delivery_queues.specs.Queues.{empty_queue};

use crate::queue::Queue;
use json_text::{NoMemory, Text};
use std::alloc::Global;
use std::marker::Model;

/// A queue that is to be created, with no message and all the memory that adding it takes.
#[derive(Debug, Drop)]
pub struct NewQueue {
    queue: Queue,
}

impl Model for NewQueue {
    ghost use Rattle.std.specs.Prelude.{◌≡◌, ℕ, List};
    ghost use Rattle.delivery_queues.specs.Queues.{empty_queue};

    ghost Value = { List ℕ };

    ghost view = { λ m. m.queue.name };

    ghost invariant = { λ m. m.queue ≡ empty_queue m.queue.name };
}

impl NewQueue {
    /// A queue with this name.
    pub fn new(alloc: Global, name: &str) -> Result<NewQueue, NoMemory>
        ensures { IfOk result (λ m. m ≡ name.now) }
    {
        let name = Text::from_str(alloc, name)?;
        Ok(NewQueue {
            queue: Queue::new(alloc, name),
        })
    }

    pub fn into_queue(self) -> Queue
        ensures { result ≡ empty_queue self }
    {
        let NewQueue { queue } = self;
        queue
    }
}
