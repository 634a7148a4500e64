//! Queues.
ghost use Rattle.std.specs.Prelude.{◌≡◌, ◌+◌, ◌^◌, ◌<◌, ◌≤◌, [], ◌∷◌, ◌↔◌, IsTrue, IfOk, length, map, take};
ghost use Rattle.delivery_queues.specs.declared.stored.StoredMessage.{StoredMessage};
ghost use Rattle.delivery_queues.specs.DeadLetter.{shown};
ghost use Rattle.delivery_queues.specs.Queues as spec;

use crate::message::{QueueMessage, first_shown};
use crate::stored::StoredMessage;
use json_text::{NoMemory, Text};
use key_tree::{cut, join};
use std::alloc::Global;
use std::collections::LinkedList;
use std::marker::Model;
use std::mem;

/// A queue with its messages, oldest first.
#[derive(Debug, Drop)]
pub struct Queue {
    name: Text,
    sent: u64,
    messages: LinkedList<StoredMessage>,
}

impl Model for Queue {
    ghost use Rattle.delivery_queues.specs.Queues.{Queue as View};
    ghost use Rattle.delivery_queues.specs.Sound.{IsNumbered};

    ghost Value = { View };

    ghost view = { λ m. record { name = m.name; sent = m.sent; messages = m.messages } };

    ghost invariant = { λ m. IsNumbered (record { name = m.name; sent = m.sent; messages = m.messages }) };
}

impl Queue {
    /// A queue with no message.
    pub(crate) fn new(alloc: Global, name: Text) -> Queue
        ensures { result ≡ spec.empty_queue name }
    {
        Queue {
            name,
            sent: 0,
            messages: LinkedList::new(alloc),
        }
    }

    pub(crate) fn name(&self) -> &str
        ensures { result.now ≡ self.now.name }
    {
        self.name.as_str()
    }

    /// Appends the message, which is a list of one, and numbers it.
    pub(crate) fn take_in(&mut self, mut letter: LinkedList<StoredMessage>)
        requires one { length letter ≡ 1 }
        requires room { self.old.sent + 1 < 2 ^ 63 }
        ensures { (m : StoredMessage) → letter ≡ m ∷ [] → self.new ≡ spec.with_next m.body m.dead self.old }
    {
        self.sent += 1;
        number(&mut letter, self.sent);
        join(&mut self.messages, letter);
    }

    /// Copies of the oldest messages, at most `limit`.
    pub fn peek(&self, alloc: Global, limit: usize) -> Result<Vec<QueueMessage>, NoMemory>
        ensures { IfOk result (λ ms. ms.items ≡ map shown (take limit self.now.messages)) }
    {
        first_shown(alloc, &self.messages, limit)
    }

    pub fn is_empty(&self) -> bool
        ensures { IsTrue result ↔ (self.now.messages ≡ []) }
    {
        self.messages.is_empty()
    }

    /// The number of messages.
    pub(crate) fn count(&self) -> u64
        ensures count { result ≡ length self.now.messages }
        ensures few { result ≤ self.now.sent }
    {
        self.messages.len() as u64
    }

    /// The number of messages with numbers up to this one. Visits these messages alone.
    pub fn count_through(&self, through: u64) -> u64
        ensures { result ≡ length (spec.messages_through through self.now.messages) }
    {
        self.messages
            .iter()
            .take_while(|message| message.number <= through)
            .count() as u64
    }

    /// Deletes the messages with numbers up to this one, and returns them. Visits these messages alone, and frees nothing.
    pub(crate) fn delete_through(&mut self, through: u64) -> LinkedList<StoredMessage>
        ensures left { self.new ≡ spec.without_through through self.old }
        ensures deleted { result ≡ spec.messages_through through self.old.messages }
    {
        let count = self.count_through(through) as usize;
        let left = cut(&mut self.messages, count);
        mem::replace(&mut self.messages, left)
    }
}

/// Gives the message, which is a list of one, its number.
fn number(letter: &mut LinkedList<StoredMessage>, number: u64)
    requires { length letter.old ≡ 1 }
    ensures { (m : StoredMessage) → letter.old ≡ m ∷ [] → letter.new ≡ record m { number = number } ∷ [] }
{
    match letter.front_mut() {
        Some(message) => message.number = number,
        None => unreachable!(),
    }
}
