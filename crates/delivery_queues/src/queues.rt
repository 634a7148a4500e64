//! All queues, in the byte order of their names.
ghost use Rattle.std.specs.Prelude.{◌≡◌, ◌+◌, ◌^◌, ◌<◌, ◌≤◌, [], ◌∷◌};
ghost use Rattle.std.specs.Prelude.{None, Some, false, IfOk, IfSome, Bool, All, MatchOption, MatchResult, length, slice_index_or, vec_capacity};
ghost use Rattle.std.specs.List.{sum_by};
ghost use Rattle.name_rows.specs.Rows.{AreSorted, named, placed, without};
ghost use Rattle.name_rows.specs.Place.{IsHere, IsBefore};
ghost use Rattle.delivery_queues.specs.declared.stored.StoredMessage.{StoredMessage};
ghost use Rattle.delivery_queues.specs.Queues as spec;
ghost use Rattle.delivery_queues.specs.Places.{IsPlaceOf};

use crate::queue::Queue;
use crate::stored::StoredMessage;
use event_shape::queue_name_in;
use json_text::NoMemory;
use std::alloc::Global;
use std::collections::LinkedList;
use std::marker::Model;

/// The greatest number of queues. Their places are reserved from the start.
pub const MOST_QUEUES: usize = 1_000;

/// Queues in the byte order of their names.
#[derive(Debug, Drop)]
pub struct Queues {
    rows: Vec<Queue>,
}

impl Model for Queues {
    ghost use Rattle.std.specs.Prelude.{◌≤◌, List, vec_capacity};
    ghost use Rattle.name_rows.specs.Rows.{AreSorted};
    ghost use Rattle.delivery_queues.specs.Queues.{Queue as View, name_of};

    ghost Value = { List View };

    ghost view = { λ q. q.rows.items };

    ghost invariant = { λ q. AreSorted name_of q.rows.items × (1000 ≤ vec_capacity q.rows) };
}

impl Queues {
    /// No queues, with places for `MOST_QUEUES`.
    pub fn new(alloc: Global) -> Result<Queues, NoMemory>
        ensures { IfOk result (λ q. q ≡ []) }
    {
        let rows = Vec::with_capacity(alloc, MOST_QUEUES)?;
        Ok(Queues { rows })
    }

    /// The queue with this name.
    pub fn find(&self, name: &str) -> Option<&Queue>
        ensures { MatchOption result
            (named spec.name_of name.now self.now ≡ None)
            (λ queue. named spec.name_of name.now self.now ≡ Some queue.now) }
    {
        match place_of(&self.rows, name) {
            Ok(at) => Some(queue_at(&self.rows, at)),
            Err(_) => None,
        }
    }

    /// Adds the queue, unless there is one with its name.
    pub fn create(&mut self, queue: Queue)
        requires { length self.old < 1000 }
        ensures { self.new ≡ placed spec.name_of spec.keeping queue self.old }
    {
        match place_of(&self.rows, queue.name()) {
            Ok(_) => (),
            Err(at) => match self.rows.insert(at, queue) {
                Ok(()) => (),
                Err(_) => unreachable!(),
            },
        }
    }

    /// Removes the queue of this name, and returns it with its messages; none if there is no such queue.
    pub fn remove(&mut self, name: &str) -> Option<Queue>
        ensures left { self.new ≡ without spec.name_of name.now self.old }
        ensures removed { MatchOption result
            (spec.has_queue name.now self.old ≡ false)
            (λ queue. queue.messages ≡ spec.messages_of name.now self.old) }
    {
        match place_of(&self.rows, name) {
            Ok(at) => Some(self.rows.remove(at)),
            Err(_) => None,
        }
    }

    /// The index of the queue with this ARN.
    pub fn place_of_arn(&self, arn: &str) -> Option<usize>
        ensures { IsPlaceOf (spec.has_arn arn.now) self.now result }
    {
        match queue_name_in(arn) {
            Some(name) => match place_of(&self.rows, name) {
                Ok(at) => Some(at),
                Err(_) => None,
            },
            None => None,
        }
    }

    /// The number of messages of all queues.
    pub fn count(&self) -> u64
        requires { sum_by (λ (m : spec.Queue). m.sent) self.now < 2 ^ 64 }
        ensures { result ≡ spec.message_count self.now }
    {
        let mut count = 0;
        for queue in &self.rows {
            count += queue.count();
        }
        count
    }

    /// Appends the message, which is a list of one, to the queue at this index. Without an index the message is dropped.
    pub fn send(&mut self, place: Option<usize>, letter: LinkedList<StoredMessage>)
        requires one { length letter ≡ 1 }
        requires bound { IfSome place (λ at. at < length self.old) }
        requires room { All (λ m. m.sent + 1 < 2 ^ 63) self.old }
        ensures { (test : spec.Queue → Bool) (m : StoredMessage) → IsPlaceOf test self.old place → letter ≡ m ∷ []
            → self.new ≡ spec.changed_first test (spec.with_next m.body m.dead) self.old }
    {
        match place {
            Some(at) => self.rows[at].take_in(letter),
            None => (),
        }
    }

    /// Deletes the queue's messages with numbers up to this one, and returns them; none if there is no such queue.
    pub fn delete_through(&mut self, name: &str, through: u64) -> Option<LinkedList<StoredMessage>>
        ensures left { self.new ≡ spec.deleted_through name.now through self.old }
        ensures deleted { MatchOption result
            (spec.has_queue name.now self.old ≡ false)
            (λ messages. messages ≡ spec.messages_through through (spec.messages_of name.now self.old)) }
    {
        match place_of(&self.rows, name) {
            Ok(at) => Some(self.rows[at].delete_through(through)),
            Err(_) => None,
        }
    }
}

fn queue_at(queues: &[Queue], at: usize) -> &Queue
    requires { at < length queues.now }
    ensures { result.now ≡ slice_index_or queues.now at result.now }
{
    &queues[at]
}

/// The index of the queue with this name, or the index at which it belongs.
fn place_of(queues: &[Queue], name: &str) -> Result<usize, usize>
    requires { AreSorted spec.name_of queues.now }
    ensures { MatchResult result
        (λ at. IsHere spec.name_of name.now queues.now at)
        (λ at. IsBefore spec.name_of name.now queues.now at) }
{
    match queues.binary_search_by(|queue| queue.name().cmp(name)) {
        Ok(at) => Ok(at),
        Err(at) => Err(at),
    }
}
