//! The duties and queues of a router.
ghost use Rattle.std.specs.Prelude.{◌≡◌, ◌≢◌, ◌↔◌, ◌==◌, not, ◌+◌, ◌^◌, ◌<◌, ◌≤◌, ℕ, true, false};
ghost use Rattle.std.specs.Prelude.{[], None, Some, IfOk, IfSome, IfNone, IsTrue, MatchOption, All, List, length, map, take};
ghost use Rattle.json_text.specs.Moment.{IsMoment};
ghost use Rattle.event_shape.specs.Names.{queue_arn};
ghost use Rattle.delivery_duties.specs.declared.duty.DutyRow.{DutyRow};
ghost use Rattle.delivery_queues.specs.DeadLetter.{shown};
ghost use Rattle.delivery_duties.specs.Retry.{after_attempt, dead_letter_queue, failed_fate, fate_of, waits};
ghost use Rattle.delivery_duties.specs.Fate.{AreNumbered};
ghost use Rattle.delivery_queues.specs.Places.{IsFirstAt};
ghost use Rattle.delivery_queues.specs.Queues.{IsArnOfOne, has_arn, has_queue, message_count, messages_of, messages_through};
ghost use Rattle.delivery_duties.specs.Duties as spec;

use crate::claim::Claim;
use crate::counts::Counts;
use crate::duty::DutyRow;
use crate::history::History;
use crate::new_duties::NewDuties;
use crate::outcome::{Fate, Outcome, SettledDuty};
use crate::owed::Owed;
use crate::retry::judge;
use crate::schedule::Schedule;
use crate::verdict::Verdict;
use delivery_queues::{
    Cause, DeletedMessages, Failure, NewQueue, QueueMessage, Queues, RemovedQueue,
};
use json_text::NoMemory;
use key_tree::Node;
use shared_text::SharedRow;
use std::alloc::Global;
use std::marker::Model;

/// How a duty fails whose text is too long.
const TOO_LONG: Failure = Failure {
    cause: Cause::TextTooLong,
    exhausted: None,
    retries: 0,
};

/// The pending duties, the counts of those that ended, and the queues with their messages.
#[derive(Drop)]
pub struct Duties {
    pending: Schedule,
    ended: History,
    queues: Queues,
    created: u64,
}

impl Model for Duties {
    ghost use Rattle.delivery_duties.specs.Duties.{Duties as View};
    ghost use Rattle.delivery_duties.specs.Sound.{IsSound};

    ghost Value = { View };

    ghost view = { λ d. record { pending = d.pending; ended = d.ended; queues = d.queues; created = d.created } };

    ghost invariant = { λ d. IsSound (record { pending = d.pending; ended = d.ended; queues = d.queues; created = d.created }) };
}

impl Duties {
    /// No duties and no queues, with places for `MOST_QUEUES` queues.
    pub fn new(alloc: Global) -> Result<Duties, NoMemory>
        ensures { IfOk result (λ d. d ≡ spec.no_duties) }
    {
        let queues = Queues::new(alloc)?;
        Ok(Duties {
            pending: Schedule::new(),
            ended: History::new(),
            queues,
            created: 0,
        })
    }

    /// Creates the queue, with no message. A queue that has the name already stays as it is. Takes no memory.
    pub fn create_queue(&mut self, queue: NewQueue)
        requires { length self.old.queues < 1000 }
        ensures { self.new ≡ spec.with_new_queue queue self.old }
    {
        self.queues.create(queue.into_queue());
    }

    /// Deletes the queue, and returns it with its messages; `None` only if there is no such queue. A queue that is created later with this
    /// name numbers its messages from 1. Takes no memory.
    pub fn forget(&mut self, queue: &str) -> Option<RemovedQueue>
        ensures forgotten { self.new ≡ spec.forgotten queue.now self.old }
        ensures removed { MatchOption result
            (has_queue queue.now self.old.queues ≡ false)
            (λ removed. removed.messages ≡ messages_of queue.now self.old.queues) }
        ensures still_out { (n : ℕ) → spec.IsOut n self.old → spec.IsOut n self.new }
    {
        match self.queues.remove(queue) {
            Some(queue) => Some(RemovedQueue::new(queue)),
            None => None,
        }
    }

    /// Whether a queue has this name.
    pub fn has_queue(&self, queue: &str) -> bool
        ensures value { result ≡ has_queue queue.now self.now.queues }
        ensures arn { IsTrue result ↔ IsArnOfOne (queue_arn queue.now) self.now.queues }
    {
        self.queues.find(queue).is_some()
    }

    /// Adds the duties in their order, due at the moment (seconds since 1970-01-01T00:00:00Z). A duty whose text is too long ends
    /// at once. Takes no memory, and logarithmic time for each duty.
    pub fn add(&mut self, duties: NewDuties, moment: u64)
        requires room { self.old.created + length duties < 2 ^ 63 }
        ensures added { self.new ≡ spec.added duties moment self.old }
        ensures created { self.new.created ≡ self.old.created + length duties }
        ensures queues { map (λ m. m.name) self.new.queues ≡ map (λ m. m.name) self.old.queues }
        ensures still_out { (n : ℕ) → spec.IsOut n self.old → spec.IsOut n self.new }
    {
        let mut rows = duties.into_rows();
        while let Some(node) = rows.pop_front() {
            self.add_one(node, moment);
        }
    }

    /// Adds the duty at the moment.
    fn add_one(&mut self, mut node: Node<Owed>, moment: u64)
        requires room { self.old.created + 1 < 2 ^ 63 }
        requires claimed { node.claimed ≡ true }
        ensures added { self.new ≡ spec.added_one node.duty moment self.old }
        ensures still_out { (n : ℕ) → spec.IsOut n self.old → spec.IsOut n self.new }
    {
        self.created += 1;
        node.value_mut().begin(self.created, moment);
        if node.value().row().duty.too_long {
            let fate = fail(&mut self.queues, node.into_value(), TOO_LONG);
            self.ended.push(&SettledDuty {
                number: self.created,
                fate,
            });
        } else {
            self.pending.insert(node);
        }
    }

    /// Claims the duty that is due first; none if no unclaimed duty is due. Takes no memory, and logarithmic time.
    pub fn claim_next(&mut self, moment: u64) -> Option<Claim>
        ensures out { IfSome result (λ c. spec.IsOut c.number self.new) }
        ensures not_out_before { IfSome result (λ c. ¬ (spec.IsOut c.number self.old)) }
        ensures still_out { (n : ℕ) → spec.IsOut n self.old → spec.IsOut n self.new }
        ensures some { IfSome result (λ c. spec.IsNext self.old moment c.number × (self.new ≡ spec.claimed c.number self.old)) }
        ensures none { IfNone result (spec.NoneDue self.old moment × (self.new ≡ self.old)) }
        ensures free { IfSome result (λ c. spec.IsFree c.number self.old) }
    {
        let number = self.pending.claim_first(moment)?;
        Some(Claim { number })
    }

    /// Claims the duty of this number. Takes no memory. Visits the unclaimed duties that come before it.
    pub fn claim_at(&mut self, number: u64) -> Claim
        requires { spec.IsFree number self.old }
        ensures number { result.number ≡ number }
        ensures out { spec.IsOut number self.new }
        ensures still_out { (n : ℕ) → spec.IsOut n self.old → spec.IsOut n self.new }
        ensures claimed { self.new ≡ spec.claimed number self.old }
    {
        self.pending.claim(number);
        Claim { number }
    }

    /// Ends the claim after an attempt at the moment: the duty is delivered, due again, dead-lettered or dropped. Takes no memory, and
    /// logarithmic time.
    pub fn settle(&mut self, claim: Claim, outcome: Outcome, moment: u64) -> Fate
        requires out { spec.IsOut claim.number self.old }
        requires moment { IsMoment moment }
        ensures fate { (row : DutyRow) → spec.pending_row claim.number self.old ≡ Some row
            → result ≡ fate_of (after_attempt (waits row) (spec.attempt_of row moment outcome self.old)) }
        ensures settled { self.new ≡ spec.settled claim.number moment outcome self.old }
        ensures created { self.new.created ≡ self.old.created }
        ensures queues { map (λ m. m.name) self.new.queues ≡ map (λ m. m.name) self.old.queues }
        ensures still_out { (n : ℕ) → n ≢ claim.number → spec.IsOut n self.old → spec.IsOut n self.new }
        ensures not_out { ¬ (spec.IsOut claim.number self.new) }
    {
        let Claim { number } = claim;
        let mut node = self.pending.take(number);
        match judge(node.value().row(), outcome, moment) {
            Verdict::Retry(due) => {
                node.value_mut().retry(due, outcome);
                self.pending.insert(node);
                Fate::Pending
            }
            Verdict::Deliver => {
                deliver(&mut self.queues, node.into_value());
                self.ended.push(&SettledDuty {
                    number,
                    fate: Fate::Delivered,
                });
                Fate::Delivered
            }
            Verdict::Fail(failure) => {
                let fate = fail(&mut self.queues, node.into_value(), failure);
                self.ended.push(&SettledDuty { number, fate });
                fate
            }
        }
    }

    /// Releases the claim: the duty can be claimed again. Takes no memory, and logarithmic time.
    pub fn unclaim(&mut self, claim: Claim)
        requires { spec.IsOut claim.number self.old }
        ensures unclaimed { self.new ≡ spec.unclaimed claim.number self.old }
        ensures still_out { (n : ℕ) → n ≢ claim.number → spec.IsOut n self.old → spec.IsOut n self.new }
    {
        let Claim { number } = claim;
        let node = self.pending.take(number);
        self.pending.insert(node);
    }

    /// The number of duties made so far, and the number in each state.
    pub fn counts(&self) -> Counts
        ensures created { result.created ≡ self.now.created }
        ensures pending { result.pending ≡ length self.now.pending }
        ensures delivered { result.delivered ≡ spec.delivered_of self.now.ended }
        ensures dead_lettered { result.dead_lettered ≡ spec.dead_lettered_of self.now.ended }
        ensures dropped { result.dropped ≡ spec.dropped_of self.now.ended }
        ensures sum { result.created ≡ result.pending + result.delivered + result.dead_lettered + result.dropped }
        ensures each { (n : ℕ) → 1 ≤ n → n ≤ self.now.created → spec.HasOneFate n self.now }
        ensures ordered { spec.IsOrdered self.now }
        ensures numbered { AreNumbered self.now }
    {
        let (delivered, dead_lettered, dropped) = self.ended.counts();
        Counts {
            created: self.created,
            pending: self.created - (delivered + dead_lettered + dropped),
            delivered,
            dead_lettered,
            dropped,
        }
    }

    /// The pending duty of this number; none if no pending duty has it. Takes logarithmic time if the duty is claimed; otherwise visits
    /// the unclaimed duties that come before it.
    pub fn pending(&self, number: u64) -> Option<&DutyRow>
        ensures found { MatchOption result
            (spec.pending_row number self.now ≡ None)
            (λ row. spec.pending_row number self.now ≡ Some row.now) }
        ensures named { IfSome result (λ row. row.now.number ≡ number) }
    {
        self.pending.get(number)
    }

    /// Whether a pending duty or a message names the queue. Visits all pending duties.
    pub fn names(&self, queue: &str) -> bool
        ensures { result ≡ spec.names_queue queue.now self.now }
    {
        self.pending.names(queue) || self.has_messages(queue)
    }

    /// Whether the queue has a message.
    fn has_messages(&self, queue: &str) -> bool
        ensures { result ≡ not (length (messages_of queue.now self.now.queues) == 0) }
    {
        match self.queues.find(queue) {
            Some(found) => !found.is_empty(),
            None => false,
        }
    }

    /// The number of messages of all queues. Visits each queue once.
    pub fn messages(&self) -> u64
        requires { (length self.now.queues ≤ 1000) × (self.now.created < 2 ^ 53) }
        ensures { result ≡ message_count self.now.queues }
    {
        self.queues.count()
    }

    /// Copies of the oldest messages of the queue, at most `limit`; none if there is no such queue.
    pub fn peek(
        &self,
        alloc: Global,
        queue: &str,
        limit: u32,
    ) -> Result<Vec<QueueMessage>, NoMemory>
        ensures { IfOk result (λ ms. ms.items ≡ map shown (take limit (messages_of queue.now self.now.queues))) }
    {
        match self.queues.find(queue) {
            Some(found) => found.peek(alloc, limit as usize),
            None => Ok(Vec::new(alloc)),
        }
    }

    /// The number of messages of the queue with numbers up to this one; 0 if there is no such queue. Visits these messages alone.
    pub fn count_through(&self, queue: &str, through: u64) -> u64
        ensures { result ≡ length (messages_through through (messages_of queue.now self.now.queues)) }
    {
        match self.queues.find(queue) {
            Some(found) => found.count_through(through),
            None => 0,
        }
    }

    /// Deletes the messages of the queue with numbers up to this one, and returns them; `None` only if there is no such queue. Later messages
    /// go on with the numbers. Takes no memory.
    pub fn delete_through(&mut self, queue: &str, through: u64) -> Option<DeletedMessages>
        ensures deleted { self.new ≡ spec.with_deleted queue.now through self.old }
        ensures messages { MatchOption result
            (has_queue queue.now self.old.queues ≡ false)
            (λ messages. messages ≡ messages_through through (messages_of queue.now self.old.queues)) }
        ensures queues { map (λ m. m.name) self.new.queues ≡ map (λ m. m.name) self.old.queues }
        ensures still_out { (n : ℕ) → spec.IsOut n self.old → spec.IsOut n self.new }
    {
        match self.queues.delete_through(queue, through) {
            Some(messages) => Some(DeletedMessages::new(messages)),
            None => None,
        }
    }
}

/// The duty's text becomes the next message of its queue, if its target is one of the queues.
fn deliver(queues: &mut Queues, owed: Owed)
    requires room { All (λ m. m.sent + 1 < 2 ^ 63) queues.old }
    ensures { queues.new ≡ spec.delivered owed queues.old }
{
    let place = queues.place_of_arn(owed.row().duty.target.endpoint());
    queues.send(place, owed.into_letter(None));
}

/// The duty ends without a delivery: its text becomes the next message of its dead-letter queue, if there is one.
fn fail(queues: &mut Queues, owed: Owed, failure: Failure) -> Fate
    requires room { All (λ m. m.sent + 1 < 2 ^ 63) queues.old }
    ensures fate { result ≡ failed_fate (dead_letter_queue owed.duty.target (spec.has_dead_letter_queue owed.duty.target queues.old)) }
    ensures queues { queues.new ≡ spec.dead_lettered (dead_letter_queue owed.duty.target (spec.has_dead_letter_queue owed.duty.target queues.old))
        failure owed queues.old }
{
    match dead_letter_place(queues, &owed.row().duty.target) {
        Some(at) => {
            queues.send(Some(at), owed.into_letter(Some(failure)));
            Fate::DeadLettered
        }
        None => Fate::Dropped,
    }
}

/// The index of the target's dead-letter queue, if it names one that exists.
fn dead_letter_place(queues: &Queues, target: &SharedRow) -> Option<usize>
    ensures { MatchOption result
        (spec.has_dead_letter_queue target.now queues.now ≡ false)
        (λ at. (arn : List ℕ) × (target.now.dead_letter ≡ Some arn) × IsFirstAt (has_arn arn) queues.now at) }
{
    match target.dead_letter() {
        Some(arn) => queues.place_of_arn(arn),
        None => None,
    }
}
