//! Pending duties: the unclaimed ones in the order in which they are due, and the claimed ones by number.
ghost use Rattle.std.specs.Prelude.{◌≡◌, ◌+◌, ◌<◌, ◌^◌, ◌↔◌, ℕ, true, false, [], None, Some, IfSome, IfNone, IsTrue, MatchOption};
ghost use Rattle.delivery_duties.specs.declared.duty.DutyRow.{DutyRow};
ghost use Rattle.std.specs.List.{list_any};
ghost use Rattle.std.specs.Option.{option_map};
ghost use Rattle.key_tree.specs.Entries.{placed, value_at, without};
ghost use Rattle.delivery_duties.specs.Order as spec;
ghost use Rattle.event_shape.specs.Names.{queue_arn};
ghost use Rattle.delivery_duties.specs.Duties.{is_for_queue, is_given_as};

use crate::duty::DutyRow;
use crate::owed::Owed;
use event_shape::is_queue_arn;
use key_tree::{KeyTree, Node};
use std::marker::Model;

/// The pending duties: the unclaimed ones by due moment and number, and the claimed ones by number. No call allocates.
#[derive(Drop)]
pub(crate) struct Schedule {
    line: KeyTree<Owed>,
    out: KeyTree<Owed>,
}

impl Model for Schedule {
    ghost use Rattle.std.specs.Prelude.{ℕ, List};
    ghost use Rattle.delivery_duties.specs.declared.duty.DutyRow.{DutyRow};
    ghost use Rattle.delivery_duties.specs.Order.{by_number, IsSchedule};

    ghost Value = { List (ℕ × DutyRow) };

    ghost view = { λ s. by_number s.line s.out };

    ghost invariant = { λ s. IsSchedule s.line s.out };
}

impl Schedule {
    pub(crate) fn new() -> Schedule
        ensures { result ≡ [] }
    {
        Schedule {
            line: KeyTree::new(),
            out: KeyTree::new(),
        }
    }

    /// The duty of this number. If it is not claimed, visits the unclaimed duties that come before it.
    pub(crate) fn get(&self, number: u64) -> Option<&DutyRow>
        ensures found { MatchOption result (value_at number self.now ≡ None) (λ row. value_at number self.now ≡ Some row.now) }
        ensures named { IfSome result (λ row. row.now.number ≡ number) }
    {
        match self.out.get(u128::from(number)) {
            Some(owed) => Some(owed.row()),
            None => self.get_free(number),
        }
    }

    /// The unclaimed duty of this number.
    fn get_free(&self, number: u64) -> Option<&DutyRow>
        ensures { MatchOption result
            (spec.NoneFreeIn number self.now)
            (λ row. (value_at number self.now ≡ Some row.now) × (row.now.claimed ≡ false)) }
    {
        let due = self.due_of(number)?;
        match self.line.get(due_key(due, number)) {
            Some(owed) => Some(owed.row()),
            None => unreachable!(),
        }
    }

    /// When the unclaimed duty of this number is due. Visits the unclaimed duties that come before it.
    fn due_of(&self, number: u64) -> Option<u64>
        ensures { MatchOption result (spec.NoneFreeIn number self.now) (λ due. spec.IsFreeAt due number self.now) }
    {
        let mut from = 0;
        while let Some((key, owed)) = self.line.first_from(from) {
            if owed.number() == number {
                return Some(owed.due());
            }
            from = key + 1;
        }
        None
    }

    /// Adds a claimed duty, and releases the claim.
    pub(crate) fn insert(&mut self, mut node: Node<Owed>)
        requires new_number { value_at node.number self.old ≡ None }
        requires small { node.number + 1 < 2 ^ 64 }
        ensures { self.new ≡ placed (node.number, record node { claimed = false }) self.old }
    {
        let number = node.value().number();
        let due = node.value().due();
        node.value_mut().mark(false);
        self.line.insert(due_key(due, number), node);
    }

    /// Claims the duty that is due first, if it is due at the moment. Returns its number.
    pub(crate) fn claim_first(&mut self, moment: u64) -> Option<u64>
        ensures some { IfSome result (λ number. spec.IsFirst self.old moment number × spec.ClaimsIn number self.old self.new) }
        ensures none { IfNone result (spec.NoneFirst self.old moment × (self.new ≡ self.old)) }
    {
        let (due, number) = self.first()?;
        if moment < due {
            return None;
        }
        self.claim_due(due, number);
        Some(number)
    }

    /// The due moment and the number of the unclaimed duty that is due first.
    fn first(&self) -> Option<(u64, u64)>
        ensures { MatchOption result
            (spec.NoneFree self.now)
            (λ found. (e : spec.IsEarliest self.now found.1) × (e.row.due ≡ found.0)) }
    {
        match self.line.first() {
            Some((_, owed)) => Some((owed.due(), owed.number())),
            None => None,
        }
    }

    /// Claims the duty of this number.
    pub(crate) fn claim(&mut self, number: u64)
        requires { spec.IsFreeIn number self.old }
        ensures { spec.ClaimsIn number self.old self.new }
    {
        match self.due_of(number) {
            Some(due) => self.claim_due(due, number),
            None => unreachable!(),
        }
    }

    /// Claims the duty of this due moment and number.
    fn claim_due(&mut self, due: u64, number: u64)
        requires { spec.IsFreeAt due number self.old }
        ensures { spec.ClaimsIn number self.old self.new }
    {
        match self.line.remove(due_key(due, number)) {
            Some(mut node) => {
                node.value_mut().mark(true);
                self.out.insert(u128::from(number), node);
            }
            None => unreachable!(),
        }
    }

    /// Removes the claimed duty of this number.
    pub(crate) fn take(&mut self, number: u64) -> Node<Owed>
        requires { spec.IsOutIn number self.old }
        ensures row { value_at number self.old ≡ Some result }
        ensures claimed { result.claimed ≡ true }
        ensures named { result.number ≡ number }
        ensures small { result.number + 1 < 2 ^ 64 }
        ensures left { self.new ≡ without number self.old }
    {
        match self.out.remove(u128::from(number)) {
            Some(node) => node,
            None => unreachable!(),
        }
    }

    /// Whether a duty is for this queue, or its dead letter would be. Visits all duties.
    pub(crate) fn names(&self, queue: &str) -> bool
        ensures { result ≡ list_any (λ p. is_for_queue queue.now p.1) self.now }
    {
        is_any_for_queue(&self.line, queue) || is_any_for_queue(&self.out, queue)
    }
}

/// A key in the order of due moments, then of numbers.
fn due_key(due: u64, number: u64) -> u128
    ensures { result ≡ spec.due_key due number }
{
    u128::from(due) * (1 << 64) + u128::from(number)
}

/// Whether one of the duties is for this queue, or its dead letter would be.
fn is_any_for_queue(rows: &KeyTree<Owed>, queue: &str) -> bool
    requires { spec.AreInReach rows.now }
    ensures { IsTrue result ↔ ((key : ℕ) × (row : DutyRow) × (value_at key rows.now ≡ Some row) × IsTrue (is_for_queue queue.now row)) }
{
    let mut from = 0;
    while let Some((key, owed)) = rows.first_from(from) {
        if is_for_queue(owed.row(), queue) {
            return true;
        }
        from = key + 1;
    }
    false
}

/// Whether the duty is for this queue, or its dead letter would be.
fn is_for_queue(row: &DutyRow, queue: &str) -> bool
    ensures { result ≡ is_for_queue queue.now row.now }
{
    is_queue_arn(row.duty.target.endpoint(), queue)
        || is_given_as(row.duty.target.dead_letter(), queue)
}

/// Whether the text is the ARN of this queue, if it is given.
fn is_given_as(arn: Option<&str>, queue: &str) -> bool
    ensures { result ≡ is_given_as (queue_arn queue.now) (option_map (λ a. a.now) arn.entry) }
{
    match arn {
        Some(arn) => is_queue_arn(arn, queue),
        None => false,
    }
}
