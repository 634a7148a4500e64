//! The rule of the table of tickets, and what each step on it returns.
use atomic_table::{Join, Play, Split, TableRule};
use std::collections::LinkedList;
use std::marker::PhantomData;
use std::snapshot::Snapshot;

/// What a seat knows. No value of it is made.
pub struct Known<C> {
    /// 1 for the seat that gives tickets and takes them back, else 0.
    pub keeps: u64,
    /// What it gave tickets for, in order.
    pub given: LinkedList<C>,
    /// The tickets that came back, in order.
    pub back: LinkedList<(u64, C)>,
    /// The number of the ticket that the seat is or has; 0 for none.
    pub number: u64,
    /// What that ticket was given for: one thing, or nothing.
    pub came: LinkedList<C>,
}

/// The rule.
pub struct Numbers<C> {
    of: PhantomData<C>,
}

impl<C> TableRule<Snapshot<C>, Known<C>, ()> for Numbers<C> {
    ghost use Rattle.std.specs.Prelude.{[]};
    ghost use Rattle.shared_door.specs.Tickets.{Holds, keeper};

    ghost holds = { λ _. Holds };

    ghost first = { λ _. keeper [] [] };
}

/// A thing gets the next number.
pub(crate) struct Number;

impl<C> Play<Snapshot<C>, Known<C>> for Number {
    ghost use Rattle.shared_door.specs.Tickets.{numbered};

    ghost then = { numbered (λ x. x.value) };
}

/// A ticket that came back ends.
pub(crate) struct End;

impl<C> Play<Snapshot<C>, Known<C>> for End {
    ghost use Rattle.shared_door.specs.Tickets.{ended};

    ghost then = { ended };
}

/// A ticket is a seat of its own.
pub(crate) struct Cut;

impl<C> Split<Known<C>> for Cut {
    ghost use Rattle.shared_door.specs.Tickets.{without_ticket, ticket_of};

    ghost left = { without_ticket };

    ghost right = { ticket_of };
}

/// A ticket comes back.
pub(crate) struct Put;

impl<C> Join<Known<C>> for Put {
    ghost use Rattle.std.specs.Prelude.{[]};
    ghost use Rattle.shared_door.specs.Tickets.{with_ticket, ticket};

    ghost both = { with_ticket };

    ghost spent = { ticket 0 [] };
}
