//! Tickets with numbers from 1, each given for one thing. Each comes back once.
ghost use Rattle.std.specs.Prelude.{◌≡◌, ◌+◌, ◌-◌, ◌^◌, ◌<◌, [], ◌∷◌, ◌++◌, length, All, IfOk};
ghost use Rattle.std.specs.List.{AllPairs};
ghost use Rattle.shared_door.specs.Tickets.{IsPlace, IsNew, HasOtherNumber, keeper, ticket};

use crate::known::{Cut, End, Known, Number, Numbers, Put};
use atomic_table::{Seat, Table};
use std::alloc::Global;
use std::snapshot::Snapshot;
use turn_book::NoMemory;

/// Gives tickets and takes them back. A contract reads what it gave tickets for as `seat.me.0.given`, in order, and the
/// tickets that came back as `seat.me.0.back`.
pub struct Tickets<C> {
    table: Table<Snapshot<C>, Known<C>, (), Numbers<C>, Global>,
    seat: Seat<Snapshot<C>, Known<C>>,
    given: u64,
    pub ghost shape: { (table.shared.table_id.words ≡ 1) × (seat.table_id ≡ table.shared.table_id) },
    pub ghost keeps: { seat.me ≡ (keeper seat.me.0.given seat.me.0.back, []) },
    pub ghost count: { length seat.me.0.given ≡ given },
    pub ghost places: { All (IsPlace seat.me.0.given) seat.me.0.back },
    pub ghost apart: { AllPairs HasOtherNumber seat.me.0.back },
}

/// The right to the number that one thing got. It is not `Drop`: give it back.
pub struct Ticket<C> {
    seat: Seat<Snapshot<C>, Known<C>>,
    number: u64,
    came: Snapshot<C>,
    pub ghost is_ticket: { (seat.me ≡ (ticket number (came.value ∷ []), [])) × (0 < number) },
}

impl<C> Ticket<C> {
    /// Its number, from 1.
    pub fn number(&self) -> u64
        ensures { result ≡ self.now.number }
    {
        self.number
    }
}

impl<C> Tickets<C> {
    /// No ticket is given yet.
    pub fn make(alloc: Global) -> Result<Tickets<C>, NoMemory>
        ensures { IfOk result (λ t. (t.given ≡ 0) × (t.seat.me.0.given ≡ []) × (t.seat.me.0.back ≡ [])) }
    {
        match Table::of_words(alloc, &[0], &()) {
            Ok((table, seat)) => {
                let tickets = Tickets {
                    table,
                    seat,
                    given: 0,
                };
                Ok(tickets)
            }
            Err(_) => Err(NoMemory),
        }
    }

    /// The number of tickets given so far.
    pub fn given(&self) -> u64
        ensures { result ≡ self.now.given }
    {
        self.given
    }

    /// A ticket with the next number.
    pub fn give(&mut self, about: &C) -> Ticket<C>
        requires room { self.old.given < 2 ^ 64 - 1 }
        ensures same { self.new.seat.table_id ≡ self.old.seat.table_id }
        ensures count { self.new.given ≡ self.old.given + 1 }
        ensures given { self.new.seat.me.0.given ≡ self.old.seat.me.0.given ++ about.now ∷ [] }
        ensures back { self.new.seat.me.0.back ≡ self.old.seat.me.0.back }
        ensures ticket { (result.seat.table_id ≡ self.old.seat.table_id) × (result.number ≡ self.new.given) × (result.came.value ≡ about.now) }
    {
        let came = Snapshot::of(about);
        let table = &self.table;
        table
            .shared
            .compare_exchange_with::<Number>(&mut self.seat, 0, 0, 0, &came);
        let seat = table.shared.split_seat::<Cut>(&mut self.seat);
        self.given += 1;
        Ticket {
            seat,
            number: self.given,
            came,
        }
    }

    /// Takes a ticket back. Returns its number, and for contracts alone what it was given for.
    pub fn take(&mut self, ticket: Ticket<C>) -> (u64, Snapshot<C>)
        requires here { ticket.seat.table_id ≡ self.old.seat.table_id }
        ensures same { (self.new.seat.table_id ≡ self.old.seat.table_id) × (self.new.given ≡ self.old.given) }
        ensures given { self.new.seat.me.0.given ≡ self.old.seat.me.0.given }
        ensures back { self.new.seat.me.0.back ≡ self.old.seat.me.0.back ++ (ticket.number, ticket.came.value) ∷ [] }
        ensures ticket { (result.0 ≡ ticket.number) × (result.1.value ≡ ticket.came.value) }
        ensures once { IsPlace self.old.seat.me.0.given (ticket.number, ticket.came.value) × IsNew self.old.seat.me.0.back ticket.number }
    {
        let Ticket { seat, number, came } = ticket;
        let table = &self.table;
        table.shared.join_seat::<Put>(&mut self.seat, seat);
        table.shared.load::<End>(&mut self.seat, 0);
        (number, came)
    }
}

impl<C> Drop for Tickets<C> {
    fn drop(self) {
        let Tickets {
            table: _,
            seat: _,
            given: _,
        } = self;
    }
}
