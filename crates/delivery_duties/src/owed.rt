//! Duties as they are stored: each with the memory for its message.
ghost use Rattle.std.specs.Prelude.{◌≡◌, ◌+◌, ◌^◌, ◌<◌, [], ◌∷◌, true, IfOk};
ghost use Rattle.delivery_duties.specs.Retry.{begun, retried};
ghost use Rattle.delivery_duties.specs.Duties.{dead_letter_of};
ghost use Rattle.delivery_duties.specs.declared.duty.DutyRow.{DutyRow};

use crate::duty::{DutyRow, NewDuty};
use crate::outcome::Outcome;
use delivery_queues::{DeadLetter, Failure, StoredMessage};
use json_text::NoMemory;
use shared_text::SharedRow;
use std::alloc::Global;
use std::collections::LinkedList;
use std::marker::Model;

/// A duty with the memory for its message, which is allocated with it, so that no step of a duty allocates.
#[derive(Drop)]
pub(crate) struct Owed {
    row: DutyRow,
    letter: LinkedList<StoredMessage>,
}

impl Model for Owed {
    ghost use Rattle.std.specs.Prelude.{◌≡◌, [], ◌∷◌, None};
    ghost use Rattle.delivery_duties.specs.declared.duty.DutyRow.{DutyRow};

    ghost Value = { DutyRow };

    ghost view = { λ o. o.row };

    ghost invariant = { λ o. o.letter ≡ record { number = 0; body = o.row.duty.text; dead = None } ∷ [] };
}

impl Owed {
    /// The duty, without a number and moments yet, and claimed.
    pub(crate) fn new(alloc: Global, duty: NewDuty) -> Result<Owed, NoMemory>
        ensures { IfOk result (λ row. (row.duty ≡ duty) × (row.claimed ≡ true)) }
    {
        let mut letter = LinkedList::new(alloc);
        letter.push_back(StoredMessage {
            number: 0,
            body: duty.text.share()?,
            dead: None,
        })?;
        Ok(Owed {
            row: DutyRow {
                number: 0,
                duty,
                accepted: 0,
                due: 0,
                attempts: 0,
                last: None,
                claimed: true,
            },
            letter,
        })
    }

    pub(crate) fn row(&self) -> &DutyRow
        ensures { result.now ≡ self.now }
    {
        &self.row
    }

    pub(crate) fn number(&self) -> u64
        ensures { result ≡ self.now.number }
    {
        self.row.number
    }

    pub(crate) fn due(&self) -> u64
        ensures { result ≡ self.now.due }
    {
        self.row.due
    }

    /// Gives the duty its number and makes it due at the moment. It stays claimed.
    pub(crate) fn begin(&mut self, number: u64, moment: u64)
        requires { self.old.claimed ≡ true }
        ensures { self.new ≡ record (begun number moment self.old.duty) { claimed = true } }
    {
        self.row.number = number;
        self.row.accepted = moment;
        self.row.due = moment;
        self.row.attempts = 0;
        self.row.last = None;
    }

    /// Makes the duty due again after a failed attempt. It stays claimed.
    pub(crate) fn retry(&mut self, due: u64, outcome: Outcome)
        requires room { self.old.attempts + 1 < 2 ^ 32 }
        ensures { self.new ≡ record (retried due outcome self.old) { claimed = self.old.claimed } }
    {
        self.row.due = due;
        self.row.attempts += 1;
        self.row.last = Some(outcome);
    }

    /// Claims the duty, or releases the claim.
    pub(crate) fn mark(&mut self, claimed: bool)
        ensures { self.new ≡ record self.old { claimed = claimed } }
    {
        self.row.claimed = claimed;
    }

    /// The duty's message, not yet numbered.
    pub(crate) fn into_letter(self, failure: Option<Failure>) -> LinkedList<StoredMessage>
        ensures { result ≡ record { number = 0; body = self.duty.text; dead = dead_letter_of self.duty.target failure } ∷ [] }
    {
        let Owed { row, mut letter } = self;
        let DutyRow { duty, .. } = row;
        let NewDuty { target, .. } = duty;
        match letter.front_mut() {
            Some(message) => {
                message.dead = dead_letter(target, failure);
            }
            None => unreachable!(),
        }
        letter
    }
}

fn dead_letter(target: SharedRow, failure: Option<Failure>) -> Option<DeadLetter>
    ensures { result ≡ dead_letter_of target failure }
{
    match failure {
        Some(failure) => Some(DeadLetter { target, failure }),
        None => None,
    }
}
