//! What a porch did, in order. Contracts alone read it.
ghost use Rattle.std.specs.Prelude.{◌≡◌};
ghost use Rattle.turn_book.specs.Passes.{view};

use crate::connection::Over;
use growing_list::{Listed, Shows};
use std::snapshot::Snapshot;
use turn_book::{Pass, Story};

/// Reads what a pass has seen.
pub struct SeenTurns;

impl<V: Story> Shows<Pass<V>, V::Turn> for SeenTurns {
    ghost use Rattle.turn_book.specs.Passes.{view};

    ghost items = { λ pass. (view pass.seat).seen };
}

/// What this pass has seen until now, for contracts alone.
pub fn turns_seen<V: Story>(pass: &Pass<V>) -> Listed<V::Turn>
    ensures { result.items ≡ (view pass.now.seat).seen }
{
    Listed::of::<Pass<V>, SeenTurns>(pass)
}

/// A connection that came: its place, from 1, among those that the porch gave, its streams as they came, and what the porch's pass
/// had seen then.
pub struct Arrival<I, O, T> {
    pub number: u64,
    pub came: Snapshot<(I, O)>,
    pub seen: Listed<T>,
}

/// A connection that ended: its number, how it came, the number of its session's pass and what that had seen when the session began,
/// its streams as they were at the end, whether out of memory ended it, and what the porch's pass had seen then.
pub struct Visit<I, O, T> {
    pub number: u64,
    pub pass: u64,
    pub arrival: Snapshot<Arrival<I, O, T>>,
    pub before: Listed<T>,
    pub went: Snapshot<(I, O)>,
    pub cut: bool,
    pub seen: Listed<T>,
}

/// What a porch did.
pub enum Act<I, O, T> {
    /// It gave a connection.
    Gave(Arrival<I, O, T>),
    /// A connection came back.
    Ended(Visit<I, O, T>),
    /// It gives no more connections, for this reason.
    Over(Over),
}

impl<I, O, T> Drop for Arrival<I, O, T> {
    fn drop(self) {
        let Arrival {
            number: _,
            came: _,
            seen: _,
        } = self;
    }
}

impl<I, O, T> Drop for Visit<I, O, T> {
    fn drop(self) {
        let Visit {
            number: _,
            pass: _,
            arrival: _,
            before: _,
            went: _,
            cut: _,
            seen: _,
        } = self;
    }
}

impl<I, O, T> Drop for Act<I, O, T> {
    fn drop(self) {
        match self {
            Act::Gave(_) => (),
            Act::Ended(_) => (),
            Act::Over(_) => (),
        }
    }
}
