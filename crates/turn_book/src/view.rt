//! The rule of the hall's table, and what each step on it returns.
use crate::story::Story;
use atomic_table::{Join, Play, Split, TableRule};
use std::collections::LinkedList;
use std::marker::PhantomData;
use std::snapshot::Snapshot;

/// What a pass knows. No value of it is made.
pub struct View<T> {
    pub number: u64,
    /// 0: the pass has no turn. 1: it waits with its ticket. 2: it holds the turn of its ticket.
    pub stage: u64,
    pub ticket: u64,
    /// 0, or for the pass of `make` the number of passes made.
    pub made: u64,
    /// The number of passes that this seat represents: 1 for a pass.
    pub passes: u64,
    /// The history as far as the pass has seen it.
    pub seen: LinkedList<T>,
    /// What another pass had seen, until the next load.
    pub also: LinkedList<T>,
    /// The passes that this seat represents beside its own, last one first: each one's number, and what it had seen.
    pub joined: LinkedList<(u64, LinkedList<T>)>,
}

/// The rule of a hall.
pub struct Turns<V> {
    story: PhantomData<V>,
}

impl<V: Story> TableRule<Option<V>, View<V::Turn>, Snapshot<V>> for Turns<V> {
    ghost use Rattle.turn_book.specs.Rule.{Holds, opener};

    ghost holds = { λ _. Holds V.turns V.made_by V.sound };

    ghost first = { λ key. opener (V.turns key.value) };
}

/// A pass draws a ticket.
pub(crate) struct Ask;

impl<V: Story> Play<Option<V>, View<V::Turn>> for Ask {
    ghost use Rattle.turn_book.specs.Rule.{asked};

    ghost then = { asked };
}

/// A pass that waits reads whose turn it is.
pub(crate) struct Come;

impl<V: Story> Play<Option<V>, View<V::Turn>> for Come {
    ghost use Rattle.turn_book.specs.Rule.{came};

    ghost then = { came V.turns V.made_by V.sound };
}

/// A turn ends.
pub(crate) struct Give;

impl<V: Story> Play<Option<V>, View<V::Turn>> for Give {
    ghost use Rattle.turn_book.specs.Rule.{gave};

    ghost then = { gave V.turns };
}

/// A pass sees the history as it is.
pub(crate) struct Look;

impl<V: Story> Play<Option<V>, View<V::Turn>> for Look {
    ghost use Rattle.turn_book.specs.Rule.{looked};

    ghost then = { looked V.made_by };
}

/// A new pass.
pub(crate) struct Another;

impl<T> Split<View<T>> for Another {
    ghost use Rattle.turn_book.specs.Rule.{making, newcomer};

    ghost left = { making };

    ghost right = { λ v. newcomer v.made v.seen };
}

/// What a pass has seen, for another pass.
pub(crate) struct Note;

impl<T> Split<View<T>> for Note {
    ghost use Rattle.turn_book.specs.Rule.{note};

    ghost left = { λ v. v };

    ghost right = { λ v. note v.seen };
}

/// A pass takes in what another had seen.
pub(crate) struct Learn;

impl<T> Join<View<T>> for Learn {
    ghost use Rattle.std.specs.Prelude.{[]};
    ghost use Rattle.turn_book.specs.Rule.{note, learning};

    ghost both = { learning };

    ghost spent = { note [] };
}

/// A pass represents another one too.
pub(crate) struct Gather;

impl<T> Join<View<T>> for Gather {
    ghost use Rattle.std.specs.Prelude.{[]};
    ghost use Rattle.turn_book.specs.Rule.{note, gathering};

    ghost both = { gathering };

    ghost spent = { note [] };
}
