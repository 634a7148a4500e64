//! The history of turns. Only contracts see it, and it takes no memory.
ghost use Rattle.std.specs.Prelude.{◌≡◌, ◌++◌, ◌∷◌, []};
ghost use Rattle.router_history.specs.Book.{turn_of, turns_in, recorded_in};

use crate::held::Held;
use crate::opened_disk::OpenedDisk;
use delivery_duties::{Fate, Outcome};
use http_server::Log;
use router_disk::Pieces;
use router_requests::{Batch, Request};
use std::snapshot::Snapshot;

/// What a turn was made for.
#[derive(Drop)]
pub enum Ask {
    /// To open a book with the first tables, on which the batches with these payloads were found, and with this disk, if there is a journal.
    Opens {
        found: Log<Pieces, ()>,
        disk: Option<OpenedDisk>,
    },
    Asked(Snapshot<Request>),
    Claims(Snapshot<Held>),
    Records {
        held: Snapshot<Held>,
        outcome: Outcome,
        fate: Fate,
    },
    PutsBack {
        held: Snapshot<Held>,
        why: Why,
    },
    /// To make the next step of the replays, at this reading of the clock.
    Repeats {
        reading: u64,
    },
    /// To break the book: appending these batches failed.
    Breaks {
        unacknowledged: Log<Batch, ()>,
    },
}

/// Why a claim is put back.
#[derive(Clone, Copy, Debug, PartialEq, Eq)]
pub enum Why {
    /// The link was out of memory before it sent anything.
    Unsent,
    /// The number limit is reached.
    Limited,
    /// The book is broken, and records nothing.
    Unkept,
}

/// What a turn wrote.
#[derive(Drop)]
pub enum Written {
    Nothing,
    Changes(Snapshot<Batch>),
}

/// One turn.
#[derive(Drop)]
pub struct Turn {
    /// The number of the pass that made it. None opens a book.
    pub pass: Option<u64>,
    /// The number of the connection that it served, if it served one.
    pub connection: Option<u64>,
    pub ask: Ask,
    /// The configuration version by which it went.
    pub k: u64,
    pub written: Written,
}

/// All turns, oldest first.
#[derive(Drop)]
pub struct History {
    pub log: Log<Turn, ()>,
}

impl History {
    ghost use Rattle.std.specs.Prelude.{◌≡◌, ◌++◌, ◌∷◌, []};
    ghost use Rattle.router_history.specs.Book.{turn_of, turns_in, recorded_in};

    pub fn new() -> History
        ensures turns { turns_in result ≡ [] }
        ensures recorded { recorded_in result ≡ [] }
    {
        History { log: Log::new() }
    }

    pub fn push(&mut self, turn: &Turn)
        ensures turns { turns_in self.new ≡ turns_in self.old ++ turn_of turn.now ∷ [] }
        ensures recorded { recorded_in self.new ≡ recorded_in self.old ++ turn.now ∷ [] }
    {
        self.log = self.log.and(turn, &());
    }
}
