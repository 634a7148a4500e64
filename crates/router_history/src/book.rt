//! The router's guarded state: a machine with the history of its turns, and where the batches of these turns are appended.
ghost use Rattle.std.specs.Prelude.{◌≡◌};
ghost use Rattle.std.specs.Coded.{Coded-set};

use crate::history::{History, Turn};
use board_publish::Board;
use duty_journal::Home;
use json_text::Bytes;
use router_core::{Released, Reply, Tables};
use router_disk::Disk;
use turn_book::Story;

/// The router's tables, the board by which events are matched, and the history of all turns.
#[derive(Drop)]
pub struct Machine {
    pub tables: Tables,
    /// Events are matched by it.
    pub board: Board,
    pub history: History,
    ghost same_set: { board ≡ tables.set } by { Coded-set board-code board tables.set },
}

/// The router's guarded state. It is not `Drop`: `into_disk` ends it.
pub struct Book<D> {
    pub machine: Machine,
    /// Where the batches of the turns are appended.
    pub home: Home<D>,
}

/// Whose turns they are.
#[derive(Clone, Copy, Debug, PartialEq, Eq)]
pub struct Seat {
    /// The number of the pass.
    pub pass: u64,
    /// The number of the connection that is served, if one is.
    pub connection: Option<u64>,
}

/// The reply of a turn.
#[derive(Drop)]
pub enum TurnReply {
    /// Its bytes. The turn changed the tables, and the bytes were made before it.
    Rendered(Bytes),
    /// The reply. The turn changed nothing, and the bytes are made after it.
    Unrendered(Reply),
}

/// A turn that was made for a request.
#[derive(Drop)]
pub struct MadeTurn {
    pub reply: TurnReply,
    /// What applying its batch left over; none if it has no batch. Drop it once the book is given back.
    pub released: Option<Released>,
    /// The board before it; none if the rule set stays. Drop it with `released`.
    pub board: Option<Board>,
}

impl MadeTurn {
    /// The reply. What the turn released is dropped.
    pub fn into_reply(self) -> TurnReply
        ensures { result ≡ self.reply }
    {
        let MadeTurn {
            reply,
            released: _released,
            board: _board,
        } = self;
        reply
    }
}

impl<D: Disk> Story for Book<D> {
    ghost use Rattle.router_history.specs.Book.{recorded_in};
    ghost use Rattle.router_history.specs.Home.{IsSoundBook};

    type Turn = Turn;

    ghost turns = { λ b. recorded_in b.machine.history };

    ghost made_by = { λ t. t.pass };

    ghost sound = { λ b. IsSoundBook D.calls D.faults b };
}
