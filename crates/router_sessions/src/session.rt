//! Sessions.
ghost use Rattle.std.specs.Prelude.{◌≡◌, ◌≢◌, ◌||◌, Some, IsSome, List, ℕ};
ghost use Rattle.router_disk.specs.Faults.{Rose};
ghost use Rattle.turn_book.specs.Passes.{IsFree, IsSamePass};
ghost use Rattle.router_history.specs.Book.{Rests, IsBook};
ghost use Rattle.router_sessions.specs.Desk.{turns_seen, number_of, seat_of, SeesMore};
ghost use Rattle.router_history.specs.Acts.{world};
ghost use Rattle.router_history.specs.Session.{IsSession};
ghost use Rattle.router_sessions.specs.Conversing.{HasEnded};

use crate::desk::Desk;
use crate::exchange::answer_message;
use api_wire::{Message, WireIn};
use bus_host::Gate;
use message_streams::{Gated, Incoming, SessionEnd, finish, next_message};
use router_disk::{Clock, Disk, Failed, Link, Sink, Source};
use router_history::Book;
use std::alloc::Global;
use std::sync::Wait;
use turn_book::{Hall, Pass};

/// The number of requests that one session serves.
const REQUEST_LIMIT: u64 = 1_048_576;

/// The number of bytes that one read takes at most.
const PIECE: usize = 16_384;

/// Serves the requests of `input` in order, until it ends or a message, a fault or a limit ends the session. Its turns are made through the pass
/// and name the connection. The pass holds no turn before and after. It begins by a look at the history, without a turn.
pub fn serve_session<Rt: Wait, D: Disk, S: Source, K: Sink, L: Link, C: Clock, G: Gate>(
    rt: &Rt,
    alloc: Global,
    hall: &Hall<Book<D>>,
    pass: &mut Pass<Book<D>>,
    link: &mut L,
    input: &mut S,
    output: &mut K,
    clock: &mut C,
    connection: u64,
    gate: &G,
) -> SessionEnd
    requires here { pass.old.seat.table_id ≡ hall.now.table.shared.table_id }
    requires free { IsFree pass.old.seat }
    requires rests { Rests (number_of pass.old.seat) (turns_seen pass.old.seat) }
    ensures pass { IsSamePass pass.old.seat pass.new.seat × IsFree pass.new.seat }
    ensures book { IsBook (turns_seen pass.new.seat) }
    ensures more { SeesMore pass.old.seat pass.new.seat }
    ensures rests { Rests (number_of pass.old.seat) (turns_seen pass.new.seat) }
    ensures session { IsSession (seat_of (Some connection) pass.old.seat)
        (world (turns_seen pass.old.seat) (S.gave input.old) (K.wrote output.old) (C.gave clock.old) (L.exchanges link.old) (L.faults link.old))
        (world (turns_seen pass.new.seat) (S.gave input.new) (K.wrote output.new) (C.gave clock.new) (L.exchanges link.new) (L.faults link.new)) result }
    ensures read_fault { result ≡ SessionEnd.ReadFault → Rose (S.faults input.old) (S.faults input.new) }
    ensures input_faultless { result ≢ SessionEnd.ReadFault → S.faults input.new ≡ S.faults input.old }
    ensures write_fault { result ≡ SessionEnd.WriteFault → Rose (K.faults output.old) (K.faults output.new) }
    ensures output_faultless { result ≢ SessionEnd.WriteFault → K.faults output.new ≡ K.faults output.old }
{
    let desk = Desk {
        rt,
        alloc,
        hall,
        connection: Some(connection),
    };
    desk.look(pass);
    converse(desk, pass, link, input, output, clock, connection, gate)
}

/// Serves the requests of `input`, once the pass knows a history that is legal.
fn converse<Rt: Wait, D: Disk, S: Source, K: Sink, L: Link, C: Clock, G: Gate>(
    desk: Desk<'_, Rt, D>,
    pass: &mut Pass<Book<D>>,
    link: &mut L,
    input: &mut S,
    output: &mut K,
    clock: &mut C,
    connection: u64,
    gate: &G,
) -> SessionEnd
    requires here { pass.old.seat.table_id ≡ desk.hall.now.table.shared.table_id }
    requires named { IsSome desk.connection }
    requires free { IsFree pass.old.seat }
    requires book { IsBook (turns_seen pass.old.seat) }
    requires rests { Rests (number_of pass.old.seat) (turns_seen pass.old.seat) }
    ensures pass { IsSamePass pass.old.seat pass.new.seat × IsFree pass.new.seat }
    ensures book { IsBook (turns_seen pass.new.seat) }
    ensures more { SeesMore pass.old.seat pass.new.seat }
    ensures rests { Rests (number_of pass.old.seat) (turns_seen pass.new.seat) }
    ensures ended { HasEnded (seat_of desk.entry.connection pass.old.seat)
        (world (turns_seen pass.old.seat) (S.gave input.old) (K.wrote output.old) (C.gave clock.old) (L.exchanges link.old) (L.faults link.old))
        (world (turns_seen pass.new.seat) (S.gave input.new) (K.wrote output.new) (C.gave clock.new) (L.exchanges link.new) (L.faults link.new)) result }
    ensures read_fault { result ≡ SessionEnd.ReadFault → Rose (S.faults input.old) (S.faults input.new) }
    ensures input_faultless { result ≢ SessionEnd.ReadFault → S.faults input.new ≡ S.faults input.old }
    ensures write_fault { result ≡ SessionEnd.WriteFault → Rose (K.faults output.old) (K.faults output.new) }
    ensures output_faultless { result ≢ SessionEnd.WriteFault → K.faults output.new ≡ K.faults output.old }
{
    let mut wire = WireIn::new(desk.alloc);
    let mut piece = [0u8; PIECE];
    let mut served: u64 = 0;
    loop {
        let gated = Gated {
            rt: desk.rt,
            gate,
            connection,
            call: served + 1,
        };
        let message = match next_message(&mut wire, input, &mut piece) {
            Incoming::Message(message) => message,
            Incoming::Lack(lack) => return finish(lack, gated, output),
        };
        served += 1;
        let last = served == REQUEST_LIMIT;
        let close = closes_after(&message, last);
        match answer_message(desk, pass, &message, close, gated, output, link, clock) {
            Ok(()) => {}
            Err(Failed) => return SessionEnd::WriteFault,
        }
        if last {
            return SessionEnd::Long;
        }
        if message.close {
            return SessionEnd::Closed;
        }
    }
}

/// Whether the session ends after the reply to the message.
fn closes_after(message: &Message, last: bool) -> bool
    ensures { result ≡ (message.now.close || last) }
{
    message.close || last
}
