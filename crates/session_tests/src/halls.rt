//! Halls, and sessions in them, for the tests.
ghost use Rattle.std.specs.Prelude.{◌≡◌, [], ℕ};
ghost use Rattle.turn_book.specs.Rule.{turns_by};
ghost use Rattle.turn_book.specs.Passes.{view, IsFree, IsSamePass};
ghost use Rattle.router_history.specs.Book.{recorded_in};
ghost use Rattle.router_history.specs.Home.{IsSoundBook};
ghost use Rattle.router_history.specs.Visit.{OwesNothing};
ghost use Rattle.router_sessions.specs.Desk.{number_of, seen_by};

use bus_host::NoGate;
use router_disk::{Clock, Disk, LinkFault, MemClock, MemLink, MemSink, MemSource, Sink, Source};
use router_history::Book;
use router_sessions::{SessionEnd, serve_session};
use std::alloc::Global;
use std::process::Abort;
use std::sync::Wait;
use test_exchanges::{NOW, messages};
use turn_book::{Hall, Pass};

/// A hall for so many passes, with this book and the first pass.
pub(crate) fn hall_of<R: Abort, D: Disk + Drop>(
    rt: &R,
    alloc: Global,
    book: Book<D>,
    seats: u32,
) -> (Hall<Book<D>>, Pass<Book<D>>)
    requires book { IsSoundBook D.calls D.faults book }
    requires unmade { (n : ℕ) → turns_by (λ t. t.pass) n (recorded_in book.machine.history) ≡ [] }
    ensures here { result.1.seat.table_id ≡ result.0.table.shared.table_id }
    ensures free { IsFree result.1.seat }
    ensures seats { result.0.seats ≡ seats }
    ensures first { (view result.1.seat).made ≡ 1 }
    ensures owes { OwesNothing (number_of result.1.seat) (seen_by result.1.seat) }
{
    match Hall::make(alloc, book, seats) {
        Ok(made) => made,
        Err((_, book)) => {
            let _disk = book.into_disk();
            panic!(rt; "a hall")
        }
    }
}

/// A session of this pass. Its link gives no answer.
pub(crate) fn session<Rt: Wait, D: Disk, S: Source, K: Sink, C: Clock>(
    rt: &Rt,
    alloc: Global,
    hall: &Hall<Book<D>>,
    pass: &mut Pass<Book<D>>,
    connection: u64,
    input: &mut S,
    output: &mut K,
    clock: &mut C,
) -> SessionEnd
    requires here { pass.old.seat.table_id ≡ hall.now.table.shared.table_id }
    requires free { IsFree pass.old.seat }
    requires owes { OwesNothing (number_of pass.old.seat) (seen_by pass.old.seat) }
    ensures pass { IsSamePass pass.old.seat pass.new.seat × IsFree pass.new.seat }
    ensures owes { OwesNothing (number_of pass.new.seat) (seen_by pass.new.seat) }
{
    let mut link = MemLink::always(alloc, Err(LinkFault::Failed));
    serve_session(
        rt, alloc, hall, pass, &mut link, input, output, clock, connection, &NoGate,
    )
}

/// Sends the messages of exchanges in a session of this pass.
pub(crate) fn send<R: Wait + Abort, D: Disk>(
    rt: &R,
    alloc: Global,
    hall: &Hall<Book<D>>,
    pass: &mut Pass<Book<D>>,
    connection: u64,
    names: &str,
    output: &mut MemSink,
)
    requires here { pass.old.seat.table_id ≡ hall.now.table.shared.table_id }
    requires free { IsFree pass.old.seat }
    requires owes { OwesNothing (number_of pass.old.seat) (seen_by pass.old.seat) }
    ensures pass { IsSamePass pass.old.seat pass.new.seat × IsFree pass.new.seat }
    ensures owes { OwesNothing (number_of pass.new.seat) (seen_by pass.new.seat) }
{
    let messages = messages(alloc, names).expect(rt, "messages");
    let mut input = MemSource::new(messages.into_bytes());
    let mut clock = MemClock::always(alloc, NOW);
    session(
        rt, alloc, hall, pass, connection, &mut input, output, &mut clock,
    );
}
