//! What the workers of a door do for the router.
ghost use Rattle.std.specs.Prelude.{◌≡◌, ℕ, List, MatchBool};
ghost use Rattle.turn_book.specs.Rule.{Learns};
ghost use Rattle.turn_book.specs.Passes.{view, IsFree, IsSamePass};
ghost use Rattle.router_disk.specs.Link.{Exchange};
ghost use Rattle.courier_run.specs.Link.{outside};
ghost use Rattle.router_history.specs.Book.{IsBook, Rests};
ghost use Rattle.router_sessions.specs.Desk.{turns_seen, number_of, seen_by};
ghost use Rattle.router_history.specs.Visit.{IsVisit, OwesNothing, HasBroken};
ghost use Rattle.session_workers.specs.Jobs.{maker, outside_of, session_by, ServesOne, GoesOn};

use crate::places::Placing;
use bus_host::Gate;
use courier_run::Stop;
use door_workers::{Seating, Work};
use router_disk::{Clock, Disk, Link, Sink, Source};
use router_history::{Book, was_cut};
use router_sessions::{look, serve_quiet, serve_session, step_quiet};
use std::alloc::Global;
use std::sync::Wait;
use turn_book::{Hall, Pass, Story};

/// The number of delivery steps that a worker makes before it knocks again, and that of steps of replays.
const STEPS: u32 = 1_000;

/// Serves a session by one closure, says by another whether a further one may be served, and does the other work by the third. In a method
/// of a trait the check does not cover a call of a function whose bounds are `Send`, as those of `converse` are; in a function that makes a
/// closure it does. The closures have the hall themselves.
#[derive(Drop)]
pub(crate) struct Clerk<S, G, M> {
    pub(crate) serve: S,
    pub(crate) goes_on: G,
    pub(crate) meanwhile: M,
}

impl<
    J: Disk,
    P: Seating<Turn = <Book<J> as Story>::Turn>,
    L: Link,
    C: Clock,
    I: Source,
    O: Sink,
    S: Fn(&mut (L, C), &mut P, u64, &mut I, &mut O) -> bool,
    G: Fn(&mut P) -> bool,
    M: Fn(&mut (L, C), &mut P),
> Work<Book<J>, P, I, O, (L, C)> for Clerk<S, G, M> {
    ghost use Rattle.session_workers.specs.Jobs.{outside_of, did_by, done_none, done_later};
    ghost use Rattle.session_workers.specs.Clerk.{IsClerk};

    ghost works = { λ c table. IsClerk P.seat table I.gave O.wrote I.faults O.faults (outside_of C.gave L.exchanges L.faults) S.Fn c.serve G.Fn c.goes_on M.Fn c.meanwhile };

    ghost did = { did_by I.gave O.wrote C.gave L.exchanges L.faults };

    fn serve(
        &self,
        own: &mut (L, C),
        pass: &mut P,
        number: u64,
        input: &mut I,
        output: &mut O,
    ) -> bool {
        (self.serve)(own, pass, number, input, output)
    }

    fn goes_on(&self, pass: &mut P) -> bool {
        (self.goes_on)(pass)
    }

    fn meanwhile(&self, own: &mut (L, C), pass: &mut P) {
        (self.meanwhile)(own, pass)
    }

    ghost unturned = { λ n lent. done_none I.gave O.wrote n (outside_of C.gave L.exchanges L.faults lent) };

    ghost lasts = { λ n lent now. done_later I.gave O.wrote n (outside_of C.gave L.exchanges L.faults lent) (outside_of C.gave L.exchanges L.faults now) };
}

/// Serves the session of the connection with this number, with a link and a clock. Returns whether out of memory ended it. It is no
/// part of its caller's frame, so that the stack of a worker without a connection has no room for a session's input.
#[inline(never)]
pub(crate) fn converse<J: Disk, I: Source, O: Sink, Rt: Wait + Sync, L: Link, C: Clock, G: Gate>(
    rt: &Rt,
    alloc: Global,
    gate: &G,
    own: &mut (L, C),
    hall: &Hall<Book<J>>,
    pass: &mut Pass<Book<J>>,
    number: u64,
    input: &mut I,
    output: &mut O,
) -> bool
    requires here { pass.old.seat.table_id ≡ hall.now.table.shared.table_id }
    requires free { IsFree pass.old.seat }
    requires rests { OwesNothing (number_of pass.old.seat) (seen_by pass.old.seat) }
    ensures pass { IsSamePass pass.old.seat pass.new.seat × IsFree pass.new.seat }
    ensures rests { OwesNothing (number_of pass.new.seat) (seen_by pass.new.seat) }
    ensures visit { IsVisit I.gave O.wrote I.faults O.faults number (input.old, output.old) (input.new, output.new) result (seen_by pass.old.seat) (seen_by pass.new.seat) }
    ensures serves { ServesOne I.gave O.wrote (number_of pass.old.seat) (session_by number (number_of pass.old.seat) (input.old, output.old) (input.new, output.new) result (seen_by pass.old.seat))
        (outside_of C.gave L.exchanges L.faults own.old) (outside_of C.gave L.exchanges L.faults own.new) (seen_by pass.old.seat) (seen_by pass.new.seat) }
{
    let end = serve_session(
        rt, alloc, hall, pass, &mut own.0, input, output, &mut own.1, number, gate,
    );
    was_cut(end)
}

/// Makes delivery steps for a while, and then steps of replays, if a place is free. The worker has no place during a send, which holds no
/// turn. `I` and `O` are the streams of the sessions that the worker served before.
pub(crate) fn work_in_a_place<J: Disk, I: Source, O: Sink, Rt: Wait + Sync, L: Placing, C: Clock>(
    rt: &Rt,
    alloc: Global,
    own: &mut (L, C),
    hall: &Hall<Book<J>>,
    pass: &mut Pass<Book<J>>,
)
    requires here { pass.old.seat.table_id ≡ hall.now.table.shared.table_id }
    requires free { IsFree pass.old.seat }
    requires rests { OwesNothing (number_of pass.old.seat) (seen_by pass.old.seat) }
    ensures pass { IsSamePass pass.old.seat pass.new.seat × IsFree pass.new.seat }
    ensures rests { OwesNothing (number_of pass.new.seat) (seen_by pass.new.seat) }
    ensures goes_on { GoesOn I.gave O.wrote (number_of pass.old.seat) (outside_of C.gave L.exchanges L.faults own.old) (outside_of C.gave L.exchanges L.faults own.new)
        (seen_by pass.old.seat) (seen_by pass.new.seat) }
{
    if own.0.enter() {
        look(rt, alloc, hall, pass);
        deliver_for_a_while::<J, I, O, Rt, L, C>(rt, alloc, &mut own.1, &mut own.0, hall, pass);
        step_for_a_while::<J, I, O, Rt, C>(rt, alloc, &mut own.1, hall, pass);
        own.0.leave();
    }
}

/// Makes delivery steps until none is made, a fault comes, `STEPS` were made, or the second in which it began is over. So it waits for
/// one endpoint at most that does not answer. Its turns name no connection.
fn deliver_for_a_while<J: Disk, I: Source, O: Sink, Rt: Wait + Sync, L: Link, C: Clock>(
    rt: &Rt,
    alloc: Global,
    clock: &mut C,
    link: &mut L,
    hall: &Hall<Book<J>>,
    pass: &mut Pass<Book<J>>,
)
    requires here { pass.old.seat.table_id ≡ hall.now.table.shared.table_id }
    requires free { IsFree pass.old.seat }
    requires book { IsBook (turns_seen pass.old.seat) }
    requires rests { Rests (number_of pass.old.seat) (turns_seen pass.old.seat) }
    ensures pass { IsSamePass pass.old.seat pass.new.seat × IsFree pass.new.seat }
    ensures book { IsBook (turns_seen pass.new.seat) }
    ensures rests { Rests (number_of pass.old.seat) (turns_seen pass.new.seat) }
    ensures goes_on { GoesOn I.gave O.wrote (number_of pass.old.seat) (outside (C.gave clock.old) (L.exchanges link.old) (L.faults link.old))
        (outside (C.gave clock.new) (L.exchanges link.new) (L.faults link.new)) (seen_by pass.old.seat) (seen_by pass.new.seat) }
{
    let begun = clock.now();
    for _ in 0..STEPS {
        if !deliver_once::<J, I, O, Rt, L, C>(rt, alloc, clock, begun, link, hall, pass) {
            return;
        }
    }
}

/// Makes at most one delivery step. Returns whether it made one and the clock still reads `begun`.
fn deliver_once<J: Disk, I: Source, O: Sink, Rt: Wait + Sync, L: Link, C: Clock>(
    rt: &Rt,
    alloc: Global,
    clock: &mut C,
    begun: u64,
    link: &mut L,
    hall: &Hall<Book<J>>,
    pass: &mut Pass<Book<J>>,
) -> bool
    requires here { pass.old.seat.table_id ≡ hall.now.table.shared.table_id }
    requires free { IsFree pass.old.seat }
    requires book { IsBook (turns_seen pass.old.seat) }
    requires rests { Rests (number_of pass.old.seat) (turns_seen pass.old.seat) }
    ensures pass { IsSamePass pass.old.seat pass.new.seat × IsFree pass.new.seat }
    ensures book { IsBook (turns_seen pass.new.seat) }
    ensures rests { Rests (number_of pass.old.seat) (turns_seen pass.new.seat) }
    ensures goes_on { GoesOn I.gave O.wrote (number_of pass.old.seat) (outside (C.gave clock.old) (L.exchanges link.old) (L.faults link.old))
        (outside (C.gave clock.new) (L.exchanges link.new) (L.faults link.new)) (seen_by pass.old.seat) (seen_by pass.new.seat) }
{
    let stepped = serve_quiet(rt, alloc, hall, pass, link, clock, 1);
    match stepped.stop {
        Stop::Spent | Stop::Idle => stepped.turned.attempts != 0 && clock.now() == begun,
        Stop::Full | Stop::Broken | Stop::NoMemory => false,
    }
}

/// Makes steps of replays until none is made, a fault comes, `STEPS` were made, or the second in which it began is over. Its turns name no
/// connection.
fn step_for_a_while<J: Disk, I: Source, O: Sink, Rt: Wait + Sync, C: Clock>(
    rt: &Rt,
    alloc: Global,
    clock: &mut C,
    hall: &Hall<Book<J>>,
    pass: &mut Pass<Book<J>>,
)
    requires here { pass.old.seat.table_id ≡ hall.now.table.shared.table_id }
    requires free { IsFree pass.old.seat }
    requires book { IsBook (turns_seen pass.old.seat) }
    requires rests { Rests (number_of pass.old.seat) (turns_seen pass.old.seat) }
    ensures pass { IsSamePass pass.old.seat pass.new.seat × IsFree pass.new.seat }
    ensures book { IsBook (turns_seen pass.new.seat) }
    ensures rests { Rests (number_of pass.old.seat) (turns_seen pass.new.seat) }
    ensures goes_on { (answered : List Exchange) (faults : ℕ) → GoesOn I.gave O.wrote (number_of pass.old.seat) (outside (C.gave clock.old) answered faults)
        (outside (C.gave clock.new) answered faults) (seen_by pass.old.seat) (seen_by pass.new.seat) }
{
    let begun = clock.now();
    for _ in 0..STEPS {
        if !step_once::<J, I, O, Rt, C>(rt, alloc, clock, begun, hall, pass) {
            return;
        }
    }
}

/// Makes at most one step of a replay. Returns whether it made one and the clock still reads `begun`.
fn step_once<J: Disk, I: Source, O: Sink, Rt: Wait + Sync, C: Clock>(
    rt: &Rt,
    alloc: Global,
    clock: &mut C,
    begun: u64,
    hall: &Hall<Book<J>>,
    pass: &mut Pass<Book<J>>,
) -> bool
    requires here { pass.old.seat.table_id ≡ hall.now.table.shared.table_id }
    requires free { IsFree pass.old.seat }
    requires book { IsBook (turns_seen pass.old.seat) }
    requires rests { Rests (number_of pass.old.seat) (turns_seen pass.old.seat) }
    ensures pass { IsSamePass pass.old.seat pass.new.seat × IsFree pass.new.seat }
    ensures book { IsBook (turns_seen pass.new.seat) }
    ensures rests { Rests (number_of pass.old.seat) (turns_seen pass.new.seat) }
    ensures goes_on { (answered : List Exchange) (faults : ℕ) → GoesOn I.gave O.wrote (number_of pass.old.seat) (outside (C.gave clock.old) answered faults)
        (outside (C.gave clock.new) answered faults) (seen_by pass.old.seat) (seen_by pass.new.seat) }
{
    match step_quiet(rt, alloc, hall, pass, clock, 1) {
        Ok(made) => made != 0 && clock.now() == begun,
        Err(_fault) => false,
    }
}

/// Whether the book is not broken, so that a further connection may be served. Makes no turn.
pub(crate) fn is_whole<J: Disk, Rt: Wait>(
    rt: &Rt,
    alloc: Global,
    hall: &Hall<Book<J>>,
    pass: &mut Pass<Book<J>>,
) -> bool
    requires here { pass.old.seat.table_id ≡ hall.now.table.shared.table_id }
    requires free { IsFree pass.old.seat }
    ensures pass { IsSamePass pass.old.seat pass.new.seat × IsFree pass.new.seat × Learns maker (view pass.old.seat) (seen_by pass.new.seat) }
    ensures stops { MatchBool result (¬ HasBroken (seen_by pass.new.seat)) (HasBroken (seen_by pass.new.seat)) }
{
    !look(rt, alloc, hall, pass)
}
