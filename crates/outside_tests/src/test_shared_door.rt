//! A porch that threads share, over a door in memory.
ghost use Rattle.std.specs.Prelude.{◌≡◌, ◌<◌, All, Some, [], length};
ghost use Rattle.turn_book.specs.Rule.{turns_by};
ghost use Rattle.turn_book.specs.Passes.{view, IsFree};
ghost use Rattle.shared_door.specs.Shown.{shown_by};
ghost use Rattle.shared_door.specs.Acts.{IsOver};

use crate::ledger::{Ledger, add, door, goes_on, make_hall, turns_of};
use bus_host::Door;
use growing_list::{Front, GrowingList};
use shared_door::{Act, Arrival, Knocked, Naming, Over, Parts, Porch, Tickets, turns_seen};
use std::alloc::Global;
use std::marker::Brand;
use std::process::Abort;
use std::sync::{Mutex, Wait};
use std::thread;
use std::thread::Threads;
use turn_book::{Hall, Pass};

/// A pass, and a letter for what each knock with it returned.
#[derive(Drop)]
struct Worker {
    pass: Pass<Ledger>,
    letters: [u8; 5],
}

// Knocks, and serves the connection that came, if any. Returns a letter for what the knock returned, or `s` after the fifth turn.
fn knock<R: Wait, D: Door, N: Naming<D::In, D::Out>>(
    rt: &R,
    hall: &Hall<Ledger>,
    porch: &Mutex<Porch<'_, Ledger, D, N>>,
    pass: &mut Pass<Ledger>,
) -> u8
    requires hall { hall.now.table.shared.table_id ≡ N.hall }
    requires pass { (pass.old.seat.table_id ≡ N.hall) × IsFree pass.old.seat }
    ensures pass { (pass.new.seat.table_id ≡ N.hall) × IsFree pass.new.seat }
{
    if !goes_on(rt, hall, pass) {
        let _front = porch.lock(rt).stop(pass);
        return b's';
    }
    let knocked = porch.lock(rt).knock(pass);
    match knocked {
        Knocked::Conn(connection) => {
            let before = turns_seen(pass);
            let ledger = hall.take(rt, pass);
            let (ledger, cut) = add(ledger, pass.number(), connection.number());
            hall.give(pass, ledger);
            let _front = porch.lock(rt).back(connection, before, cut, pass);
            b'C'
        }
        Knocked::Quiet => b'q',
        Knocked::Closed(_) => b'c',
        Knocked::Failed(_) => b'f',
        Knocked::Stopped(_) => b's',
        Knocked::NoMemory => b'm',
    }
}

// Knocks five times.
fn serve<R: Wait, D: Door, N: Naming<D::In, D::Out>>(
    rt: &R,
    hall: &Hall<Ledger>,
    porch: &Mutex<Porch<'_, Ledger, D, N>>,
    worker: &mut Worker,
)
    requires hall { hall.now.table.shared.table_id ≡ N.hall }
    requires pass { (worker.old.pass.seat.table_id ≡ N.hall) × IsFree worker.old.pass.seat }
    ensures pass { (worker.new.pass.seat.table_id ≡ N.hall) × IsFree worker.new.pass.seat }
{
    worker.letters = [
        knock(rt, hall, porch, &mut worker.pass),
        knock(rt, hall, porch, &mut worker.pass),
        knock(rt, hall, porch, &mut worker.pass),
        knock(rt, hall, porch, &mut worker.pass),
        knock(rt, hall, porch, &mut worker.pass),
    ];
}

// Each worker serves in a thread of its own.
fn serve_all<D: Door, R: Threads + Wait + Sync, N: Naming<D::In, D::Out> + Send>(
    rt: &R,
    hall: &Hall<Ledger>,
    porch: &Mutex<Porch<'_, Ledger, D, N>>,
    workers: &mut [Worker],
)
    requires hall { hall.now.table.shared.table_id ≡ N.hall }
    requires workers { All (λ w. (w.pass.seat.table_id ≡ N.hall) × IsFree w.pass.seat) workers.old }
    ensures workers { All (λ w. (w.pass.seat.table_id ≡ N.hall) × IsFree w.pass.seat) workers.new }
    ensures count { length workers.new ≡ length workers.old }
{
    thread::for_each_mut(
        rt,
        workers,
        2,
        &|_, worker: &mut Worker|
            requires { (hall.now.table.shared.table_id ≡ N.hall) × (worker.old.pass.seat.table_id ≡ N.hall) × IsFree worker.old.pass.seat }
            ensures { (worker.new.pass.seat.table_id ≡ N.hall) × IsFree worker.new.pass.seat }
        { serve(rt, hall, porch, worker) },
    );
}

// Knocks at a porch that is over, or stops it.
fn over<D: Door, R: Abort + Wait, N: Naming<D::In, D::Out>>(
    rt: &R,
    hall: &Hall<Ledger>,
    porch: &mut Porch<'_, Ledger, D, N>,
    pass: &mut Pass<Ledger>,
) -> Front<Act<D::In, D::Out, (u64, u64)>>
    requires hall { hall.now.table.shared.table_id ≡ N.hall }
    requires pass { (pass.old.seat.table_id ≡ N.hall) × IsFree pass.old.seat }
    ensures { (result.name ≡ N.acts) × IsOver result.items }
{
    if !goes_on(rt, hall, pass) {
        return porch.stop(pass);
    }
    match porch.knock(pass) {
        Knocked::Closed(front) => front,
        Knocked::Failed(front) => front,
        Knocked::Stopped(front) => front,
        Knocked::Conn(_connection) => panic!(rt; "a connection"),
        Knocked::Quiet => panic!(rt; "no connection"),
        Knocked::NoMemory => panic!(rt; "out of memory"),
    }
}

fn served_by<D: Door, R: Threads + Wait + Sync + Abort, N: Naming<D::In, D::Out> + Send>(
    rt: &R,
    hall: &Hall<Ledger>,
    own: Pass<Ledger>,
    tickets: Tickets<Arrival<D::In, D::Out, (u64, u64)>>,
    acts: GrowingList<Act<D::In, D::Out, (u64, u64)>>,
    door: D,
    most: Option<u64>,
    workers: &mut [Worker],
) -> Parts<Ledger, D>
    requires hall { hall.now.table.shared.table_id ≡ N.hall }
    requires own { (own.seat.table_id ≡ N.hall) × IsFree own.seat }
    requires unturned { ((view own.seat).number ≡ N.pass) × (turns_by (λ t. Some t.0) N.pass (view own.seat).seen ≡ []) }
    requires tickets { (tickets.seat.table_id ≡ N.tickets) × (tickets.given ≡ 0) × (tickets.seat.me.0.back ≡ []) }
    requires acts { (acts.name ≡ N.acts) × (acts.items ≡ []) }
    requires some { 0 < length workers.old }
    requires door { shown_by D.faults D.ahead D.given D.ended D.gave D.took_back D.closed door ≡ N.start }
    requires most { most ≡ N.most }
    requires workers { All (λ w. (w.pass.seat.table_id ≡ N.hall) × IsFree w.pass.seat) workers.old }
{
    let porch: Porch<'_, Ledger, D, N> = Porch::open(door, hall, own, tickets, acts, most);
    let porch = Mutex::new(porch);
    serve_all(rt, hall, &porch, workers);
    let mut porch = porch.into_inner();
    let front = over(rt, hall, &mut porch, &mut workers[0].pass);
    porch.into_parts(front)
}

fn served<D: Door, R: Threads + Wait + Sync + Abort>(
    rt: &R,
    hall: &Hall<Ledger>,
    own: Pass<Ledger>,
    tickets: Tickets<Arrival<D::In, D::Out, (u64, u64)>>,
    door: D,
    most: Option<u64>,
    workers: &mut [Worker],
) -> Parts<Ledger, D>
    requires own { (own.seat.table_id ≡ hall.now.table.shared.table_id) × IsFree own.seat }
    requires unturned { turns_by (λ t. Some t.0) (view own.seat).number (view own.seat).seen ≡ [] }
    requires tickets { (tickets.given ≡ 0) × (tickets.seat.me.0.back ≡ []) }
    requires some { 0 < length workers.old }
    requires workers { All (λ w. (w.pass.seat.table_id ≡ hall.now.table.shared.table_id) × IsFree w.pass.seat) workers.old }
{
    served_by::<D, R, Brand>(
        rt,
        hall,
        own,
        tickets,
        GrowingList::new(),
        door,
        most,
        workers,
    )
}

#[test]
fn two_threads_serve_four_connections(rt: HostRuntime) {
    let alloc = rt.alloc();
    let (hall, mut pass) = make_hall(&rt, alloc, 4);
    let own = hall.another(&mut pass);
    let mut workers = [
        Worker {
            pass: hall.another(&mut pass),
            letters: [0; 5],
        },
        Worker {
            pass: hall.another(&mut pass),
            letters: [0; 5],
        },
    ];
    let tickets = Tickets::make(alloc).expect(&rt, "tickets");
    let door = door(&rt, alloc, "CCqCC");
    let Parts {
        door,
        pass: _,
        standing,
        acts: _,
    } = served(&rt, &hall, own, tickets, door, None, &mut workers);
    assert_eq!(rt; standing.gave, 4);
    assert!(rt; standing.over == Some(Over::Closed));
    assert_eq!(rt; door.back.len(), 4);
    let ledger = hall.take(&rt, &mut pass);
    assert!(rt; turns_of(&ledger) == [0, 1, 1, 1, 1]);
}

// Whether five knocks at a door with these plans return these letters, and the door gets this many connections back.
fn returns<R: Threads + Wait + Sync + Abort>(
    rt: &R,
    alloc: Global,
    plans: &str,
    most: Option<u64>,
    letters: [u8; 5],
    back: usize,
) -> bool {
    let (hall, mut pass) = make_hall(rt, alloc, 2);
    let own = hall.another(&mut pass);
    let mut workers = [Worker {
        pass,
        letters: [0; 5],
    }];
    let tickets = Tickets::make(alloc).expect(rt, "tickets");
    let door = door(rt, alloc, plans);
    let Parts {
        door,
        pass: _,
        standing: _,
        acts: _,
    } = served(rt, &hall, own, tickets, door, most, &mut workers);
    workers[0].letters == letters && door.back.len() == back
}

#[test]
fn a_porch_returns_what_its_door_returns(rt: HostRuntime) {
    assert!(rt; returns(&rt, rt.alloc(), "qCmfC", None, *b"qCmff", 1));
}

#[test]
fn a_porch_is_stopped_by_the_history(rt: HostRuntime) {
    assert!(rt; returns(&rt, rt.alloc(), "CCCCCC", None, *b"CCCCC", 5));
}

#[test]
fn a_porch_gives_no_more_than_it_may(rt: HostRuntime) {
    assert!(rt; returns(&rt, rt.alloc(), "CCC", Some(2), *b"CCccc", 2));
}
