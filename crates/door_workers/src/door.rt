//! A door served by workers side by side.
ghost use Rattle.std.specs.Prelude.{◌≡◌, ◌≢◌, ◌+◌, ◌<◌, ◌≤◌, All, None, [], length, map, vec_len, vec_capacity};
ghost use Rattle.router_disk.specs.Faults.{Rose};
ghost use Rattle.turn_book.specs.Rule.{Learns, turns_by};
ghost use Rattle.turn_book.specs.Passes.{view, known_by};
ghost use Rattle.shared_door.specs.Shown.{shown_by};
ghost use Rattle.shared_door.specs.Acts.{IsOver};
ghost use Rattle.shared_door.specs.Visits.{Gave, Visited};
ghost use Rattle.door_workers.specs.Serving.{over_of, IsIdlePass, IsRestingPass, IsHired, HasServed, HasWorked, AreDone, hired_by};

use crate::counts::Counts;
use crate::site::{Site, attend};
use crate::staff::{Room, gather, hire, longest, room_for};
use crate::worker::{Work, Worker};
use bus_host::Door;
use growing_list::GrowingList;
use shared_door::{Act, Arrival, Naming, Over, Parts, Porch, Served, Tickets};
use std::alloc::Global;
use std::marker::Brand;
use std::sync::{Mutex, Wait};
use std::thread;
use std::thread::Threads;
use turn_book::{Hall, NoMemory, Pass, Story};

/// Why a door was served no longer.
#[derive(Clone, Copy, Debug, PartialEq, Eq)]
pub enum DoorEnd {
    /// The door gave no further connection, or it gave all that were asked for.
    Done,
    /// The door failed.
    DoorFault,
    /// The history says that no further connection is to be served.
    Stopped,
    /// Out of memory before any worker began. Nothing was served.
    NoMemory,
}

/// What is left of a door that was served.
#[derive(Drop)]
pub struct Serving<V: Story, D, Own> {
    pub door: D,
    /// What the workers had, in the order of the loan.
    pub owns: Vec<Own>,
    /// The passes that were made: the workers' in the same order, and then the door's. Close the hall with them.
    pub passes: Vec<Pass<V>>,
    pub end: DoorEnd,
}

/// Serves the connections of a door, with a worker for each of `owns`. Returns once the door gives no further connection, or gave
/// `connections`, or a worker found that the history says to stop, and all given have ended. The passes of the workers and of the door
/// are made by `pass`, which then has seen all that they saw.
pub fn serve_door<
    V: Served<D::In, D::Out> + Send,
    Rt: Wait + Threads + Sync,
    D: Door,
    Own: Send,
    W: Work<V, Pass<V>, D::In, D::Out, Own> + Sync,
>(
    rt: &Rt,
    alloc: Global,
    hall: &Hall<V>,
    pass: &mut Pass<V>,
    owns: Vec<Own>,
    door: D,
    connections: Option<u64>,
    work: &W,
) -> Serving<V, D, Own>
    requires works { W.works work.now hall.now.table.shared.table_id }
    requires here { IsIdlePass hall.now.table.shared.table_id pass.old.seat }
    requires maker { 0 < (view pass.old.seat).made }
    requires owns { (0 < vec_len owns) × (vec_len owns ≤ 1024) }
    requires seats { (view pass.old.seat).made + vec_len owns + 1 ≤ hall.now.seats }
    ensures pass { IsIdlePass hall.now.table.shared.table_id pass.new.seat × ((view pass.new.seat).number ≡ (view pass.old.seat).number) }
    ensures more { Learns V.made_by (view pass.old.seat) (view pass.new.seat).seen }
    ensures made { (view pass.new.seat).made ≡ (view pass.old.seat).made + vec_len result.passes }
    ensures passes { All (λ p. IsIdlePass hall.now.table.shared.table_id p.seat) result.passes.items }
    ensures rests { All (λ p. V.rests (view p.seat).number (view p.seat).seen) result.passes.items }
    ensures owns { vec_len result.owns ≡ vec_len owns }
    ensures served { result.end ≢ DoorEnd.NoMemory → (h : HasServed connections (shown_by D.faults D.ahead D.given D.ended D.gave D.took_back D.closed door)
        (shown_by D.faults D.ahead D.given D.ended D.gave D.took_back D.closed result.door) V.fits (view pass.new.seat).seen result.end)
        × AreDone W.did h.acts V.made_by (view pass.old.seat).made owns.items result.owns.items (map (λ p. known_by p.seat) result.passes.items) }
    ensures door_fault { result.end ≡ DoorEnd.DoorFault → Rose (D.faults door) (D.faults result.door) }
    ensures stopped { result.end ≡ DoorEnd.Stopped → V.stops (view pass.new.seat).seen }
    ensures no_memory { result.end ≡ DoorEnd.NoMemory → (result.door ≡ door) × (result.owns.items ≡ owns.items)
        × (result.passes.items ≡ []) × (pass.new ≡ pass.old) }
{
    match room_for::<V, Arrival<D::In, D::Out, V::Turn>, Own, Act<D::In, D::Out, V::Turn>>(
        alloc,
        owns.len(),
    ) {
        Ok(room) => serve_in(rt, hall, pass, owns, door, connections, work, room),
        Err(NoMemory) => Serving {
            door,
            owns,
            passes: Vec::new(alloc),
            end: DoorEnd::NoMemory,
        },
    }
}

/// Serves the connections of a door, once the memory is there.
fn serve_in<
    V: Served<D::In, D::Out> + Send,
    Rt: Wait + Threads + Sync,
    D: Door,
    Own: Send,
    W: Work<V, Pass<V>, D::In, D::Out, Own> + Sync,
>(
    rt: &Rt,
    hall: &Hall<V>,
    pass: &mut Pass<V>,
    owns: Vec<Own>,
    door: D,
    connections: Option<u64>,
    work: &W,
    room: Room<V, Arrival<D::In, D::Out, V::Turn>, Own, Act<D::In, D::Out, V::Turn>>,
) -> Serving<V, D, Own>
    requires works { W.works work.now hall.now.table.shared.table_id }
    requires here { IsIdlePass hall.now.table.shared.table_id pass.old.seat }
    requires maker { 0 < (view pass.old.seat).made }
    requires owns { 0 < vec_len owns }
    requires seats { (view pass.old.seat).made + vec_len owns + 1 ≤ hall.now.seats }
    requires tickets { (room.tickets.given ≡ 0) × (room.tickets.seat.me.0.back ≡ []) }
    requires workers { (room.workers.items ≡ []) × (vec_len owns ≤ vec_capacity room.workers) }
    requires passes { (room.passes.items ≡ []) × (vec_len owns + 1 ≤ vec_capacity room.passes) }
    ensures pass { IsIdlePass hall.now.table.shared.table_id pass.new.seat × ((view pass.new.seat).number ≡ (view pass.old.seat).number) }
    ensures more { Learns V.made_by (view pass.old.seat) (view pass.new.seat).seen }
    ensures made { (view pass.new.seat).made ≡ (view pass.old.seat).made + vec_len result.passes }
    ensures passes { All (λ p. IsIdlePass hall.now.table.shared.table_id p.seat) result.passes.items }
    ensures rests { All (λ p. V.rests (view p.seat).number (view p.seat).seen) result.passes.items }
    ensures owns { vec_len result.owns ≡ vec_len owns }
    ensures served { (h : HasServed connections (shown_by D.faults D.ahead D.given D.ended D.gave D.took_back D.closed door)
        (shown_by D.faults D.ahead D.given D.ended D.gave D.took_back D.closed result.door) V.fits (view pass.new.seat).seen result.end)
        × AreDone W.did h.acts V.made_by (view pass.old.seat).made owns.items result.owns.items (map (λ p. known_by p.seat) result.passes.items) }
    ensures door_fault { result.end ≡ DoorEnd.DoorFault → Rose (D.faults door) (D.faults result.door) }
    ensures stopped { result.end ≡ DoorEnd.Stopped → V.stops (view pass.new.seat).seen }
    ensures memory { result.end ≢ DoorEnd.NoMemory }
{
    let Room {
        tickets,
        workers,
        mut passes,
    } = room;
    let mut owns = owns;
    let acts = GrowingList::new();
    let last = hall.another(pass);
    let mut workers = hire::<V, D::In, D::Out, Own, Act<D::In, D::Out, V::Turn>>(
        hall, pass, &mut owns, workers, &acts,
    );
    let parts = open_by::<Brand, V, Rt, D, Own, W>(
        rt,
        hall,
        last,
        tickets,
        acts,
        door,
        connections,
        work,
        workers.as_mut_slice(),
    );
    let Parts {
        door,
        pass: last,
        standing,
        acts,
    } = parts;
    gather::<V, D::In, D::Out, Own, W>(hall, pass, workers, last, &acts, &mut owns, &mut passes);
    Serving {
        door,
        owns,
        passes,
        end: end_of(standing.over),
    }
}

/// Why the porch gives no more.
fn end_of(over: Option<Over>) -> DoorEnd
    requires { over ≢ None }
    ensures over { over ≡ over_of result }
    ensures served { result ≢ DoorEnd.NoMemory }
{
    match over {
        Some(Over::Closed) => DoorEnd::Done,
        Some(Over::Failed) => DoorEnd::DoorFault,
        Some(Over::Stopped) => DoorEnd::Stopped,
        None => unreachable!(),
    }
}

/// Opens the door, and lets the workers serve it.
fn open_by<
    N: Naming<D::In, D::Out> + Send,
    V: Served<D::In, D::Out> + Send,
    Rt: Wait + Threads + Sync,
    D: Door,
    Own: Send,
    W: Work<V, Pass<V>, D::In, D::Out, Own> + Sync,
>(
    rt: &Rt,
    hall: &Hall<V>,
    last: Pass<V>,
    tickets: Tickets<Arrival<D::In, D::Out, V::Turn>>,
    acts: GrowingList<Act<D::In, D::Out, V::Turn>>,
    door: D,
    connections: Option<u64>,
    work: &W,
    workers: &mut [Worker<V, Own, Act<D::In, D::Out, V::Turn>>],
) -> Parts<V, D>
    requires works { W.works work.now N.hall }
    requires hall { hall.now.table.shared.table_id ≡ N.hall }
    requires last { IsIdlePass N.hall last.seat }
    requires unturned { ((view last.seat).number ≡ N.pass) × (turns_by V.made_by N.pass (view last.seat).seen ≡ []) }
    requires tickets { (tickets.seat.table_id ≡ N.tickets) × (tickets.given ≡ 0) × (tickets.seat.me.0.back ≡ []) }
    requires acts { (acts.name ≡ N.acts) × (acts.items ≡ []) }
    requires door { shown_by D.faults D.ahead D.given D.ended D.gave D.took_back D.closed door ≡ N.start }
    requires most { connections ≡ N.most }
    requires some { 0 < length workers.old }
    requires workers { All (λ w. IsHired V.rests N.hall N.acts w.pass.seat w.front) workers.old }
    requires worked { All (λ w. HasWorked W.did w.front.items w.pass.seat w.lent.value w.own) workers.old }
    ensures workers { All (λ w. IsRestingPass V.rests N.hall w.pass.seat) workers.new }
    ensures worked { All (λ w. HasWorked W.did result.acts.items w.pass.seat w.lent.value w.own) workers.new }
    ensures same { map (λ w. hired_by w.pass.seat w.lent.value) workers.new ≡ map (λ w. hired_by w.pass.seat w.lent.value) workers.old }
    ensures count { length workers.new ≡ length workers.old }
    ensures pass { IsIdlePass N.hall result.pass.seat }
    ensures unturned { ((view result.pass.seat).number ≡ N.pass) × (turns_by V.made_by N.pass (view result.pass.seat).seen ≡ []) }
    ensures over { result.standing.over ≢ None }
    ensures gave { Gave N.most N.start (shown_by D.faults D.ahead D.given D.ended D.gave D.took_back D.closed result.door) result.standing result.acts.items }
    ensures visited { Visited N.start (shown_by D.faults D.ahead D.given D.ended D.gave D.took_back D.closed result.door)
        V.fits (view result.pass.seat).seen result.acts.items }
    ensures stopped { result.standing.over ≡ Some Over.Stopped → V.stops (view result.pass.seat).seen }
{
    let counts = Counts::new(workers.len());
    let porch: Porch<'_, V, D, N> = Porch::open(door, hall, last, tickets, acts, connections);
    let porch = Mutex::new(porch);
    work_all(rt, &porch, &counts, work, workers);
    let over = longest::<V, D, N, Own>(workers);
    porch.into_inner().into_parts(over)
}

/// Lets all workers work, each in a thread of its own. The caller is one.
fn work_all<
    N: Naming<D::In, D::Out> + Send,
    V: Served<D::In, D::Out> + Send,
    Rt: Wait + Threads + Sync,
    D: Door,
    Own: Send,
    W: Work<V, Pass<V>, D::In, D::Out, Own> + Sync,
>(
    rt: &Rt,
    porch: &Mutex<Porch<'_, V, D, N>>,
    counts: &Counts,
    work: &W,
    workers: &mut [Worker<V, Own, Act<D::In, D::Out, V::Turn>>],
)
    requires works { W.works work.now N.hall }
    requires some { 0 < length workers.old }
    requires workers { All (λ w. IsHired V.rests N.hall N.acts w.pass.seat w.front) workers.old }
    requires worked { All (λ w. HasWorked W.did w.front.items w.pass.seat w.lent.value w.own) workers.old }
    ensures workers { All (λ w. IsRestingPass V.rests N.hall w.pass.seat) workers.new }
    ensures over { All (λ w. (w.front.name ≡ N.acts) × IsOver w.front.items) workers.new }
    ensures worked { All (λ w. HasWorked W.did w.front.items w.pass.seat w.lent.value w.own) workers.new }
    ensures same { map (λ w. hired_by w.pass.seat w.lent.value) workers.new ≡ map (λ w. hired_by w.pass.seat w.lent.value) workers.old }
    ensures count { length workers.new ≡ length workers.old }
{
    let threads = workers.len();
    thread::for_each_mut(
        rt,
        workers,
        threads,
        &|_, worker: &mut Worker<V, Own, Act<D::In, D::Out, V::Turn>>|
            requires works { W.works work.now N.hall }
            requires hired { IsHired V.rests N.hall N.acts worker.old.pass.seat worker.old.front }
            requires worked { HasWorked W.did worker.old.front.items worker.old.pass.seat worker.old.lent.value worker.old.own }
            ensures idle { IsRestingPass V.rests N.hall worker.new.pass.seat }
            ensures over { (worker.new.front.name ≡ N.acts) × IsOver worker.new.front.items }
            ensures worked { HasWorked W.did worker.new.front.items worker.new.pass.seat worker.new.lent.value worker.new.own }
            ensures same { ((view worker.new.pass.seat).number ≡ (view worker.old.pass.seat).number) × (worker.new.lent ≡ worker.old.lent) }
        {
            let site = Site {
                rt,
                porch,
                counts,
                work,
            };
            attend(site, worker)
        },
    );
}
