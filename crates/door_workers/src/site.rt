//! What the workers of one door share, and what one of them does at it.
ghost use Rattle.std.specs.Prelude.{◌≡◌};
ghost use mathlib.Core.List.{IsPrefix};
ghost use Rattle.turn_book.specs.Passes.{view, IsFree, IsSamePass};
ghost use Rattle.shared_door.specs.Acts.{IsOver};
ghost use Rattle.shared_door.specs.Knocks.{tickets_of, came_of, seen_of};
ghost use Rattle.door_workers.specs.Serving.{IsKnocked, HasWorked};

use crate::counts::{Counts, may_leave};
use crate::worker::{Work, Worker};
use bus_host::Door;
use growing_list::Front;
use shared_door::{Act, Connection, Knocked, Naming, Porch, Served, turns_seen};
use std::alloc::AllocError;
use std::sync::atomic::Ordering;
use std::sync::{Mutex, Wait};
use std::time::Duration;
use turn_book::Pass;

/// How many milliseconds a worker waits for a connection to end before it knocks again.
const PAUSE: u64 = 1;

/// What the workers share. The porch is locked only for a knock, by one worker at a time, and to take a connection back.
pub(crate) struct Site<'a, 'h, Rt, V: Served<D::In, D::Out>, D: Door, N: Naming<D::In, D::Out>, W> {
    pub(crate) rt: &'a Rt,
    pub(crate) porch: &'a Mutex<Porch<'h, V, D, N>>,
    pub(crate) counts: &'a Counts,
    pub(crate) work: &'a W,
}

impl<Rt, V: Served<D::In, D::Out>, D: Door, N: Naming<D::In, D::Out>, W> Clone
    for Site<'_, '_, Rt, V, D, N, W> {
    fn clone(&self) -> Result<Self, AllocError> {
        Ok(*self)
    }
}

impl<Rt, V: Served<D::In, D::Out>, D: Door, N: Naming<D::In, D::Out>, W> Copy
    for Site<'_, '_, Rt, V, D, N, W> {}

/// Knocks until the door gives no more connections. Serves each connection that comes, and does the rest of its work while none
/// comes. The worker's front then has the act by which the porch is over, and all by which its connections ended.
pub(crate) fn attend<
    Rt: Wait + Sync,
    V: Served<D::In, D::Out>,
    D: Door,
    N: Naming<D::In, D::Out>,
    Own,
    W: Work<V, Pass<V>, D::In, D::Out, Own>,
>(site: Site<'_, '_, Rt, V, D, N, W>, worker: &mut Worker<V, Own, Act<D::In, D::Out, V::Turn>>)
    requires works { W.works site.work.now N.hall }
    requires pass { (worker.old.pass.seat.table_id ≡ N.hall) × IsFree worker.old.pass.seat }
    requires rests { V.rests (view worker.old.pass.seat).number (view worker.old.pass.seat).seen }
    requires front { worker.old.front.name ≡ N.acts }
    requires worked { HasWorked W.did worker.old.front.items worker.old.pass.seat worker.old.lent.value worker.old.own }
    ensures pass { IsSamePass worker.old.pass.seat worker.new.pass.seat × IsFree worker.new.pass.seat }
    ensures rests { V.rests (view worker.new.pass.seat).number (view worker.new.pass.seat).seen }
    ensures over { (worker.new.front.name ≡ N.acts) × IsOver worker.new.front.items }
    ensures worked { HasWorked W.did worker.new.front.items worker.new.pass.seat worker.new.lent.value worker.new.own }
    ensures lent { worker.new.lent ≡ worker.old.lent }
{
    site.counts.begun.fetch_add(1, Ordering::SeqCst);
    for _ in site.rt.forever() {
        match knock(site, worker) {
            Knocked::Conn(connection) => serve(site, worker, connection),
            Knocked::Quiet => be_quiet(site, worker),
            Knocked::NoMemory => be_quiet(site, worker),
            Knocked::Closed(front) => return leave(site, worker, front),
            Knocked::Failed(front) => return leave(site, worker, front),
            Knocked::Stopped(front) => return leave(site, worker, front),
        }
    }
    unreachable!()
}

/// Knocks once, when no other worker does.
fn knock<
    Rt: Wait + Sync,
    V: Served<D::In, D::Out>,
    D: Door,
    N: Naming<D::In, D::Out>,
    Own,
    W: Work<V, Pass<V>, D::In, D::Out, Own>,
>(
    site: Site<'_, '_, Rt, V, D, N, W>,
    worker: &mut Worker<V, Own, Act<D::In, D::Out, V::Turn>>,
) -> Knocked<D, V::Turn>
    requires works { W.works site.work.now N.hall }
    requires pass { (worker.old.pass.seat.table_id ≡ N.hall) × IsFree worker.old.pass.seat }
    requires rests { V.rests (view worker.old.pass.seat).number (view worker.old.pass.seat).seen }
    requires front { worker.old.front.name ≡ N.acts }
    requires worked { HasWorked W.did worker.old.front.items worker.old.pass.seat worker.old.lent.value worker.old.own }
    ensures pass { IsSamePass worker.old.pass.seat worker.new.pass.seat × IsFree worker.new.pass.seat }
    ensures rests { V.rests (view worker.new.pass.seat).number (view worker.new.pass.seat).seen }
    ensures front { worker.new.front.name ≡ N.acts }
    ensures worked { HasWorked W.did worker.new.front.items worker.new.pass.seat worker.new.lent.value worker.new.own }
    ensures lent { worker.new.lent ≡ worker.old.lent }
    ensures knocked { IsKnocked N.tickets N.acts (view worker.new.pass.seat).seen result }
{
    site.counts.enter(site.rt);
    let knocked = ask(site, worker);
    site.counts.leave();
    knocked
}

/// Knocks, or stops the porch if the work does not go on.
fn ask<
    Rt: Wait + Sync,
    V: Served<D::In, D::Out>,
    D: Door,
    N: Naming<D::In, D::Out>,
    Own,
    W: Work<V, Pass<V>, D::In, D::Out, Own>,
>(
    site: Site<'_, '_, Rt, V, D, N, W>,
    worker: &mut Worker<V, Own, Act<D::In, D::Out, V::Turn>>,
) -> Knocked<D, V::Turn>
    requires works { W.works site.work.now N.hall }
    requires pass { (worker.old.pass.seat.table_id ≡ N.hall) × IsFree worker.old.pass.seat }
    requires rests { V.rests (view worker.old.pass.seat).number (view worker.old.pass.seat).seen }
    requires front { worker.old.front.name ≡ N.acts }
    requires worked { HasWorked W.did worker.old.front.items worker.old.pass.seat worker.old.lent.value worker.old.own }
    ensures pass { IsSamePass worker.old.pass.seat worker.new.pass.seat × IsFree worker.new.pass.seat }
    ensures rests { V.rests (view worker.new.pass.seat).number (view worker.new.pass.seat).seen }
    ensures front { worker.new.front.name ≡ N.acts }
    ensures worked { HasWorked W.did worker.new.front.items worker.new.pass.seat worker.new.lent.value worker.new.own }
    ensures lent { worker.new.lent ≡ worker.old.lent }
    ensures knocked { IsKnocked N.tickets N.acts (view worker.new.pass.seat).seen result }
{
    if site.work.goes_on(&mut worker.pass) {
        site.porch.lock(site.rt).knock(&mut worker.pass)
    } else {
        Knocked::Stopped(site.porch.lock(site.rt).stop(&mut worker.pass))
    }
}

/// Lets all others knock, since the porch is over. The front has the act that says so.
fn leave<
    Rt: Wait + Sync,
    V: Served<D::In, D::Out>,
    D: Door,
    N: Naming<D::In, D::Out>,
    Own,
    W: Work<V, Pass<V>, D::In, D::Out, Own>,
>(
    site: Site<'_, '_, Rt, V, D, N, W>,
    worker: &mut Worker<V, Own, Act<D::In, D::Out, V::Turn>>,
    front: Front<Act<D::In, D::Out, V::Turn>>,
)
    requires works { W.works site.work.now N.hall }
    requires pass { (worker.old.pass.seat.table_id ≡ N.hall) × IsFree worker.old.pass.seat }
    requires rests { V.rests (view worker.old.pass.seat).number (view worker.old.pass.seat).seen }
    requires front { worker.old.front.name ≡ N.acts }
    requires worked { HasWorked W.did worker.old.front.items worker.old.pass.seat worker.old.lent.value worker.old.own }
    requires over { (front.name ≡ N.acts) × IsOver front.items }
    ensures pass { IsSamePass worker.old.pass.seat worker.new.pass.seat × IsFree worker.new.pass.seat }
    ensures rests { V.rests (view worker.new.pass.seat).number (view worker.new.pass.seat).seen }
    ensures front { worker.new.front.name ≡ N.acts }
    ensures worked { HasWorked W.did worker.new.front.items worker.new.pass.seat worker.new.lent.value worker.new.own }
    ensures lent { worker.new.lent ≡ worker.old.lent }
    ensures over { IsOver worker.new.front.items }
{
    site.counts.open();
    worker.front.learn(&front);
}

/// Serves a connection, and takes it back to the porch.
fn serve<
    Rt: Wait + Sync,
    V: Served<D::In, D::Out>,
    D: Door,
    N: Naming<D::In, D::Out>,
    Own,
    W: Work<V, Pass<V>, D::In, D::Out, Own>,
>(
    site: Site<'_, '_, Rt, V, D, N, W>,
    worker: &mut Worker<V, Own, Act<D::In, D::Out, V::Turn>>,
    connection: Connection<D, V::Turn>,
)
    requires works { W.works site.work.now N.hall }
    requires pass { (worker.old.pass.seat.table_id ≡ N.hall) × IsFree worker.old.pass.seat }
    requires rests { V.rests (view worker.old.pass.seat).number (view worker.old.pass.seat).seen }
    requires own { tickets_of connection ≡ N.tickets }
    requires came { came_of connection ≡ (connection.input, connection.output) }
    requires after { IsPrefix (seen_of connection) (view worker.old.pass.seat).seen }
    requires front { worker.old.front.name ≡ N.acts }
    requires worked { HasWorked W.did worker.old.front.items worker.old.pass.seat worker.old.lent.value worker.old.own }
    ensures pass { IsSamePass worker.old.pass.seat worker.new.pass.seat × IsFree worker.new.pass.seat }
    ensures rests { V.rests (view worker.new.pass.seat).number (view worker.new.pass.seat).seen }
    ensures front { worker.new.front.name ≡ N.acts }
    ensures worked { HasWorked W.did worker.new.front.items worker.new.pass.seat worker.new.lent.value worker.new.own }
    ensures lent { worker.new.lent ≡ worker.old.lent }
{
    site.counts.out.fetch_add(1, Ordering::SeqCst);
    site.counts.busy.fetch_add(1, Ordering::SeqCst);
    converse(site, worker, connection);
    site.counts.busy.fetch_sub(1, Ordering::SeqCst);
    site.counts.out.fetch_sub(1, Ordering::SeqCst);
}

fn converse<
    Rt: Wait + Sync,
    V: Served<D::In, D::Out>,
    D: Door,
    N: Naming<D::In, D::Out>,
    Own,
    W: Work<V, Pass<V>, D::In, D::Out, Own>,
>(
    site: Site<'_, '_, Rt, V, D, N, W>,
    worker: &mut Worker<V, Own, Act<D::In, D::Out, V::Turn>>,
    connection: Connection<D, V::Turn>,
)
    requires works { W.works site.work.now N.hall }
    requires pass { (worker.old.pass.seat.table_id ≡ N.hall) × IsFree worker.old.pass.seat }
    requires rests { V.rests (view worker.old.pass.seat).number (view worker.old.pass.seat).seen }
    requires own { tickets_of connection ≡ N.tickets }
    requires came { came_of connection ≡ (connection.input, connection.output) }
    requires after { IsPrefix (seen_of connection) (view worker.old.pass.seat).seen }
    requires front { worker.old.front.name ≡ N.acts }
    requires worked { HasWorked W.did worker.old.front.items worker.old.pass.seat worker.old.lent.value worker.old.own }
    ensures pass { IsSamePass worker.old.pass.seat worker.new.pass.seat × IsFree worker.new.pass.seat }
    ensures rests { V.rests (view worker.new.pass.seat).number (view worker.new.pass.seat).seen }
    ensures front { worker.new.front.name ≡ N.acts }
    ensures worked { HasWorked W.did worker.new.front.items worker.new.pass.seat worker.new.lent.value worker.new.own }
    ensures lent { worker.new.lent ≡ worker.old.lent }
{
    let mut connection = connection;
    let number = connection.number();
    let before = turns_seen(&worker.pass);
    let cut = site.work.serve(
        &mut worker.own,
        &mut worker.pass,
        number,
        &mut connection.input,
        &mut connection.output,
    );
    let front = site
        .porch
        .lock(site.rt)
        .back(connection, before, cut, &mut worker.pass);
    worker.front.learn(&front);
}

/// Does for a while what there is to do without a connection, if this worker may. If all connections that the door gives are out, it
/// then waits for one to end, so that the porch is free for it meanwhile.
fn be_quiet<
    Rt: Wait + Sync,
    V: Served<D::In, D::Out>,
    D: Door,
    N: Naming<D::In, D::Out>,
    Own,
    W: Work<V, Pass<V>, D::In, D::Out, Own>,
>(site: Site<'_, '_, Rt, V, D, N, W>, worker: &mut Worker<V, Own, Act<D::In, D::Out, V::Turn>>)
    requires works { W.works site.work.now N.hall }
    requires pass { (worker.old.pass.seat.table_id ≡ N.hall) × IsFree worker.old.pass.seat }
    requires rests { V.rests (view worker.old.pass.seat).number (view worker.old.pass.seat).seen }
    requires front { worker.old.front.name ≡ N.acts }
    requires worked { HasWorked W.did worker.old.front.items worker.old.pass.seat worker.old.lent.value worker.old.own }
    ensures pass { IsSamePass worker.old.pass.seat worker.new.pass.seat × IsFree worker.new.pass.seat }
    ensures rests { V.rests (view worker.new.pass.seat).number (view worker.new.pass.seat).seen }
    ensures front { worker.new.front.name ≡ N.acts }
    ensures worked { HasWorked W.did worker.new.front.items worker.new.pass.seat worker.new.lent.value worker.new.own }
    ensures lent { worker.new.lent ≡ worker.old.lent }
{
    let counts: &Counts = site.counts;
    let busy = counts.busy.fetch_add(1, Ordering::SeqCst).saturating_add(1);
    let begun = counts.begun.load(Ordering::SeqCst);
    let out = counts.out.load(Ordering::SeqCst);
    if may_leave(busy, begun, out, counts.limit) {
        work_on(site, worker);
    }
    if out >= counts.limit {
        let most = Duration::from_millis(PAUSE);
        counts
            .out
            .park_timeout(site.rt, (out % (1 << 32)) as u32, most);
    }
    counts.busy.fetch_sub(1, Ordering::SeqCst);
}

/// Does for a while what there is to do without a connection.
fn work_on<
    Rt: Wait + Sync,
    V: Served<D::In, D::Out>,
    D: Door,
    N: Naming<D::In, D::Out>,
    Own,
    W: Work<V, Pass<V>, D::In, D::Out, Own>,
>(site: Site<'_, '_, Rt, V, D, N, W>, worker: &mut Worker<V, Own, Act<D::In, D::Out, V::Turn>>)
    requires works { W.works site.work.now N.hall }
    requires pass { (worker.old.pass.seat.table_id ≡ N.hall) × IsFree worker.old.pass.seat }
    requires rests { V.rests (view worker.old.pass.seat).number (view worker.old.pass.seat).seen }
    requires front { worker.old.front.name ≡ N.acts }
    requires worked { HasWorked W.did worker.old.front.items worker.old.pass.seat worker.old.lent.value worker.old.own }
    ensures pass { IsSamePass worker.old.pass.seat worker.new.pass.seat × IsFree worker.new.pass.seat }
    ensures rests { V.rests (view worker.new.pass.seat).number (view worker.new.pass.seat).seen }
    ensures front { worker.new.front.name ≡ N.acts }
    ensures worked { HasWorked W.did worker.new.front.items worker.new.pass.seat worker.new.lent.value worker.new.own }
    ensures lent { worker.new.lent ≡ worker.old.lent }
{
    site.work.meanwhile(&mut worker.own, &mut worker.pass);
}
