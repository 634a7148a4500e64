//! The workers of a door, before they begin and after they ended.
ghost use Rattle.std.specs.Prelude.{◌≡◌, ◌≢◌, ◌+◌, ◌<◌, ◌≤◌, ◌++◌, ◌∷◌, ℕ, All, AllPairs, Contains, IfOk, [], length, map, reverse, vec_len, vec_capacity};
ghost use mathlib.Core.List.{IsPrefix};
ghost use Rattle.turn_book.specs.Rule.{Learns, turns_by};
ghost use Rattle.turn_book.specs.Passes.{view, known_by, IsFree, IsSamePass, HasSameTurn};
ghost use Rattle.shared_door.specs.Acts.{IsOver};
ghost use Rattle.door_workers.specs.Serving.{IsIdlePass, IsRestingPass, IsHired, HasWorked, HasCrew, IsGathered, hired_by};

use crate::worker::{Work, Worker};
use bus_host::Door;
use growing_list::{Front, GrowingList};
use shared_door::{Act, Naming, Served, Tickets};
use std::alloc::Global;
use std::snapshot::Snapshot;
use turn_book::{Hall, NoMemory, Pass, Story};

/// What serving a door needs memory for.
pub(crate) struct Room<V: Story, C, Own, A> {
    pub(crate) tickets: Tickets<C>,
    pub(crate) workers: Vec<Worker<V, Own, A>>,
    pub(crate) passes: Vec<Pass<V>>,
}

/// Takes that memory, for this many workers.
pub(crate) fn room_for<V: Story, C, Own, A>(
    alloc: Global,
    count: usize,
) -> Result<Room<V, C, Own, A>, NoMemory>
    requires { count ≤ 1024 }
    ensures tickets { IfOk result (λ r. (r.tickets.given ≡ 0) × (r.tickets.seat.me.0.back ≡ [])) }
    ensures workers { IfOk result (λ r. (r.workers.items ≡ []) × (count ≤ vec_capacity r.workers)) }
    ensures passes { IfOk result (λ r. (r.passes.items ≡ []) × (count + 1 ≤ vec_capacity r.passes)) }
{
    let Ok(tickets) = Tickets::make(alloc) else {
        return Err(NoMemory);
    };
    let mut passes: Vec<Pass<V>> = Vec::new(alloc);
    if passes.try_reserve(count + 1).is_err() {
        passes.destroy_empty();
        return Err(NoMemory);
    }
    let mut workers = Vec::new(alloc);
    if workers.try_reserve(count).is_err() {
        workers.destroy_empty();
        passes.destroy_empty();
        return Err(NoMemory);
    }
    Ok(Room {
        tickets,
        workers,
        passes,
    })
}

/// A worker for each of `owns`, with a pass of its own and a front of the porch's acts.
pub(crate) fn hire<V: Served<I, O>, I, O, Own, A>(
    hall: &Hall<V>,
    pass: &mut Pass<V>,
    owns: &mut Vec<Own>,
    workers: Vec<Worker<V, Own, A>>,
    acts: &GrowingList<A>,
) -> Vec<Worker<V, Own, A>>
    requires here { pass.old.seat.table_id ≡ hall.now.table.shared.table_id }
    requires maker { 0 < (view pass.old.seat).made }
    requires seats { (view pass.old.seat).made + vec_len owns.old ≤ hall.now.seats }
    requires room { (workers.items ≡ []) × (vec_len owns.old ≤ vec_capacity workers) }
    ensures pass { (pass.new.seat.table_id ≡ pass.old.seat.table_id) × HasSameTurn pass.old.seat pass.new.seat
        × ((view pass.new.seat).number ≡ (view pass.old.seat).number) }
    ensures more { Learns V.made_by (view pass.old.seat) (view pass.new.seat).seen }
    ensures made { (view pass.new.seat).made ≡ (view pass.old.seat).made + vec_len owns.old }
    ensures owns { (owns.new.items ≡ []) × (vec_capacity owns.new ≡ vec_capacity owns.old) }
    ensures workers { All (λ w. IsHired V.rests hall.now.table.shared.table_id acts.now.name w.pass.seat w.front) result.items }
    ensures fresh { All (λ w. (turns_by V.made_by (view w.pass.seat).number (view w.pass.seat).seen ≡ []) × (w.lent.value ≡ w.own)) result.items }
    ensures lent { owns.old.items ≡ reverse (map (λ w. w.lent.value) result.items) }
    ensures numbers { (n : ℕ) → (view pass.old.seat).made ≤ n → n < (view pass.new.seat).made → Contains (map (λ w. (view w.pass.seat).number) result.items) n }
    ensures distinct { AllPairs (λ n m. n ≢ m) (map (λ w. (view w.pass.seat).number) result.items) }
    ensures count { vec_len result ≡ vec_len owns.old }
{
    let mut workers = workers;
    while let Some(own) = owns.pop() {
        let fresh = hall.another(pass);
        workers.push_reserved(Worker {
            lent: Snapshot::of(&own),
            own,
            pass: fresh,
            front: acts.front(),
        });
    }
    workers
}

/// Takes what the workers had and their passes, in the order of the loan, and then the pass of the door, which made no turn. The
/// caller's pass has then seen what they saw. `acts` is what the porch did.
pub(crate) fn gather<V: Served<I, O>, I, O, Own, W: Work<V, Pass<V>, I, O, Own>>(
    hall: &Hall<V>,
    pass: &mut Pass<V>,
    workers: Vec<Worker<V, Own, Act<I, O, V::Turn>>>,
    last: Pass<V>,
    acts: &GrowingList<Act<I, O, V::Turn>>,
    owns: &mut Vec<Own>,
    passes: &mut Vec<Pass<V>>,
)
    requires here { IsIdlePass hall.now.table.shared.table_id pass.old.seat }
    requires last { IsIdlePass hall.now.table.shared.table_id last.seat }
    requires unturned { turns_by V.made_by (view last.seat).number (view last.seat).seen ≡ [] }
    requires workers { All (λ w. IsRestingPass V.rests hall.now.table.shared.table_id w.pass.seat) workers.items }
    requires worked { All (λ w. HasWorked W.did acts.now.items w.pass.seat w.lent.value w.own) workers.items }
    requires none { (owns.old.items ≡ []) × (passes.old.items ≡ []) }
    requires owns_room { vec_len owns.old + vec_len workers ≤ vec_capacity owns.old }
    requires passes_room { vec_len workers + 1 ≤ vec_capacity passes.old }
    ensures pass { IsSamePass pass.old.seat pass.new.seat × IsFree pass.new.seat }
    ensures more { Learns V.made_by (view pass.old.seat) (view pass.new.seat).seen }
    ensures last { IsPrefix (view last.seat).seen (view pass.new.seat).seen }
    ensures passes { All (λ p. IsRestingPass V.rests hall.now.table.shared.table_id p.seat) passes.new.items }
    ensures count { vec_len passes.new ≡ vec_len workers + 1 }
    ensures owns { vec_len owns.new ≡ vec_len workers }
    ensures crew { IsGathered W.did acts.now.items V.made_by (view last.seat).number
        (reverse (map (λ w. hired_by w.pass.seat w.lent.value) workers.items)) owns.new.items (map (λ p. known_by p.seat) passes.new.items) }
{
    dismiss::<V, I, O, Own, W>(hall, pass, workers, acts, owns, passes);
    let mut last = last;
    hall.meet(pass, &mut last);
    passes.push_reserved(last);
}

/// Takes what the workers had and their passes, last worker first. The caller's pass has then seen what they saw.
fn dismiss<V: Served<I, O>, I, O, Own, W: Work<V, Pass<V>, I, O, Own>>(
    hall: &Hall<V>,
    pass: &mut Pass<V>,
    workers: Vec<Worker<V, Own, Act<I, O, V::Turn>>>,
    acts: &GrowingList<Act<I, O, V::Turn>>,
    owns: &mut Vec<Own>,
    passes: &mut Vec<Pass<V>>,
)
    requires here { pass.old.seat.table_id ≡ hall.now.table.shared.table_id }
    requires workers { All (λ w. IsRestingPass V.rests hall.now.table.shared.table_id w.pass.seat) workers.items }
    requires worked { All (λ w. HasWorked W.did acts.now.items w.pass.seat w.lent.value w.own) workers.items }
    requires none { (owns.old.items ≡ []) × (passes.old.items ≡ []) }
    requires owns_room { vec_len owns.old + vec_len workers ≤ vec_capacity owns.old }
    requires passes_room { vec_len passes.old + vec_len workers ≤ vec_capacity passes.old }
    ensures pass { IsSamePass pass.old.seat pass.new.seat × HasSameTurn pass.old.seat pass.new.seat }
    ensures more { Learns V.made_by (view pass.old.seat) (view pass.new.seat).seen }
    ensures passes { All (λ p. IsRestingPass V.rests hall.now.table.shared.table_id p.seat) passes.new.items }
    ensures count { vec_len passes.new ≡ vec_len passes.old + vec_len workers }
    ensures capacity { vec_capacity passes.new ≡ vec_capacity passes.old }
    ensures owns { vec_len owns.new ≡ vec_len owns.old + vec_len workers }
    ensures crew { HasCrew W.did acts.now.items (reverse (map (λ w. hired_by w.pass.seat w.lent.value) workers.items)) owns.new.items
        (map (λ p. known_by p.seat) passes.new.items) }
{
    let mut workers = workers;
    while let Some(worker) = workers.pop() {
        let Worker {
            lent: _,
            own,
            pass: mut fresh,
            front: _,
        } = worker;
        hall.meet(pass, &mut fresh);
        owns.push_reserved(own);
        passes.push_reserved(fresh);
    }
    workers.destroy_empty();
}

/// A front that begins with the front of each worker. All are of one list, and over.
pub(crate) fn longest<V: Served<D::In, D::Out>, D: Door, N: Naming<D::In, D::Out>, Own>(
    workers: &[Worker<V, Own, Act<D::In, D::Out, V::Turn>>],
) -> Front<Act<D::In, D::Out, V::Turn>>
    requires some { 0 < length workers.now }
    requires over { All (λ w. (w.front.name ≡ N.acts) × IsOver w.front.items) workers.now }
    ensures over { (result.name ≡ N.acts) × IsOver result.items }
    ensures all { All (λ w. IsPrefix w.front.items result.items) workers.now }
{
    let mut front = workers[0].front.again();
    for worker in workers {
        front.learn(&worker.front);
    }
    front
}
