//! A door served by workers side by side.
ghost use Rattle.std.specs.Prelude.{◌≡◌, ◌≢◌, ◌+◌, ◌<◌, ◌≤◌, All, [], map, vec_capacity, vec_len, true, MatchBool};
ghost use Rattle.router_disk.specs.Faults.{Rose};
ghost use Rattle.turn_book.specs.Rule.{Learns};
ghost use Rattle.turn_book.specs.Passes.{view, known_by, IsFree, IsSamePass};
ghost use Rattle.shared_door.specs.Shown.{shown_by};
ghost use Rattle.door_workers.specs.Serving.{IsIdlePass, HasServed, AreDone};
ghost use Rattle.router_history.specs.Book.{IsBook};
ghost use Rattle.router_sessions.specs.Desk.{turns_seen, number_of, seen_by};
ghost use Rattle.router_history.specs.History.{state_of};
ghost use Rattle.router_history.specs.Visit.{IsVisit, OwesNothing, HasBroken};
ghost use Rattle.session_workers.specs.Places.{lent_of};
ghost use Rattle.session_workers.specs.Jobs.{maker, outside_of, session_by, did_by, ServesOne, GoesOn};

use crate::clerk::{Clerk, converse, is_whole, work_in_a_place};
use crate::places::{Placed, Places, Placing};
use bus_host::{Door, Gate};
use door_workers::{DoorEnd, Serving};
use router_disk::{Clock, Disk, Link, Sink, Source};
use router_history::Book;
use router_sessions::look;
use std::alloc::Global;
use std::sync::Wait;
use std::thread::Threads;
use turn_book::{Hall, Pass};

/// Serves the connections of a door, with a worker for each link and its clock. Returns once the door gives no further connection, or
/// gave `connections`, or a worker found that the book is broken, and all given have ended. The passes of the workers and of the door are
/// made by `pass`, which then has seen all that they saw.
pub fn serve_door<J: Disk, Rt: Wait + Threads + Sync, D: Door, L: Link, C: Clock, G: Gate + Sync>(
    rt: &Rt,
    alloc: Global,
    hall: &Hall<Book<J>>,
    pass: &mut Pass<Book<J>>,
    owns: Vec<(L, C)>,
    door: D,
    connections: Option<u64>,
    gate: &G,
) -> Serving<Book<J>, D, (L, C)>
    requires here { IsIdlePass hall.now.table.shared.table_id pass.old.seat }
    requires maker { 0 < (view pass.old.seat).made }
    requires owns { (0 < vec_len owns) × (vec_len owns ≤ 1024) }
    requires seats { (view pass.old.seat).made + vec_len owns + 1 ≤ hall.now.seats }
    ensures pass { IsIdlePass hall.now.table.shared.table_id pass.new.seat × (number_of pass.new.seat ≡ number_of pass.old.seat) }
    ensures more { Learns maker (view pass.old.seat) (seen_by pass.new.seat) }
    ensures made { (view pass.new.seat).made ≡ (view pass.old.seat).made + vec_len result.passes }
    ensures passes { All (λ p. IsIdlePass hall.now.table.shared.table_id p.seat) result.passes.items }
    ensures rests { All (λ p. OwesNothing (number_of p.seat) (seen_by p.seat)) result.passes.items }
    ensures owns { vec_len result.owns ≡ vec_len owns }
    ensures served { result.end ≢ DoorEnd.NoMemory → (h : HasServed connections (shown_by D.faults D.ahead D.given D.ended D.gave D.took_back D.closed door)
        (shown_by D.faults D.ahead D.given D.ended D.gave D.took_back D.closed result.door)
        (IsVisit ⟦<D::In as Source>⟧.gave ⟦<D::Out as Sink>⟧.wrote ⟦<D::In as Source>⟧.faults ⟦<D::Out as Sink>⟧.faults) (seen_by pass.new.seat) result.end)
        × AreDone (did_by ⟦<D::In as Source>⟧.gave ⟦<D::Out as Sink>⟧.wrote C.gave L.exchanges L.faults) h.acts maker (view pass.old.seat).made owns.items result.owns.items (map (λ p. known_by p.seat) result.passes.items) }
    ensures book { result.end ≢ DoorEnd.NoMemory → IsBook (turns_seen pass.new.seat) }
    ensures door_fault { result.end ≡ DoorEnd.DoorFault → Rose (D.faults door) (D.faults result.door) }
    ensures stopped { result.end ≡ DoorEnd.Stopped → (state_of (turns_seen pass.new.seat)).broken ≡ true }
    ensures no_memory { result.end ≡ DoorEnd.NoMemory → (result.door ≡ door) × (result.owns.items ≡ owns.items)
        × (result.passes.items ≡ []) × (pass.new ≡ pass.old) }
{
    let places = Places::new();
    let mut placed = Vec::new(alloc);
    if placed.try_reserve(owns.len()).is_err() {
        placed.destroy_empty();
        return Serving {
            door,
            owns,
            passes: Vec::new(alloc),
            end: DoorEnd::NoMemory,
        };
    }
    let mut owns = owns;
    place_all(rt, &places, &mut owns, &mut placed);
    let serving = serve_placed(rt, alloc, hall, pass, placed, door, connections, gate);
    let Serving {
        door,
        owns: placed,
        passes,
        end,
    } = serving;
    return_all(placed, &mut owns);
    Serving {
        door,
        owns,
        passes,
        end,
    }
}

/// Gives each link the places. Links and clocks keep their order.
fn place_all<'r, 'p, Rt, L, C>(
    rt: &'r Rt,
    places: &'p Places,
    owns: &mut Vec<(L, C)>,
    placed: &mut Vec<(Placed<'r, 'p, L, Rt>, C)>,
)
    requires room { (placed.old.items ≡ []) × (vec_len owns.old ≤ vec_capacity placed.old) }
    ensures placed { map lent_of placed.new.items ≡ owns.old.items }
    ensures count { vec_len placed.new ≡ vec_len owns.old }
    ensures owns { (owns.new.items ≡ []) × (vec_capacity owns.new ≡ vec_capacity owns.old) }
{
    while !owns.is_empty() {
        let (link, clock) = owns.remove(0);
        placed.push_reserved((Placed::new(rt, places, link), clock));
    }
}

/// The links alone and their clocks, in their order.
fn return_all<L, C, Rt>(placed: Vec<(Placed<'_, '_, L, Rt>, C)>, owns: &mut Vec<(L, C)>)
    requires room { (owns.old.items ≡ []) × (vec_len placed ≤ vec_capacity owns.old) }
    ensures { owns.new.items ≡ map lent_of placed.entry.items }
{
    let mut placed = placed;
    while !placed.is_empty() {
        let (link, clock) = placed.remove(0);
        owns.push_reserved((link.into_link(), clock));
    }
    placed.destroy_empty();
}

/// Serves the connections of a door, with links that have places.
fn serve_placed<J: Disk, Rt: Wait + Threads + Sync, D: Door, L: Placing, C: Clock, G: Gate + Sync>(
    rt: &Rt,
    alloc: Global,
    hall: &Hall<Book<J>>,
    pass: &mut Pass<Book<J>>,
    owns: Vec<(L, C)>,
    door: D,
    connections: Option<u64>,
    gate: &G,
) -> Serving<Book<J>, D, (L, C)>
    requires here { IsIdlePass hall.now.table.shared.table_id pass.old.seat }
    requires maker { 0 < (view pass.old.seat).made }
    requires owns { (0 < vec_len owns) × (vec_len owns ≤ 1024) }
    requires seats { (view pass.old.seat).made + vec_len owns + 1 ≤ hall.now.seats }
    ensures pass { IsIdlePass hall.now.table.shared.table_id pass.new.seat × (number_of pass.new.seat ≡ number_of pass.old.seat) }
    ensures more { Learns maker (view pass.old.seat) (seen_by pass.new.seat) }
    ensures made { (view pass.new.seat).made ≡ (view pass.old.seat).made + vec_len result.passes }
    ensures passes { All (λ p. IsIdlePass hall.now.table.shared.table_id p.seat) result.passes.items }
    ensures rests { All (λ p. OwesNothing (number_of p.seat) (seen_by p.seat)) result.passes.items }
    ensures owns { vec_len result.owns ≡ vec_len owns }
    ensures served { result.end ≢ DoorEnd.NoMemory → (h : HasServed connections (shown_by D.faults D.ahead D.given D.ended D.gave D.took_back D.closed door)
        (shown_by D.faults D.ahead D.given D.ended D.gave D.took_back D.closed result.door)
        (IsVisit ⟦<D::In as Source>⟧.gave ⟦<D::Out as Sink>⟧.wrote ⟦<D::In as Source>⟧.faults ⟦<D::Out as Sink>⟧.faults) (seen_by pass.new.seat) result.end)
        × AreDone (did_by ⟦<D::In as Source>⟧.gave ⟦<D::Out as Sink>⟧.wrote C.gave L.exchanges L.faults) h.acts maker (view pass.old.seat).made owns.items result.owns.items (map (λ p. known_by p.seat) result.passes.items) }
    ensures book { result.end ≢ DoorEnd.NoMemory → IsBook (turns_seen pass.new.seat) }
    ensures door_fault { result.end ≡ DoorEnd.DoorFault → Rose (D.faults door) (D.faults result.door) }
    ensures stopped { result.end ≡ DoorEnd.Stopped → (state_of (turns_seen pass.new.seat)).broken ≡ true }
    ensures no_memory { result.end ≡ DoorEnd.NoMemory → (result.door ≡ door) × (result.owns.items ≡ owns.items)
        × (result.passes.items ≡ []) × (pass.new ≡ pass.old) }
{
    let clerk = Clerk {
        serve: |own: &mut (L, C), pass: &mut Pass<
            Book<J>,
        >, number: u64, input: &mut D::In, output: &mut D::Out|
            requires here { pass.old.seat.table_id ≡ hall.now.table.shared.table_id }
            requires free { IsFree pass.old.seat }
            requires rests { OwesNothing (number_of pass.old.seat) (seen_by pass.old.seat) }
            ensures pass { IsSamePass pass.old.seat pass.new.seat × IsFree pass.new.seat }
            ensures rests { OwesNothing (number_of pass.new.seat) (seen_by pass.new.seat) }
            ensures visit { IsVisit D.In.gave D.Out.wrote D.In.faults D.Out.faults number (input.old, output.old) (input.new, output.new) result (seen_by pass.old.seat) (seen_by pass.new.seat) }
            ensures serves { ServesOne D.In.gave D.Out.wrote (number_of pass.old.seat) (session_by number (number_of pass.old.seat) (input.old, output.old) (input.new, output.new) result (seen_by pass.old.seat))
                (outside_of C.gave L.exchanges L.faults own.old) (outside_of C.gave L.exchanges L.faults own.new) (seen_by pass.old.seat) (seen_by pass.new.seat) }
        { converse(rt, alloc, gate, own, hall, pass, number, input, output) },
        goes_on: |pass: &mut Pass<Book<J>>|
            requires here { pass.old.seat.table_id ≡ hall.now.table.shared.table_id }
            requires free { IsFree pass.old.seat }
            ensures pass { IsSamePass pass.old.seat pass.new.seat × IsFree pass.new.seat × Learns maker (view pass.old.seat) (seen_by pass.new.seat) }
            ensures stops { MatchBool result (¬ HasBroken (seen_by pass.new.seat)) (HasBroken (seen_by pass.new.seat)) }
        { is_whole::<J, Rt>(rt, alloc, hall, pass) },
        meanwhile: |own: &mut (L, C), pass: &mut Pass<Book<J>>|
            requires here { pass.old.seat.table_id ≡ hall.now.table.shared.table_id }
            requires free { IsFree pass.old.seat }
            requires rests { OwesNothing (number_of pass.old.seat) (seen_by pass.old.seat) }
            ensures pass { IsSamePass pass.old.seat pass.new.seat × IsFree pass.new.seat }
            ensures rests { OwesNothing (number_of pass.new.seat) (seen_by pass.new.seat) }
            ensures goes_on { GoesOn D.In.gave D.Out.wrote (number_of pass.old.seat) (outside_of C.gave L.exchanges L.faults own.old) (outside_of C.gave L.exchanges L.faults own.new)
                (seen_by pass.old.seat) (seen_by pass.new.seat) }
        { work_in_a_place::<J, D::In, D::Out, Rt, L, C>(rt, alloc, own, hall, pass) },
    };
    let serving = door_workers::serve_door(rt, alloc, hall, pass, owns, door, connections, &clerk);
    look_after(rt, alloc, hall, pass, serving.end);
    serving
}

/// Makes no turn. Once a door was served, the pass then knows the history as it is.
fn look_after<J: Disk, Rt: Wait>(
    rt: &Rt,
    alloc: Global,
    hall: &Hall<Book<J>>,
    pass: &mut Pass<Book<J>>,
    end: DoorEnd,
)
    requires here { IsIdlePass hall.now.table.shared.table_id pass.old.seat }
    ensures pass { IsSamePass pass.old.seat pass.new.seat × IsFree pass.new.seat }
    ensures more { Learns maker (view pass.old.seat) (seen_by pass.new.seat) }
    ensures book { end ≢ DoorEnd.NoMemory → IsBook (turns_seen pass.new.seat) }
    ensures none { end ≡ DoorEnd.NoMemory → pass.new ≡ pass.old }
{
    match end {
        DoorEnd::Done | DoorEnd::DoorFault | DoorEnd::Stopped => {
            look(rt, alloc, hall, pass);
        }
        DoorEnd::NoMemory => (),
    }
}
