//! The delivery steps, and the steps of replays, of a worker that serves no connection.
ghost use Rattle.std.specs.Prelude.{◌≡◌, ◌∷◌, [], None};
ghost use Rattle.turn_book.specs.Passes.{IsFree, IsSamePass};
ghost use Rattle.courier_run.specs.Act.{looks};
ghost use Rattle.courier_run.specs.Link.{outside};
ghost use Rattle.router_history.specs.History.{state_of};
ghost use Rattle.router_history.specs.Book.{Rests, IsBook};
ghost use Rattle.router_history.specs.Acts.{Makes};
ghost use Rattle.router_sessions.specs.Delivery.{Delivers};
ghost use Rattle.router_sessions.specs.Repeating.{RepeatsFrom};
ghost use Rattle.router_sessions.specs.Desk.{turns_seen, number_of, seat_of, SeesMore};

use crate::delivery::deliver;
use crate::desk::Desk;
use crate::replays::repeat;
use courier_run::Stepped;
use router_disk::{Clock, Disk, Link};
use router_history::Book;
use std::alloc::Global;
use std::sync::Wait;
use step_run::StepsFault;
use turn_book::{Hall, Pass};

/// Makes at most `budget` delivery steps, each at a reading of its own. Its turns are made through the pass and name no connection.
/// Between the steps and during a send other passes can make turns.
pub fn serve_quiet<Rt: Wait, D: Disk, L: Link, C: Clock>(
    rt: &Rt,
    alloc: Global,
    hall: &Hall<Book<D>>,
    pass: &mut Pass<Book<D>>,
    link: &mut L,
    clock: &mut C,
    budget: u32,
) -> Stepped
    requires here { pass.old.seat.table_id ≡ hall.now.table.shared.table_id }
    requires free { IsFree pass.old.seat }
    requires book { IsBook (turns_seen pass.old.seat) }
    requires rests { Rests (number_of pass.old.seat) (turns_seen pass.old.seat) }
    ensures pass { IsSamePass pass.old.seat pass.new.seat × IsFree pass.new.seat }
    ensures book { IsBook (turns_seen pass.new.seat) }
    ensures more { SeesMore pass.old.seat pass.new.seat }
    ensures rests { Rests (number_of pass.old.seat) (turns_seen pass.new.seat) }
    ensures delivers { Delivers (seat_of None pass.old.seat) budget (turns_seen pass.old.seat) (turns_seen pass.new.seat)
        (outside (C.gave clock.old) (L.exchanges link.old) (L.faults link.old))
        (outside (C.gave clock.new) (L.exchanges link.new) (L.faults link.new)) result }
{
    let desk = Desk {
        rt,
        alloc,
        hall,
        connection: None,
    };
    deliver(desk, pass, link, clock, budget)
}

/// Makes at most `budget` steps of replays, each at a reading of its own. Its turns are made through the pass and name no connection.
/// Between the steps other passes can make turns.
pub fn step_quiet<Rt: Wait, D: Disk, C: Clock>(
    rt: &Rt,
    alloc: Global,
    hall: &Hall<Book<D>>,
    pass: &mut Pass<Book<D>>,
    clock: &mut C,
    budget: u32,
) -> Result<u32, StepsFault>
    requires here { pass.old.seat.table_id ≡ hall.now.table.shared.table_id }
    requires free { IsFree pass.old.seat }
    requires book { IsBook (turns_seen pass.old.seat) }
    requires rests { Rests (number_of pass.old.seat) (turns_seen pass.old.seat) }
    ensures pass { IsSamePass pass.old.seat pass.new.seat × IsFree pass.new.seat }
    ensures book { IsBook (turns_seen pass.new.seat) }
    ensures more { SeesMore pass.old.seat pass.new.seat }
    ensures rests { Rests (number_of pass.old.seat) (turns_seen pass.new.seat) }
    ensures repeats { RepeatsFrom (seat_of None pass.old.seat) budget (turns_seen pass.old.seat) (turns_seen pass.new.seat)
        (C.gave clock.old) (C.gave clock.new) result }
{
    let desk = Desk {
        rt,
        alloc,
        hall,
        connection: None,
    };
    repeat(desk, pass, clock, budget)
}

/// Makes no turn. The pass then knows the history as it is. Returns whether the book is broken.
pub fn look<Rt: Wait, D: Disk>(
    rt: &Rt,
    alloc: Global,
    hall: &Hall<Book<D>>,
    pass: &mut Pass<Book<D>>,
) -> bool
    requires here { pass.old.seat.table_id ≡ hall.now.table.shared.table_id }
    requires free { IsFree pass.old.seat }
    ensures pass { IsSamePass pass.old.seat pass.new.seat × IsFree pass.new.seat }
    ensures book { IsBook (turns_seen pass.new.seat) }
    ensures more { SeesMore pass.old.seat pass.new.seat }
    ensures looked { Makes (seat_of None pass.old.seat) (looks (state_of (turns_seen pass.new.seat)) ∷ [])
        (turns_seen pass.old.seat) (turns_seen pass.new.seat) }
    ensures rests { Rests (number_of pass.old.seat) (turns_seen pass.old.seat) → Rests (number_of pass.old.seat) (turns_seen pass.new.seat) }
    ensures broken { result ≡ (state_of (turns_seen pass.new.seat)).broken }
{
    let desk = Desk {
        rt,
        alloc,
        hall,
        connection: None,
    };
    desk.look(pass)
}
