//! The steps of one StepReplays.
ghost use Rattle.std.specs.Prelude.{◌≡◌};
ghost use Rattle.json_text.specs.Moment.{IsMoment};
ghost use Rattle.turn_book.specs.Passes.{IsFree, IsSamePass};
ghost use Rattle.router_history.specs.Book.{Rests, IsBook};
ghost use Rattle.router_sessions.specs.Delivery.{IsSeated};
ghost use Rattle.router_sessions.specs.Repeating.{RepeatsFrom};
ghost use Rattle.router_sessions.specs.Seated.{IsStepResult};
ghost use Rattle.router_sessions.specs.Desk.{turns_seen, number_of, seat_of, SeesMore};

use crate::delivery::{Knows, Naming};
use crate::desk::Desk;
use router_disk::{Clock, Disk};
use router_history::Book;
use std::marker::{Brand, PhantomData};
use std::sync::Wait;
use step_run::{StepBook, StepFault, StepsFault, run_steps};
use turn_book::Pass;

/// A book as a run of steps sees it, through a pass, whose turns a closure makes. The closure is for the same reason as those of deliveries.
#[derive(Drop)]
struct Repeater<'a, P, S, N> {
    pass: &'a mut P,
    step: S,
    of: PhantomData<N>,
}

impl<P: Knows, S: Fn(&mut P, u64) -> Result<bool, StepFault>, N: Naming> StepBook
    for Repeater<'_, P, S, N> {
    ghost use Rattle.router_history.specs.History as history;
    ghost use Rattle.router_history.specs.Book.{Rests};
    ghost use Rattle.router_history.specs.Acts.{Repeats, BreaksRepeat, IsNoneRunning, IsRepeatFull, IsRepeatBroken};
    ghost use Rattle.router_sessions.specs.Delivery.{IsSeated};
    ghost use Rattle.router_sessions.specs.Repeating.{DidSteps, steps_none, steps_joined};
    ghost use Rattle.router_sessions.specs.Seated.{IsRepeater};
    ghost use Rattle.router_sessions.specs.Desk.{turns_seen};

    ghost Placed = { history.Placed };

    ghost State = { history.State };

    ghost Other = { ⊥ };

    ghost sound = { λ s. IsSeated N.hall N.seat N.passes N.made (P.known s.pass.now) × Rests N.seat.pass (turns_seen (P.known s.pass.now))
        × IsRepeater P.known N.hall N.seat N.passes N.made S.Fn s.step };

    ghost did = { λ a b acts. DidSteps N.seat (P.known a.pass.now) (P.known b.pass.now) acts };

    ghost begins = { λ b. steps_none N.seat (P.known b.pass.now) };

    ghost joins = { λ a b c first second one two. steps_joined N.seat (P.known a.pass.now) (P.known b.pass.now) (P.known c.pass.now) first second one two };

    ghost steps = { Repeats };

    ghost breaks = { BreaksRepeat };

    ghost idle = { IsNoneRunning };

    ghost full = { IsRepeatFull };

    ghost broken = { IsRepeatBroken };

    ghost lender = { λ s. s.pass.ghost_name };

    fn step(&mut self, reading: u64) -> Result<bool, StepFault> {
        (self.step)(self.pass, reading)
    }
}

/// Makes a step at the desk, as the naming says.
fn step_at<N: Naming, Rt: Wait, D: Disk>(
    desk: Desk<'_, Rt, D>,
    pass: &mut Pass<Book<D>>,
    reading: u64,
) -> Result<bool, StepFault>
    requires hall { desk.hall.now.table.shared.table_id ≡ N.hall }
    requires named { desk.connection ≡ N.seat.connection }
    requires seated { IsSeated N.hall N.seat N.passes N.made pass.old.seat }
    requires reading { IsMoment reading }
    requires rests { Rests N.seat.pass (turns_seen pass.old.seat) }
    ensures seated { IsSeated N.hall N.seat N.passes N.made pass.new.seat }
    ensures rests { Rests N.seat.pass (turns_seen pass.new.seat) }
    ensures stepped { IsStepResult N.seat reading pass.old.seat pass.new.seat result }
{
    desk.step(pass, reading)
}

/// Makes steps of replays, each at a reading of its own, until no replay is running, `budget` steps were made, or a fault stops them. Between the
/// steps other passes can make turns.
pub(crate) fn repeat<Rt: Wait, D: Disk, C: Clock>(
    desk: Desk<'_, Rt, D>,
    pass: &mut Pass<Book<D>>,
    clock: &mut C,
    budget: u32,
) -> Result<u32, StepsFault>
    requires here { pass.old.seat.table_id ≡ desk.hall.now.table.shared.table_id }
    requires free { IsFree pass.old.seat }
    requires book { IsBook (turns_seen pass.old.seat) }
    requires rests { Rests (number_of pass.old.seat) (turns_seen pass.old.seat) }
    ensures pass { IsSamePass pass.old.seat pass.new.seat × IsFree pass.new.seat }
    ensures book { IsBook (turns_seen pass.new.seat) }
    ensures more { SeesMore pass.old.seat pass.new.seat }
    ensures rests { Rests (number_of pass.old.seat) (turns_seen pass.new.seat) }
    ensures repeats { RepeatsFrom (seat_of desk.entry.connection pass.old.seat) budget (turns_seen pass.old.seat) (turns_seen pass.new.seat)
        (C.gave clock.old) (C.gave clock.new) result }
{
    repeat_by::<Brand, Rt, D, C>(desk, pass, clock, budget)
}

fn repeat_by<N: Naming, Rt: Wait, D: Disk, C: Clock>(
    desk: Desk<'_, Rt, D>,
    pass: &mut Pass<Book<D>>,
    clock: &mut C,
    budget: u32,
) -> Result<u32, StepsFault>
    requires hall { (desk.hall.now.table.shared.table_id ≡ N.hall) × (pass.old.seat.table_id ≡ N.hall) }
    requires free { IsFree pass.old.seat }
    requires seat { seat_of desk.connection pass.old.seat ≡ N.seat }
    requires passes { (pass.old.seat.me.0.passes ≡ N.passes) × (pass.old.seat.me.0.made ≡ N.made) }
    requires book { IsBook (turns_seen pass.old.seat) }
    requires rests { Rests N.seat.pass (turns_seen pass.old.seat) }
    ensures free { IsFree pass.new.seat }
    ensures pass { IsSamePass pass.old.seat pass.new.seat }
    ensures book { IsBook (turns_seen pass.new.seat) }
    ensures more { SeesMore pass.old.seat pass.new.seat }
    ensures rests { Rests N.seat.pass (turns_seen pass.new.seat) }
    ensures repeats { RepeatsFrom N.seat budget (turns_seen pass.old.seat) (turns_seen pass.new.seat) (C.gave clock.old) (C.gave clock.new) result }
{
    let mut repeater: Repeater<'_, Pass<Book<D>>, _, N> = Repeater {
        pass,
        step: move |pass: &mut Pass<Book<D>>, reading: u64|
            requires hall { desk.hall.now.table.shared.table_id ≡ N.hall }
            requires named { desk.connection ≡ N.seat.connection }
            requires seated { IsSeated N.hall N.seat N.passes N.made pass.old.seat }
            requires reading { IsMoment reading }
            requires rests { Rests N.seat.pass (turns_seen pass.old.seat) }
            ensures seated { IsSeated N.hall N.seat N.passes N.made pass.new.seat }
            ensures rests { Rests N.seat.pass (turns_seen pass.new.seat) }
            ensures stepped { IsStepResult N.seat reading pass.old.seat pass.new.seat result }
        { step_at::<N, Rt, D>(desk, pass, reading) },
        of: PhantomData,
    };
    run_steps(&mut repeater, clock, budget)
}
