//! The steps of one DeliverDue, by the courier.
ghost use Rattle.std.specs.Prelude.{◌≡◌};
ghost use Rattle.json_text.specs.Moment.{IsMoment};
ghost use Rattle.turn_book.specs.Passes.{IsFree, IsSamePass};
ghost use Rattle.courier_run.specs.Claim.{FitsClaim, NeedsSend};
ghost use Rattle.courier_run.specs.Link.{outside};
ghost use Rattle.router_history.specs.Held.{held_claim};
ghost use Rattle.router_history.specs.Book.{Rests, Holds, IsBook};
ghost use Rattle.router_sessions.specs.Delivery.{Delivers, IsSeated};
ghost use Rattle.router_sessions.specs.Seated.{IsBackResult, IsClaimResult, IsRecordResult};
ghost use Rattle.router_sessions.specs.Desk.{turns_seen, number_of, seat_of, SeesMore};

use crate::desk::Desk;
use courier_run::{BookFault, DutyBook, Stepped, turn};
use delivery_duties::{Fate, Outcome};
use router_disk::{Clock, Disk, Link};
use router_history::{Book, Held};
use std::marker::{Brand, PhantomData};
use std::sync::Wait;
use turn_book::Pass;

/// Names what the steps of one call go by. Each call of a program picks it.
pub(crate) trait Naming {
    ghost use Rattle.std.specs.Prelude.{ℕ};
    ghost use Rattle.atomic_table.specs.Seated.{TableId};
    ghost use Rattle.router_history.specs.declared.book.Seat.{Seat};

    // The hall.
    ghost hall: { TableId };

    // The pass, and the connection that the turns name.
    ghost seat: { Seat };

    // How many passes the pass represents, and how many it made.
    ghost passes: { ℕ };

    ghost made: { ℕ };
}

impl Naming for Brand {
    ghost use Rattle.router_sessions.specs.Desk.{no_hall, no_seat};

    ghost hall = { no_hall };

    ghost seat = { no_seat };

    ghost passes = { 0 };

    ghost made = { 0 };
}

/// A pass, by what it knows of the history. A bound cannot name the passes of a hall.
pub(crate) trait Knows {
    ghost use Rattle.router_sessions.specs.Desk.{Known};

    type Value;

    ghost known: { Self → Known Self.Value };
}

impl<D: Disk> Knows for Pass<Book<D>> {
    type Value = Book<D>;

    ghost known = { λ p. p.seat };
}

/// A book as the courier sees it, through a pass, whose turns closures make. In a method of a trait the check does not cover a call of a function
/// whose bounds are `Send`, as those of a desk's methods are.
#[derive(Drop)]
struct Seated<'a, P, C, R, B, N> {
    pass: &'a mut P,
    claim: C,
    record_of: R,
    put_back: B,
    of: PhantomData<N>,
}

impl<
    P: Knows,
    C: Fn(&mut P, u64) -> Result<Option<Held>, BookFault>,
    R: Fn(&mut P, Held, Outcome) -> Result<Fate, BookFault>,
    B: Fn(&mut P, Held),
    N: Naming,
> DutyBook for Seated<'_, P, C, R, B, N> {
    ghost use Rattle.router_history.specs.History as history;
    ghost use Rattle.router_history.specs.Book.{Rests, Holds};
    ghost use Rattle.router_history.specs.Acts.{Claims, Records, PutsBack, Breaks, IsIdle, IsFullAt, IsBrokenAt};
    ghost use Rattle.router_sessions.specs.Delivery.{Did, did_none, did_joined, IsSeated};
    ghost use Rattle.router_sessions.specs.Seated.{AreSeated};
    ghost use Rattle.router_sessions.specs.Desk.{turns_seen};

    type Held = Held;

    ghost Placed = { history.Placed };

    ghost State = { history.State };

    ghost sound = { λ s. IsSeated N.hall N.seat N.passes N.made (P.known s.pass.now)
        × AreSeated P.known N.hall N.seat N.passes N.made C.Fn s.claim R.Fn s.record_of B.Fn s.put_back };

    ghost rests = { λ s. Rests N.seat.pass (turns_seen (P.known s.pass.now)) };

    ghost holds = { λ s c. Holds N.seat.pass (turns_seen (P.known s.pass.now)) c };

    ghost did = { λ a b acts. Did N.seat (P.known a.pass.now) (P.known b.pass.now) acts };

    ghost begins = { λ b. did_none N.seat (P.known b.pass.now) };

    ghost joins = { λ a b c first second one two. did_joined N.seat (P.known a.pass.now) (P.known b.pass.now) (P.known c.pass.now) first second one two };

    ghost claims = { Claims };

    ghost records = { Records };

    ghost puts_back = { PutsBack };

    ghost breaks = { Breaks };

    ghost idle = { IsIdle };

    ghost full = { IsFullAt };

    ghost broken = { IsBrokenAt };

    ghost lender = { λ s. s.pass.ghost_name };

    fn claim(&mut self, moment: u64) -> Result<Option<Held>, BookFault> {
        (self.claim)(self.pass, moment)
    }

    fn record_of(&mut self, held: Held, outcome: Outcome, _moment: u64) -> Result<Fate, BookFault> {
        (self.record_of)(self.pass, held, outcome)
    }

    fn put_back(&mut self, held: Held) {
        (self.put_back)(self.pass, held);
    }
}

/// Claims at the desk, as the naming says.
fn claim_at<N: Naming, Rt: Wait, D: Disk>(
    desk: Desk<'_, Rt, D>,
    pass: &mut Pass<Book<D>>,
    reading: u64,
) -> Result<Option<Held>, BookFault>
    requires hall { desk.hall.now.table.shared.table_id ≡ N.hall }
    requires named { desk.connection ≡ N.seat.connection }
    requires seated { IsSeated N.hall N.seat N.passes N.made pass.old.seat }
    requires reading { IsMoment reading }
    requires rests { Rests N.seat.pass (turns_seen pass.old.seat) }
    ensures seated { IsSeated N.hall N.seat N.passes N.made pass.new.seat }
    ensures claimed { IsClaimResult N.seat reading pass.old.seat pass.new.seat result }
{
    desk.claim(pass, reading)
}

/// Records at the desk, as the naming says.
fn record_at<N: Naming, Rt: Wait, D: Disk>(
    desk: Desk<'_, Rt, D>,
    pass: &mut Pass<Book<D>>,
    held: Held,
    outcome: Outcome,
) -> Result<Fate, BookFault>
    requires hall { desk.hall.now.table.shared.table_id ≡ N.hall }
    requires named { desk.connection ≡ N.seat.connection }
    requires seated { IsSeated N.hall N.seat N.passes N.made pass.old.seat }
    requires holds { Holds N.seat.pass (turns_seen pass.old.seat) (held_claim held) }
    requires fits { FitsClaim (held_claim held) outcome }
    ensures seated { IsSeated N.hall N.seat N.passes N.made pass.new.seat }
    ensures rests { Rests N.seat.pass (turns_seen pass.new.seat) }
    ensures recorded { IsRecordResult N.seat (held_claim held) outcome pass.old.seat pass.new.seat result }
{
    desk.record(pass, held, outcome)
}

/// Puts a claim back at the desk, as the naming says.
fn put_back_at<N: Naming, Rt: Wait, D: Disk>(
    desk: Desk<'_, Rt, D>,
    pass: &mut Pass<Book<D>>,
    held: Held,
)
    requires hall { desk.hall.now.table.shared.table_id ≡ N.hall }
    requires named { desk.connection ≡ N.seat.connection }
    requires seated { IsSeated N.hall N.seat N.passes N.made pass.old.seat }
    requires holds { Holds N.seat.pass (turns_seen pass.old.seat) (held_claim held) }
    requires needed { NeedsSend (held_claim held) }
    ensures seated { IsSeated N.hall N.seat N.passes N.made pass.new.seat }
    ensures rests { Rests N.seat.pass (turns_seen pass.new.seat) }
    ensures put_back { IsBackResult N.seat (held_claim held) pass.old.seat pass.new.seat }
{
    desk.put_back(pass, held);
}

/// Makes delivery steps, each at a reading of its own, until no duty is due, `budget` steps were made, or a fault stops them. Between the steps
/// and during a send other passes can make turns.
pub(crate) fn deliver<Rt: Wait, D: Disk, L: Link, C: Clock>(
    desk: Desk<'_, Rt, D>,
    pass: &mut Pass<Book<D>>,
    link: &mut L,
    clock: &mut C,
    budget: u32,
) -> Stepped
    requires here { pass.old.seat.table_id ≡ desk.hall.now.table.shared.table_id }
    requires free { IsFree pass.old.seat }
    requires book { IsBook (turns_seen pass.old.seat) }
    requires rests { Rests (number_of pass.old.seat) (turns_seen pass.old.seat) }
    ensures pass { IsSamePass pass.old.seat pass.new.seat × IsFree pass.new.seat }
    ensures book { IsBook (turns_seen pass.new.seat) }
    ensures more { SeesMore pass.old.seat pass.new.seat }
    ensures rests { Rests (number_of pass.old.seat) (turns_seen pass.new.seat) }
    ensures delivers { Delivers (seat_of desk.entry.connection pass.old.seat) budget (turns_seen pass.old.seat) (turns_seen pass.new.seat)
        (outside (C.gave clock.old) (L.exchanges link.old) (L.faults link.old))
        (outside (C.gave clock.new) (L.exchanges link.new) (L.faults link.new)) result }
{
    deliver_by::<Brand, Rt, D, L, C>(desk, pass, link, clock, budget)
}

fn deliver_by<N: Naming, Rt: Wait, D: Disk, L: Link, C: Clock>(
    desk: Desk<'_, Rt, D>,
    pass: &mut Pass<Book<D>>,
    link: &mut L,
    clock: &mut C,
    budget: u32,
) -> Stepped
    requires hall { (desk.hall.now.table.shared.table_id ≡ N.hall) × (pass.old.seat.table_id ≡ N.hall) }
    requires free { IsFree pass.old.seat }
    requires seat { seat_of desk.connection pass.old.seat ≡ N.seat }
    requires passes { (pass.old.seat.me.0.passes ≡ N.passes) × (pass.old.seat.me.0.made ≡ N.made) }
    requires book { IsBook (turns_seen pass.old.seat) }
    requires rests { Rests N.seat.pass (turns_seen pass.old.seat) }
    ensures free { IsFree pass.new.seat }
    ensures pass { IsSamePass pass.old.seat pass.new.seat }
    ensures book { IsBook (turns_seen pass.new.seat) }
    ensures more { SeesMore pass.old.seat pass.new.seat }
    ensures rests { Rests N.seat.pass (turns_seen pass.new.seat) }
    ensures delivers { Delivers N.seat budget (turns_seen pass.old.seat) (turns_seen pass.new.seat)
        (outside (C.gave clock.old) (L.exchanges link.old) (L.faults link.old))
        (outside (C.gave clock.new) (L.exchanges link.new) (L.faults link.new)) result }
{
    let mut seated: Seated<'_, Pass<Book<D>>, _, _, _, N> = Seated {
        pass,
        claim: move |pass: &mut Pass<Book<D>>, reading: u64|
            requires hall { desk.hall.now.table.shared.table_id ≡ N.hall }
            requires named { desk.connection ≡ N.seat.connection }
            requires seated { IsSeated N.hall N.seat N.passes N.made pass.old.seat }
            requires reading { IsMoment reading }
            requires rests { Rests N.seat.pass (turns_seen pass.old.seat) }
            ensures seated { IsSeated N.hall N.seat N.passes N.made pass.new.seat }
            ensures claimed { IsClaimResult N.seat reading pass.old.seat pass.new.seat result }
        { claim_at::<N, Rt, D>(desk, pass, reading) },
        record_of: move |pass: &mut Pass<Book<D>>, held: Held, outcome: Outcome|
            requires hall { desk.hall.now.table.shared.table_id ≡ N.hall }
            requires named { desk.connection ≡ N.seat.connection }
            requires seated { IsSeated N.hall N.seat N.passes N.made pass.old.seat }
            requires holds { Holds N.seat.pass (turns_seen pass.old.seat) (held_claim held) }
            requires fits { FitsClaim (held_claim held) outcome }
            ensures seated { IsSeated N.hall N.seat N.passes N.made pass.new.seat }
            ensures rests { Rests N.seat.pass (turns_seen pass.new.seat) }
            ensures recorded { IsRecordResult N.seat (held_claim held) outcome pass.old.seat pass.new.seat result }
        { record_at::<N, Rt, D>(desk, pass, held, outcome) },
        put_back: move |pass: &mut Pass<Book<D>>, held: Held|
            requires hall { desk.hall.now.table.shared.table_id ≡ N.hall }
            requires named { desk.connection ≡ N.seat.connection }
            requires seated { IsSeated N.hall N.seat N.passes N.made pass.old.seat }
            requires holds { Holds N.seat.pass (turns_seen pass.old.seat) (held_claim held) }
            requires needed { NeedsSend (held_claim held) }
            ensures seated { IsSeated N.hall N.seat N.passes N.made pass.new.seat }
            ensures rests { Rests N.seat.pass (turns_seen pass.new.seat) }
            ensures put_back { IsBackResult N.seat (held_claim held) pass.old.seat pass.new.seat }
        { put_back_at::<N, Rt, D>(desk, pass, held) },
        of: PhantomData,
    };
    turn(&mut seated, link, clock, budget)
}
