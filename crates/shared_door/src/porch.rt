//! The porch: what the door's lock has.
ghost use Rattle.std.specs.Prelude.{◌≡◌, ◌≢◌, ◌+◌, ◌-◌, ◌^◌, ◌<◌, Some, None, [], ◌∷◌, ◌++◌, MatchBool, MatchOption};
ghost use mathlib.Core.List.{IsPrefix};
ghost use Rattle.turn_book.specs.Rule.{Learns, turns_by};
ghost use Rattle.turn_book.specs.Passes.{view, IsFree, IsSamePass};
ghost use Rattle.shared_door.specs.declared.acts.Act.TheVariants as act;
ghost use Rattle.shared_door.specs.Shown.{shown_by};
ghost use Rattle.shared_door.specs.Acts.{over_in, IsOver};
ghost use Rattle.shared_door.specs.Visits.{Gave, Visited, IsOneFewer};
ghost use Rattle.shared_door.specs.Knocks.{Knocks, CameBack, tickets_of, number_of, arrival_of, came_of, seen_of};

use crate::acts::{Act, Arrival, Visit, turns_seen};
use crate::connection::{Connection, Knocked, Over, Standing};
use crate::naming::Naming;
use crate::served::Served;
use crate::tickets::Tickets;
use bus_host::{Door, Knock};
use growing_list::{Front, GrowingList, Listed};
use std::marker::{Model, PhantomData};
use std::snapshot::Snapshot;
use turn_book::{Hall, Pass, Story};

/// A door that workers share, beside what it needs to tie each connection that ended to the history of a hall. Contracts
/// see it as its `PorchState`.
pub struct Porch<'a, V: Served<D::In, D::Out>, D: Door, N: Naming<D::In, D::Out>> {
    door: D,
    hall: &'a Hall<V>,
    pass: Pass<V>,
    tickets: Tickets<Arrival<D::In, D::Out, V::Turn>>,
    standing: Standing,
    acts: GrowingList<Act<D::In, D::Out, V::Turn>>,
    of: PhantomData<N>,
}

impl<'a, V: Served<D::In, D::Out>, D: Door, N: Naming<D::In, D::Out>> Model for Porch<'a, V, D, N> {
    ghost use Rattle.std.specs.Prelude.{◌≡◌, []};
    ghost use Rattle.turn_book.specs.Rule.{turns_by};
    ghost use Rattle.turn_book.specs.Passes.{IsFree};
    ghost use Rattle.shared_door.specs.Shown.{shown_by};
    ghost use Rattle.shared_door.specs.Porches.{PorchState, Keeps};

    ghost Value = { PorchState D.In D.Out V.Turn };

    ghost view = { λ p. record { standing = p.standing; acts = p.acts.items; seen = p.pass.seat.me.0.seen } };

    ghost invariant = { λ p.
        ((p.hall.now.table.shared.table_id ≡ N.hall) × (p.pass.seat.table_id ≡ N.hall) × IsFree p.pass.seat
        × (p.pass.seat.me.0.number ≡ N.pass) × (turns_by V.made_by N.pass p.pass.seat.me.0.seen ≡ []))
        × ((p.tickets.seat.table_id ≡ N.tickets) × (p.tickets.given ≡ p.standing.gave) × (p.acts.name ≡ N.acts))
        × Keeps N.most N.start (shown_by D.faults D.ahead D.given D.ended D.gave D.took_back D.closed p.door)
        V.fits V.stops (record { standing = p.standing; acts = p.acts.items; seen = p.pass.seat.me.0.seen }) p.tickets.seat.me.0.given p.tickets.seat.me.0.back };
}

impl<'a, V: Served<D::In, D::Out>, D: Door, N: Naming<D::In, D::Out>> Porch<'a, V, D, N> {
    /// The porch of a door. Its pass made no turn. `connections` is how many it may give; `None` is no limit.
    pub fn open(
        door: D,
        hall: &'a Hall<V>,
        pass: Pass<V>,
        tickets: Tickets<Arrival<D::In, D::Out, V::Turn>>,
        acts: GrowingList<Act<D::In, D::Out, V::Turn>>,
        connections: Option<u64>,
    ) -> Porch<'a, V, D, N>
        requires here { (hall.now.table.shared.table_id ≡ N.hall) × (pass.seat.table_id ≡ N.hall) × IsFree pass.seat }
        requires unturned { ((view pass.seat).number ≡ N.pass) × (turns_by V.made_by N.pass (view pass.seat).seen ≡ []) }
        requires tickets { (tickets.seat.table_id ≡ N.tickets) × (tickets.given ≡ 0) × (tickets.seat.me.0.back ≡ []) }
        requires acts { (acts.name ≡ N.acts) × (acts.items ≡ []) }
        requires most { connections ≡ N.most }
        requires door { shown_by D.faults D.ahead D.given D.ended D.gave D.took_back D.closed door ≡ N.start }
        ensures { result ≡ record { standing = record { gave = 0; left = connections; over = None }; acts = []; seen = (view pass.seat).seen } }
    {
        let standing = Standing {
            gave: 0,
            left: connections,
            over: None,
        };
        Porch {
            door,
            hall,
            pass,
            tickets,
            standing,
            acts,
            of: PhantomData,
        }
    }

    /// Where the porch is.
    pub fn standing(&self) -> Standing
        ensures { result ≡ self.now.standing }
    {
        self.standing
    }

    /// The next connection, or why there is none. The caller has seen no reason to stop the porch (`stop`). Once the porch is over, each
    /// call returns the same, without asking the door. From 2^64 - 1 connections on it returns `Quiet`. The pass has then seen what the
    /// porch's pass had seen.
    pub fn knock(&mut self, pass: &mut Pass<V>) -> Knocked<D, V::Turn>
        requires here { (pass.old.seat.table_id ≡ N.hall) × IsFree pass.old.seat }
        requires goes_on { ¬ V.stops (view pass.old.seat).seen }
        ensures knocks { Knocks N.tickets N.acts self.old self.new result }
        ensures pass { IsSamePass pass.old.seat pass.new.seat × IsFree pass.new.seat × Learns V.made_by (view pass.old.seat) (view pass.new.seat).seen }
        ensures seen { IsPrefix self.old.seen self.new.seen × IsPrefix self.new.seen (view pass.new.seat).seen }
    {
        self.meet(pass);
        match self.standing.over {
            Some(Over::Closed) => Knocked::Closed(self.acts.front()),
            Some(Over::Failed) => Knocked::Failed(self.acts.front()),
            Some(Over::Stopped) => Knocked::Stopped(self.acts.front()),
            None => self.ask(),
        }
    }

    /// Stops the porch, since the history that the caller has seen says so: no further connection is given. A porch that is over stays as it
    /// is. The front has the act by which it is over.
    pub fn stop(&mut self, caller: &mut Pass<V>) -> Front<Act<D::In, D::Out, V::Turn>>
        requires here { (caller.old.seat.table_id ≡ N.hall) × IsFree caller.old.seat }
        requires stops { V.stops (view caller.old.seat).seen }
        ensures stopped { MatchOption self.old.standing.over (self.new.standing ≡ record self.old.standing { over = Some Over.Stopped })
            (λ _. self.new.standing ≡ self.old.standing) }
        ensures over { (result.name ≡ N.acts) × (result.items ≡ self.new.acts) × IsOver result.items }
        ensures pass { IsSamePass caller.old.seat caller.new.seat × IsFree caller.new.seat × Learns V.made_by (view caller.old.seat) (view caller.new.seat).seen }
        ensures seen { IsPrefix self.old.seen self.new.seen × IsPrefix self.new.seen (view caller.new.seat).seen }
    {
        self.meet(caller);
        match self.standing.over {
            Some(_) => self.acts.front(),
            None => self.end_stopped(),
        }
    }

    // The porch gives no more connections, since the history that its pass has seen says so.
    fn end_stopped(&mut self) -> Front<Act<D::In, D::Out, V::Turn>>
        requires going { self.old.standing.over ≡ None }
        requires stops { V.stops self.old.seen }
        ensures standing { self.new.standing ≡ record self.old.standing { over = Some Over.Stopped } }
        ensures front { (result.name ≡ N.acts) × (result.items ≡ self.new.acts) }
        ensures over { IsOver self.new.acts }
        ensures seen { self.new.seen ≡ self.old.seen }
    {
        end(&mut self.standing, &mut self.acts, Over::Stopped)
    }

    // Each of the two passes has then seen what the other had.
    fn meet(&mut self, pass: &mut Pass<V>)
        requires here { (pass.old.seat.table_id ≡ N.hall) × IsFree pass.old.seat }
        ensures same { (self.new.standing ≡ self.old.standing) × (self.new.acts ≡ self.old.acts) }
        ensures pass { IsSamePass pass.old.seat pass.new.seat × IsFree pass.new.seat × Learns V.made_by (view pass.old.seat) (view pass.new.seat).seen }
        ensures seen { IsPrefix self.old.seen self.new.seen × IsPrefix self.new.seen (view pass.new.seat).seen }
        ensures both { IsPrefix (view pass.old.seat).seen self.new.seen }
    {
        self.hall.meet(&mut self.pass, pass);
    }

    // Asks the door for a connection, unless it gave all that it may.
    fn ask(&mut self) -> Knocked<D, V::Turn>
        requires going { self.old.standing.over ≡ None }
        ensures knocks { Knocks N.tickets N.acts self.old self.new result }
        ensures seen { self.new.seen ≡ self.old.seen }
    {
        if gave_all(self.standing.left) {
            let front = end(&mut self.standing, &mut self.acts, Over::Closed);
            return Knocked::Closed(front);
        }
        if self.standing.gave == u64::MAX {
            return Knocked::Quiet;
        }
        match self.door.next() {
            Knock::Conn(input, output) => {
                self.standing.gave += 1;
                self.standing.left = one_fewer(self.standing.left);
                let number = self.standing.gave;
                let came = enter(
                    &mut self.tickets,
                    &mut self.acts,
                    &self.pass,
                    number,
                    input,
                    output,
                );
                Knocked::Conn(came)
            }
            Knock::Quiet => Knocked::Quiet,
            Knock::NoMemory => Knocked::NoMemory,
            Knock::Closed => {
                let front = end(&mut self.standing, &mut self.acts, Over::Closed);
                Knocked::Closed(front)
            }
            Knock::Failed => {
                let front = end(&mut self.standing, &mut self.acts, Over::Failed);
                Knocked::Failed(front)
            }
        }
    }

    /// Takes a connection back, after a session. The session's pass had seen `before` when it began. `cut` is true if out of
    /// memory ended it. The front has the act by which it ended.
    pub fn back(
        &mut self,
        connection: Connection<D, V::Turn>,
        before: Listed<V::Turn>,
        cut: bool,
        session: &mut Pass<V>,
    ) -> Front<Act<D::In, D::Out, V::Turn>>
        requires here { (session.old.seat.table_id ≡ N.hall) × IsFree session.old.seat }
        requires own { tickets_of connection ≡ N.tickets }
        requires after { IsPrefix (seen_of connection) before.items }
        requires fits { V.fits (number_of connection) (came_of connection) (connection.input, connection.output) cut before.items (view session.old.seat).seen }
        ensures same { self.new.standing ≡ self.old.standing }
        ensures acts { CameBack self.old self.new connection (view session.old.seat).number before.items cut }
        ensures front { (result.name ≡ N.acts) × (result.items ≡ self.new.acts) }
        ensures pass { IsSamePass session.old.seat session.new.seat × IsFree session.new.seat × Learns V.made_by (view session.old.seat) (view session.new.seat).seen }
        ensures seen { IsPrefix self.old.seen self.new.seen × IsPrefix self.new.seen (view session.new.seat).seen }
    {
        let pass = session.number();
        self.meet(session);
        self.leave(connection, pass, before, cut)
    }

    // Takes back a connection that fits what the porch's pass has seen.
    fn leave(
        &mut self,
        connection: Connection<D, V::Turn>,
        pass: u64,
        before: Listed<V::Turn>,
        cut: bool,
    ) -> Front<Act<D::In, D::Out, V::Turn>>
        requires own { tickets_of connection ≡ N.tickets }
        requires after { IsPrefix (seen_of connection) before.items }
        requires fits { V.fits (number_of connection) (came_of connection) (connection.input, connection.output) cut before.items self.old.seen }
        ensures same { (self.new.standing ≡ self.old.standing) × (self.new.seen ≡ self.old.seen) }
        ensures acts { CameBack self.old self.new connection pass before.items cut }
        ensures front { (result.name ≡ N.acts) × (result.items ≡ self.new.acts) }
    {
        let Connection {
            input,
            output,
            ticket,
        } = connection;
        let went = (input, output);
        let (number, arrival) = self.tickets.take(ticket);
        let visit = Visit {
            number,
            pass,
            arrival,
            before,
            went: Snapshot::of(&went),
            cut,
            seen: turns_seen(&self.pass),
        };
        self.acts.push(&Act::Ended(visit));
        let (input, output) = went;
        self.door.done(input, output, cut);
        self.acts.front()
    }

    /// The door, the porch's pass, and what the porch did, once a front of its acts shows that it is over.
    pub fn into_parts(self, over: Front<Act<D::In, D::Out, V::Turn>>) -> Parts<V, D>
        requires over { (over.name ≡ N.acts) × IsOver over.items }
        ensures standing { result.standing ≡ self.entry.standing }
        ensures acts { (result.acts.items ≡ self.entry.acts) × IsPrefix over.items result.acts.items }
        ensures over { result.standing.over ≢ None }
        ensures pass { (result.pass.seat.table_id ≡ N.hall) × IsFree result.pass.seat }
        ensures unturned { ((view result.pass.seat).number ≡ N.pass) × (turns_by V.made_by N.pass (view result.pass.seat).seen ≡ []) }
        ensures gave { Gave N.most N.start (shown_by D.faults D.ahead D.given D.ended D.gave D.took_back D.closed result.door) result.standing result.acts.items }
        ensures visited { Visited N.start (shown_by D.faults D.ahead D.given D.ended D.gave D.took_back D.closed result.door)
            V.fits (view result.pass.seat).seen result.acts.items }
        ensures stopped { result.standing.over ≡ Some Over.Stopped → V.stops (view result.pass.seat).seen }
    {
        let Porch {
            door,
            hall: _,
            pass,
            tickets: _,
            standing,
            acts,
            of: _,
        } = self;
        let mut acts = acts;
        acts.covers(&over);
        Parts {
            door,
            pass,
            standing,
            acts,
        }
    }
}

/// What a porch was made of. `acts` has what it did, for contracts alone.
pub struct Parts<V: Served<D::In, D::Out>, D: Door> {
    pub door: D,
    pub pass: Pass<V>,
    pub standing: Standing,
    pub acts: GrowingList<Act<D::In, D::Out, V::Turn>>,
}

fn gave_all(left: Option<u64>) -> bool
    ensures { MatchBool result (left ≡ Some 0) (left ≢ Some 0) }
{
    left == Some(0)
}

fn one_fewer(left: Option<u64>) -> Option<u64>
    requires { left ≢ Some 0 }
    ensures { IsOneFewer left result }
{
    match left {
        None => None,
        Some(left) => Some(left - 1),
    }
}

// The porch gives no more connections, for this reason. The front has the act that says so.
fn end<I, O, T>(
    standing: &mut Standing,
    acts: &mut GrowingList<Act<I, O, T>>,
    over: Over,
) -> Front<Act<I, O, T>>
    ensures standing { standing.new ≡ record standing.old { over = Some over } }
    ensures acts { (acts.new.name ≡ acts.old.name) × (acts.new.items ≡ acts.old.items ++ act.Over over ∷ []) }
    ensures front { (result.name ≡ acts.new.name) × (result.items ≡ acts.new.items) }
{
    standing.over = Some(over);
    acts.push(&Act::Over(over));
    acts.front()
}

// The connection with the next number.
fn enter<V: Story, D: Door>(
    tickets: &mut Tickets<Arrival<D::In, D::Out, V::Turn>>,
    acts: &mut GrowingList<Act<D::In, D::Out, V::Turn>>,
    pass: &Pass<V>,
    number: u64,
    input: D::In,
    output: D::Out,
) -> Connection<D, V::Turn>
    requires { tickets.old.given < 2 ^ 64 - 1 }
    ensures same { tickets.new.seat.table_id ≡ tickets.old.seat.table_id }
    ensures count { tickets.new.given ≡ tickets.old.given + 1 }
    ensures given { tickets.new.seat.me.0.given ≡ tickets.old.seat.me.0.given ++ arrival_of result ∷ [] }
    ensures back { tickets.new.seat.me.0.back ≡ tickets.old.seat.me.0.back }
    ensures streams { (result.input ≡ input) × (result.output ≡ output) }
    ensures ticket { (tickets_of result ≡ tickets.old.seat.table_id) × (number_of result ≡ tickets.new.given) }
    ensures arrival { ((arrival_of result).number ≡ number) × (came_of result ≡ (input, output)) × (seen_of result ≡ (view pass.now.seat).seen) }
    ensures acts { (acts.new.name ≡ acts.old.name) × (acts.new.items ≡ acts.old.items ++ act.Gave (arrival_of result) ∷ []) }
{
    let came = (input, output);
    let arrival = Arrival {
        number,
        came: Snapshot::of(&came),
        seen: turns_seen(pass),
    };
    let ticket = tickets.give(&arrival);
    acts.push(&Act::Gave(arrival));
    let (input, output) = came;
    Connection {
        input,
        output,
        ticket,
    }
}
