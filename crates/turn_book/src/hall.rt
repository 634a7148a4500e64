//! The hall, which keeps the value, and its passes.
ghost use Rattle.std.specs.Prelude.{◌≡◌, ℕ, ◌+◌, ◌<◌, [], ◌∷◌, ◌++◌, length, map, All, IfOk, IfErr, IfSome, IfNone, None};
ghost use mathlib.Core.List.{IsPrefix};
ghost use Rattle.turn_book.specs.Rule.{turns_by, opener, newcomer, waiting, holding, Learns, IsUnmade};
ghost use Rattle.turn_book.specs.Passes.{view, known_by, IsFree, HasTurn, IsSamePass, HasSameTurn, Extends};

use crate::fault::NoMemory;
use crate::story::Story;
use crate::view::{Another, Ask, Come, Gather, Give, Learn, Look, Note, Turns, View};
use atomic_table::{Seat, Table};
use std::alloc::Global;
use std::hint::spin_loop;
use std::snapshot::Snapshot;
use std::sync::Wait;
use std::sync::atomic::{AtomicU64, Ordering};

/// Words of the table: the next ticket, and the ticket whose turn it is.
const TICKET: usize = 0;

const SERVING: usize = 1;

const SLOT: usize = 0;
/// From here on a pass waits forever, so that no ticket comes twice.
const LAST_TICKET: u64 = 1 << 63;
/// How often a pass looks whether the turn is free before it sleeps.
const LOOKS: u32 = 100;

/// One value that threads change in turns.
#[derive(Drop)]
pub struct Hall<V: Story> {
    table: Table<Option<V>, View<V::Turn>, Snapshot<V>, Turns<V>, Global>,
    /// 1 if a pass may sleep that nobody was told to wake.
    asleep: AtomicU64,
    /// How often a pass was to be woken. Passes sleep on it.
    bell: AtomicU64,
    seats: u32,
    pub ghost shape: { (table.shared.table_id.words ≡ 2) × (table.shared.table_id.slots ≡ 1) },
}

/// A thread's right to take turns, with what it has seen of the history.
#[derive(Drop)]
pub struct Pass<V: Story> {
    seat: Seat<Option<V>, View<V::Turn>>,
    number: u64,
    made: u64,
    pub ghost is_pass: { (seat.me.0.number ≡ number) × (seat.me.0.passes ≡ 1) × (seat.me.0.made ≡ made) },
}

impl<V: Story> Pass<V> {
    /// The number of the pass, from 0.
    pub fn number(&self) -> u64
        ensures { result ≡ (view self.now.seat).number }
    {
        self.number
    }
}

impl<V: Story> Hall<V> {
    /// The hall with its first pass, which makes the others. At most `seats` passes are made, this one counted.
    /// `Err` returns the value: out of memory.
    pub fn make(alloc: Global, value: V, seats: u32) -> Result<(Hall<V>, Pass<V>), (NoMemory, V)>
        requires sound { V.sound value }
        requires unmade { (n : ℕ) → turns_by V.made_by n (V.turns value) ≡ [] }
        ensures ok { IfOk result (λ r. (r.1.seat.table_id ≡ r.0.table.shared.table_id) × (r.0.seats ≡ seats) × IsFree r.1.seat × (view r.1.seat ≡ opener (V.turns value))) }
        ensures err { IfErr result (λ e. e.1 ≡ value) }
    {
        let about = Snapshot::of(&value);
        let mut slots = Vec::new(alloc);
        if let Err(failed) = slots.push(Some(value)) {
            let Some(value) = failed.value else {
                unreachable!()
            };
            slots.destroy_empty();
            return Err((NoMemory, value));
        }
        match Table::new(alloc, &[0, 0], slots, &about) {
            Ok((table, seat)) => {
                let hall = Hall {
                    table,
                    asleep: AtomicU64::new(0),
                    bell: AtomicU64::new(0),
                    seats,
                };
                let pass = Pass {
                    seat,
                    number: 0,
                    made: 1,
                };
                Ok((hall, pass))
            }
            Err(refused) => {
                let mut slots = refused.slots;
                let Some(Some(value)) = slots.pop() else {
                    unreachable!()
                };
                slots.destroy_empty();
                Err((NoMemory, value))
            }
        }
    }

    /// One more pass, which has made no turn. Both have then seen the history as it is. Only the pass of `make` makes passes.
    pub fn another(&self, pass: &mut Pass<V>) -> Pass<V>
        requires here { pass.old.seat.table_id ≡ self.now.table.shared.table_id }
        requires maker { 0 < (view pass.old.seat).made }
        requires room { (view pass.old.seat).made < self.now.seats }
        ensures pass { (pass.new.seat.table_id ≡ pass.old.seat.table_id) × HasSameTurn pass.old.seat pass.new.seat × ((view pass.new.seat).number ≡ (view pass.old.seat).number) }
        ensures made { (view pass.new.seat).made ≡ (view pass.old.seat).made + 1 }
        ensures learns { Learns V.made_by (view pass.old.seat) (view pass.new.seat).seen }
        ensures new { (result.seat.table_id ≡ pass.old.seat.table_id) × IsFree result.seat × (view result.seat ≡ newcomer (view pass.old.seat).made (view pass.new.seat).seen) }
        ensures no_turn { turns_by V.made_by (view pass.old.seat).made (view pass.new.seat).seen ≡ [] }
    {
        let shared = &self.table.shared;
        shared.load::<Look>(&mut pass.seat, TICKET);
        let number = pass.made;
        let seat = shared.split_seat::<Another>(&mut pass.seat);
        pass.made = number + 1;
        Pass {
            seat,
            number,
            made: 0,
        }
    }

    // Draws a ticket, if no pass has the turn.
    fn draw(&self, pass: &mut Pass<V>) -> Option<u64>
        requires here { pass.old.seat.table_id ≡ self.now.table.shared.table_id }
        requires free { IsFree pass.old.seat }
        ensures same { pass.new.seat.table_id ≡ pass.old.seat.table_id }
        ensures none { IfNone result (pass.new.seat.me ≡ pass.old.seat.me) }
        ensures drawn { IfSome result (λ t. pass.new.seat.me ≡ (waiting (view pass.old.seat) t, [])) }
    {
        let shared = &self.table.shared;
        let ticket = shared.peek(TICKET);
        if ticket < LAST_TICKET && shared.peek(SERVING) == ticket {
            let found = shared.compare_exchange::<Ask>(&mut pass.seat, TICKET, ticket, ticket + 1);
            if found == ticket {
                return Some(ticket);
            }
        }
        None
    }

    // Looks a bounded number of times whether no pass has the turn, and then draws a ticket.
    fn watch(&self, pass: &mut Pass<V>) -> Option<u64>
        requires here { pass.old.seat.table_id ≡ self.now.table.shared.table_id }
        requires free { IsFree pass.old.seat }
        ensures same { pass.new.seat.table_id ≡ pass.old.seat.table_id }
        ensures none { IfNone result (pass.new.seat.me ≡ pass.old.seat.me) }
        ensures drawn { IfSome result (λ t. pass.new.seat.me ≡ (waiting (view pass.old.seat) t, [])) }
    {
        for _ in 0..LOOKS {
            match self.draw(pass) {
                Some(ticket) => return Some(ticket),
                None => spin_loop(),
            }
        }
        None
    }

    // Waits until no pass has the turn, and draws a ticket.
    fn ask<R: Wait>(&self, rt: &R, pass: &mut Pass<V>) -> u64
        requires here { pass.old.seat.table_id ≡ self.now.table.shared.table_id }
        requires free { IsFree pass.old.seat }
        ensures same { pass.new.seat.table_id ≡ pass.old.seat.table_id }
        ensures drawn { pass.new.seat.me ≡ (waiting (view pass.old.seat) result, []) }
    {
        match self.watch(pass) {
            Some(ticket) => ticket,
            None => {
                let ticket = self.sleep(rt, pass);
                // The wake that ended the sleep took the mark. Others may sleep still, so the end of this turn has to wake one.
                self.asleep.store(1, Ordering::SeqCst);
                ticket
            }
        }
    }

    // Sleeps until no pass has the turn, and draws a ticket.
    fn sleep<R: Wait>(&self, rt: &R, pass: &mut Pass<V>) -> u64
        requires here { pass.old.seat.table_id ≡ self.now.table.shared.table_id }
        requires free { IsFree pass.old.seat }
        ensures same { pass.new.seat.table_id ≡ pass.old.seat.table_id }
        ensures drawn { pass.new.seat.me ≡ (waiting (view pass.old.seat) result, []) }
    {
        for _ in rt.forever() {
            // A ring after this load ends the sleep. After the store each turn that ends finds the mark and rings, or another one took it and
            // rings. So no turn ends between the look and the sleep without a ring.
            let rings = self.bell.load(Ordering::SeqCst);
            self.asleep.store(1, Ordering::SeqCst);
            match self.draw(pass) {
                Some(ticket) => return ticket,
                None => (),
            }
            self.bell.park(rt, (rings % (1 << 32)) as u32);
            match self.watch(pass) {
                Some(ticket) => return ticket,
                None => (),
            }
        }
        unreachable!()
    }

    // The value, if the turn of this ticket has come.
    fn enter(&self, pass: &mut Pass<V>, ticket: u64) -> Option<V>
        requires here { pass.old.seat.table_id ≡ self.now.table.shared.table_id }
        requires waits { ((view pass.old.seat).stage ≡ 1) × ((view pass.old.seat).ticket ≡ ticket) × (pass.old.seat.me.1 ≡ []) }
        ensures same { pass.new.seat.table_id ≡ pass.old.seat.table_id }
        ensures none { IfNone result (pass.new.seat.me ≡ pass.old.seat.me) }
        ensures some { IfSome result (λ x. (pass.new.seat.me ≡ (holding (view pass.old.seat) (V.turns x), (0, None) ∷ [])) × V.sound x × Learns V.made_by (view pass.old.seat) (V.turns x)) }
    {
        if self.table.shared.load::<Come>(&mut pass.seat, SERVING) == ticket {
            self.table.shared.exchange(&mut pass.seat, SLOT, None)
        } else {
            None
        }
    }

    /// Waits for the pass's turn, and takes the value. Since the pass saw the history, only turns of other passes were added.
    /// Not specified: that the turn comes.
    pub fn take<R: Wait>(&self, rt: &R, pass: &mut Pass<V>) -> V
        requires here { pass.old.seat.table_id ≡ self.now.table.shared.table_id }
        requires free { IsFree pass.old.seat }
        ensures pass { IsSamePass pass.old.seat pass.new.seat × HasTurn pass.new.seat }
        ensures seen { (view pass.new.seat).seen ≡ V.turns result }
        ensures history { Learns V.made_by (view pass.old.seat) (V.turns result) }
        ensures sound { V.sound result }
    {
        let ticket = self.ask(rt, pass);
        for _ in rt.forever() {
            match self.enter(pass, ticket) {
                Some(value) => return value,
                None => spin_loop(),
            }
        }
        unreachable!()
    }

    /// Ends the turn. The value's list is the one taken, and then turns that each name this pass or no pass.
    pub fn give(&self, pass: &mut Pass<V>, value: V)
        requires here { pass.old.seat.table_id ≡ self.now.table.shared.table_id }
        requires turn { HasTurn pass.old.seat }
        requires longer { Extends V.made_by (view pass.old.seat).number (view pass.old.seat).seen (V.turns value) }
        requires sound { V.sound value }
        ensures pass { IsSamePass pass.old.seat pass.new.seat × IsFree pass.new.seat }
        ensures seen { (view pass.new.seat).seen ≡ V.turns value }
    {
        let shared = &self.table.shared;
        let before = shared.exchange(&mut pass.seat, SLOT, Some(value));
        let None = before else { unreachable!() };
        shared.fetch_add::<Give>(&mut pass.seat, SERVING, 1);
        self.wake();
    }

    // Wakes a pass, if one may sleep.
    fn wake(&self) {
        if self.asleep.load(Ordering::SeqCst) != 0 && self.asleep.swap(0, Ordering::SeqCst) != 0 {
            self.bell.fetch_add(1, Ordering::SeqCst);
            self.bell.wake_one();
        }
    }

    // The pass has then seen what the other one had.
    fn learn(&self, pass: &mut Pass<V>, other: &mut Pass<V>)
        requires here { (pass.old.seat.table_id ≡ self.now.table.shared.table_id) × (other.old.seat.table_id ≡ self.now.table.shared.table_id) }
        ensures pass { IsSamePass pass.old.seat pass.new.seat × HasSameTurn pass.old.seat pass.new.seat }
        ensures other { (other.new.seat.table_id ≡ other.old.seat.table_id) × (other.new.seat.me ≡ other.old.seat.me) }
        ensures learns { Learns V.made_by (view pass.old.seat) (view pass.new.seat).seen × IsPrefix (view other.old.seat).seen (view pass.new.seat).seen }
    {
        let shared = &self.table.shared;
        let note = shared.split_seat::<Note>(&mut other.seat);
        shared.join_seat::<Learn>(&mut pass.seat, note);
        shared.load::<Look>(&mut pass.seat, TICKET);
    }

    /// Each of two passes has then seen all that either had seen.
    pub fn meet(&self, one: &mut Pass<V>, two: &mut Pass<V>)
        requires here { (one.old.seat.table_id ≡ self.now.table.shared.table_id) × (two.old.seat.table_id ≡ self.now.table.shared.table_id) }
        ensures one { IsSamePass one.old.seat one.new.seat × HasSameTurn one.old.seat one.new.seat × Learns V.made_by (view one.old.seat) (view one.new.seat).seen }
        ensures two { IsSamePass two.old.seat two.new.seat × HasSameTurn two.old.seat two.new.seat × Learns V.made_by (view two.old.seat) (view two.new.seat).seen }
        ensures both { IsPrefix (view two.old.seat).seen (view one.new.seat).seen × IsPrefix (view one.new.seat).seen (view two.new.seat).seen }
    {
        self.learn(one, two);
        self.learn(two, one);
    }

    // The seat then represents the other passes too, and has seen what they had.
    fn gather(&self, seat: &mut Seat<Option<V>, View<V::Turn>>, others: Vec<Pass<V>>)
        requires here { seat.old.table_id ≡ self.now.table.shared.table_id }
        requires others { All (λ p. (p.seat.table_id ≡ self.now.table.shared.table_id) × IsFree p.seat) others.items }
        requires pass { 0 < (view seat.old).passes }
        ensures same { (seat.new.table_id ≡ seat.old.table_id) × HasSameTurn seat.old seat.new × ((view seat.new).made ≡ (view seat.old).made) × ((view seat.new).number ≡ (view seat.old).number) }
        ensures all { (view seat.new).passes ≡ (view seat.old).passes + length others.items }
        ensures learns { Learns V.made_by (view seat.old) (view seat.new).seen }
        ensures joined { (view seat.new).joined ≡ map (λ p. known_by p.seat) others.items ++ (view seat.old).joined }
    {
        let mut others = others;
        while let Some(other) = others.pop() {
            let Pass {
                seat: other,
                number: _,
                made: _,
            } = other;
            self.table.shared.join_seat::<Gather>(seat, other);
            self.table.shared.load::<Look>(seat, TICKET);
        }
    }

    // The value, if this seat represents all passes.
    fn empty(self, seat: Seat<Option<V>, View<V::Turn>>) -> V
        requires here { seat.table_id ≡ self.table.shared.table_id }
        requires all { (0 < (view seat).made) × ((view seat).passes ≡ (view seat).made) × ((view seat).stage ≡ 0) }
        ensures history { Learns V.made_by (view seat) (V.turns result) }
        ensures joined { All (λ p. IsPrefix p.1 (V.turns result) × (turns_by V.made_by p.0 (V.turns result) ≡ turns_by V.made_by p.0 p.1)) (view seat).joined }
        ensures unmade { IsUnmade V.made_by (view seat).made (V.turns result) }
        ensures sound { V.sound result }
    {
        let Hall {
            table,
            asleep: _,
            bell: _,
            seats: _,
        } = self;
        let mut closed = table.close_with(seat);
        let value = closed.take(SLOT);
        closed.free();
        let Some(value) = value else { unreachable!() };
        value
    }

    /// The value, in return for all passes. Its history begins with what each pass has seen, and has no more turns of it, and none of
    /// any other pass.
    pub fn close(self, pass: Pass<V>, others: Vec<Pass<V>>) -> V
        requires pass { (pass.seat.table_id ≡ self.table.shared.table_id) × IsFree pass.seat }
        requires others { All (λ p. (p.seat.table_id ≡ self.table.shared.table_id) × IsFree p.seat) others.items }
        requires all { (view pass.seat).made ≡ 1 + length others.items }
        ensures history { Learns V.made_by (view pass.seat) (V.turns result) }
        ensures others { All (λ p. Learns V.made_by (view p.seat) (V.turns result)) others.items }
        ensures unmade { IsUnmade V.made_by (view pass.seat).made (V.turns result) }
        ensures sound { V.sound result }
    {
        let Pass {
            mut seat,
            number: _,
            made: _,
        } = pass;
        self.gather(&mut seat, others);
        self.empty(seat)
    }
}
