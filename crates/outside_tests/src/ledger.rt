//! A list of turns, as the value that threads share, and a door in memory.
ghost use Rattle.std.specs.Prelude.{◌≡◌, ◌⊎◌, ◌==◌, ◌≤◌, length, true, Some, MatchBool};
ghost use Rattle.std.specs.List.{list_any};
ghost use Rattle.turn_book.specs.Rule.{Learns};
ghost use Rattle.turn_book.specs.Passes.{view, IsFree, IsSamePass, Extends};

use bus_host::{Door, Knock, MemDoor, Plan};
use router_disk::{MemSink, MemSource, Sink};
use shared_door::Served;
use std::alloc::Global;
use std::collections::LinkedList;
use std::process::Abort;
use std::sync::Wait;
use turn_book::{Hall, Pass, Story};

/// A list of turns: the pass that made each, and the connection that it served.
#[derive(Drop)]
pub(crate) struct Ledger {
    pub(crate) entries: Vec<(u64, u64)>,
}

impl Story for Ledger {
    ghost use Rattle.std.specs.Prelude.{Some};

    type Turn = (u64, u64);

    ghost turns = { λ l. l.entries.items };

    ghost made_by = { λ t. Some t.0 };

    ghost sound = { λ _. Unit {0} };
}

impl<I, O> Served<I, O> for Ledger {
    ghost use Rattle.std.specs.Prelude.{◌≡◌, ◌⊎◌, ◌==◌, ◌||◌, ◌≤◌, length, true};
    ghost use Rattle.std.specs.List.{list_any};
    ghost use Rattle.std.proofs.Common.{ap, sym, subst, ◌∙◌, inl, inr, ⊎_elim, length-append};
    ghost use Rattle.std.proofs.Math.Nat.{le_trans, le-add_right};
    ghost use Rattle.std.proofs.lemmas.List.Folds.{list_any-append};

    // A turn served the connection, unless out of memory ended it.
    ghost fits = { λ n _ _ cut _ turns. (cut ≡ true) ⊎ (list_any (λ t. t.1 == n) turns ≡ true) };

    ghost lasts = { λ n _ _ cut _ turns more h.
        ⊎_elim (λ e. inl e) (λ e. inr (list_any-append (λ t. t.1 == n) turns more ∙ ap (λ b. b || list_any (λ t. t.1 == n) more) e)) h };

    // A pass never has anything open.
    ghost rests = { λ _ _. Unit {0} };

    ghost unturned = { λ _ _ _. tt };

    ghost keeps = { λ _ _ _ _ _ _. tt };

    // Five turns are enough.
    ghost stops = { λ turns. 5 ≤ length turns };

    ghost stays = { λ seen turns pre five. subst (λ l. 5 ≤ length l) pre.1
        (subst (λ n. 5 ≤ n) (sym (length-append seen pre.0)) (le_trans five (le-add_right (length seen) (length pre.0)))) };
}

/// Adds a turn. True: out of memory.
pub(crate) fn add(ledger: Ledger, pass: u64, connection: u64) -> (Ledger, bool)
    ensures longer { Extends (λ t. Some t.0) pass ledger.entries.items result.0.entries.items }
    ensures served { (result.1 ≡ true) ⊎ (list_any (λ t. t.1 == connection) result.0.entries.items ≡ true) }
{
    let mut ledger = ledger;
    let cut = ledger.entries.push((pass, connection)).is_err();
    (ledger, cut)
}

/// Whether the ledger has fewer than five turns.
pub(crate) fn goes_on<R: Wait>(rt: &R, hall: &Hall<Ledger>, pass: &mut Pass<Ledger>) -> bool
    requires here { pass.old.seat.table_id ≡ hall.now.table.shared.table_id }
    requires free { IsFree pass.old.seat }
    ensures pass { IsSamePass pass.old.seat pass.new.seat × IsFree pass.new.seat
        × Learns (λ t. Some t.0) (view pass.old.seat) (view pass.new.seat).seen }
    ensures stops { MatchBool result (¬ (5 ≤ length (view pass.new.seat).seen)) (5 ≤ length (view pass.new.seat).seen) }
{
    let ledger = hall.take(rt, pass);
    let goes_on = ledger.entries.len() < 5;
    hall.give(pass, ledger);
    goes_on
}

/// A hall for so many passes, with the first of them.
pub(crate) fn make_hall<R: Abort>(rt: &R, alloc: Global, seats: u32) -> (Hall<Ledger>, Pass<Ledger>)
    ensures hall { (result.1.seat.table_id ≡ result.0.table.shared.table_id) × (result.0.seats ≡ seats) }
    ensures pass { IsFree result.1.seat × ((view result.1.seat).made ≡ 1) }
{
    let ledger = Ledger {
        entries: Vec::new(alloc),
    };
    match Hall::make(alloc, ledger, seats) {
        Ok(made) => made,
        Err(_) => panic!(rt; "out of memory"),
    }
}

/// The number of turns of each connection from 0 to 4.
pub(crate) fn turns_of(ledger: &Ledger) -> [u32; 5] {
    let mut turns = [0u32; 5];
    for entry in ledger.entries.as_slice() {
        if entry.1 < 5 {
            turns[entry.1 as usize] = turns[entry.1 as usize].saturating_add(1);
        }
    }
    turns
}

/// A plan by its letter: `C` is a connection, `q` quiet, `f` a failure and `m` out of memory.
fn plan(alloc: Global, letter: u8) -> Plan<MemSource, MemSink> {
    match letter {
        b'C' => Plan::Conn(MemSource::new(Vec::new(alloc)), MemSink::new(alloc)),
        b'q' => Plan::Quiet,
        b'f' => Plan::Failed,
        _ => Plan::NoMemory,
    }
}

/// A door with a plan for each letter.
pub(crate) fn door<R: Abort>(rt: &R, alloc: Global, letters: &str) -> MemDoor<MemSource, MemSink> {
    let mut plans = LinkedList::new(alloc);
    for letter in letters.bytes() {
        plans
            .push_back(plan(alloc, letter))
            .expect(rt, "out of memory");
    }
    MemDoor::new(alloc, plans)
}

/// A letter for what a door gives; `c` if it is closed. A connection gets `pong`, and ends as out of memory ends it.
pub(crate) fn knock<D: Door>(door: &mut D) -> u8 {
    match door.next() {
        Knock::Conn(input, mut output) => {
            let written = output.write_all(b"pong");
            door.done(input, output, true);
            if written.is_ok() { b'C' } else { b'w' }
        }
        Knock::Quiet => b'q',
        Knock::Closed => b'c',
        Knock::Failed => b'f',
        Knock::NoMemory => b'm',
    }
}
