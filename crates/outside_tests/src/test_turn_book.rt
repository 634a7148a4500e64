//! Turns of threads that share a list of turns.
ghost use Rattle.std.specs.Prelude.{◌≡◌, ◌+◌, ◌<◌, length, All};
ghost use Rattle.turn_book.specs.Passes.{view, IsFree, IsSamePass};

use crate::ledger::{Ledger, add, make_hall, turns_of};
use std::alloc::Global;
use std::process::Abort;
use std::sync::Wait;
use std::thread;
use std::thread::Threads;
use turn_book::{Hall, Pass};

// Adds a turn. The pass has its own number as the connection.
fn enter<R: Wait>(rt: &R, hall: &Hall<Ledger>, pass: &mut Pass<Ledger>)
    requires here { pass.old.seat.table_id ≡ hall.now.table.shared.table_id }
    requires free { IsFree pass.old.seat }
    ensures same { IsSamePass pass.old.seat pass.new.seat }
    ensures free { IsFree pass.new.seat }
{
    let number = pass.number();
    let ledger = hall.take(rt, pass);
    hall.give(pass, add(ledger, number, number).0);
}

fn enter_often<R: Wait>(rt: &R, hall: &Hall<Ledger>, pass: &mut Pass<Ledger>, turns: u32)
    requires here { pass.old.seat.table_id ≡ hall.now.table.shared.table_id }
    requires free { IsFree pass.old.seat }
    ensures same { IsSamePass pass.old.seat pass.new.seat }
    ensures free { IsFree pass.new.seat }
{
    for _ in 0..turns {
        enter(rt, hall, pass);
    }
}

// Makes this many more passes, for other threads.
fn more<R: Abort>(
    rt: &R,
    alloc: Global,
    hall: &Hall<Ledger>,
    pass: &mut Pass<Ledger>,
    count: u32,
) -> Vec<Pass<Ledger>>
    requires here { (pass.old.seat.table_id ≡ hall.now.table.shared.table_id) × IsFree pass.old.seat }
    requires first { (view pass.old.seat).made ≡ 1 }
    requires room { count < hall.now.seats }
    ensures pass { (pass.new.seat.table_id ≡ hall.now.table.shared.table_id) × IsFree pass.new.seat }
    ensures made { (view pass.new.seat).made ≡ 1 + length result.items }
    ensures others { All (λ p. (p.seat.table_id ≡ hall.now.table.shared.table_id) × IsFree p.seat) result.items }
{
    let mut others = Vec::new(alloc);
    for _ in 0..count {
        let other = hall.another(pass);
        others.push(other).expect(rt, "passes");
    }
    others
}

// Each thread makes turns with a pass of its own.
fn enter_all<R: Threads + Wait + Sync>(
    rt: &R,
    hall: &Hall<Ledger>,
    passes: &mut [Pass<Ledger>],
    threads: usize,
    turns: u32,
)
    requires threads { 0 < threads }
    requires here { All (λ p. (p.seat.table_id ≡ hall.now.table.shared.table_id) × IsFree p.seat) passes.old }
    ensures here { All (λ p. (p.seat.table_id ≡ hall.now.table.shared.table_id) × IsFree p.seat) passes.new }
    ensures same { length passes.new ≡ length passes.old }
{
    thread::for_each_mut(
        rt,
        passes,
        threads,
        &|_, pass: &mut Pass<Ledger>|
            requires { (pass.old.seat.table_id ≡ hall.now.table.shared.table_id) × IsFree pass.old.seat }
            ensures { (pass.new.seat.table_id ≡ hall.entry.now.table.shared.table_id) × IsFree pass.new.seat }
        { enter_often(rt, hall, pass, turns) },
    );
}

#[test]
fn one_pass_gives_its_turns(rt: HostRuntime) {
    let (hall, mut pass) = make_hall(&rt, rt.alloc(), 1);
    enter(&rt, &hall, &mut pass);
    enter(&rt, &hall, &mut pass);
    let ledger = hall.close(pass, Vec::new(rt.alloc()));
    assert!(rt; ledger.entries.as_slice() == [(0, 0), (0, 0)].as_slice());
}

#[test]
fn four_threads_share_one_history(rt: HostRuntime) {
    let (hall, mut pass) = make_hall(&rt, rt.alloc(), 5);
    let mut others = more(&rt, rt.alloc(), &hall, &mut pass, 4);
    enter_all(&rt, &hall, others.as_mut_slice(), 4, 50_000);
    let ledger = hall.close(pass, others);
    assert!(rt; turns_of(&ledger) == [0, 50_000, 50_000, 50_000, 50_000]);
}

#[test]
fn sixteen_threads_return(rt: HostRuntime) {
    let (hall, mut pass) = make_hall(&rt, rt.alloc(), 17);
    let mut others = more(&rt, rt.alloc(), &hall, &mut pass, 16);
    enter_all(&rt, &hall, others.as_mut_slice(), 16, 100_000);
    let ledger = hall.close(pass, others);
    assert_eq!(rt; ledger.entries.len(), 1_600_000);
}
