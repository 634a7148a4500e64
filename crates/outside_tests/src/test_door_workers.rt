//! Workers at a door in memory, and who of them may stop knocking.
ghost use Rattle.std.specs.Prelude.{◌<◌, ◌≤◌, length};

use crate::ledger::{Ledger, add, door, goes_on, make_hall, turns_of};
use door_workers::{Serving, Work, may_leave, serve_door};
use std::alloc::Global;
use std::process::Abort;
use std::sync::Wait;
use std::sync::atomic::{AtomicU64, Ordering};
use std::test::Fail;
use std::thread::Threads;
use test_rows::{all_met, four, two};
use turn_book::{Hall, Pass};

/// Each connection is a turn. A worker counts how often it did something else.
#[derive(Drop)]
struct Adding<'a, R> {
    rt: &'a R,
    hall: &'a Hall<Ledger>,
    served: AtomicU64,
}

impl<R: Wait, I, O> Work<Ledger, Pass<Ledger>, I, O, u32> for Adding<'_, R> {
    ghost use Rattle.std.specs.Prelude.{◌≡◌, ◌≤◌, ◌+◌, length};
    ghost use Rattle.std.proofs.Common.{le_refl};

    // The table is its hall's.
    ghost works = { λ a table. table ≡ a.hall.now.table.shared.table_id };

    // A worker counts up.
    ghost did = { λ _ lent now _ _. lent ≤ now };

    ghost unturned = { λ _ lent _ _. le_refl lent };

    ghost lasts = { λ _ _ _ _ _ _ _ _ h. h };

    fn serve(
        &self,
        _own: &mut u32,
        pass: &mut Pass<Ledger>,
        number: u64,
        _input: &mut I,
        _output: &mut O,
    ) -> bool {
        self.served.fetch_add(1, Ordering::SeqCst);
        let ledger = self.hall.take(self.rt, pass);
        let (ledger, cut) = add(ledger, pass.number(), number);
        self.hall.give(pass, ledger);
        cut
    }

    fn goes_on(&self, pass: &mut Pass<Ledger>) -> bool {
        goes_on(self.rt, self.hall, pass)
    }

    fn meanwhile(&self, own: &mut u32, _pass: &mut Pass<Ledger>) {
        *own = own.saturating_add(1);
    }
}

// Serves a door with these plans, with a worker for each count. Returns how it ended, the turns of each connection, how many
// connections came back and how many were served; and the counts.
fn served_by<R: Threads + Wait + Sync + Abort>(
    rt: &R,
    alloc: Global,
    plans: &str,
    counts: &[u32],
    most: Option<u64>,
) -> (String, Vec<u32>)
    requires { (0 < length counts.now) × (length counts.now ≤ 2) }
{
    let (hall, mut pass) = make_hall(rt, alloc, 4);
    let counts = counts.to_vec(alloc).expect(rt, "counts");
    let door = door(rt, alloc, plans);
    let (serving, served) = {
        let work = Adding {
            rt,
            hall: &hall,
            served: AtomicU64::new(0),
        };
        let serving = serve_door(rt, alloc, &hall, &mut pass, counts, door, most, &work);
        (serving, work.served.load(Ordering::SeqCst))
    };
    let Serving {
        door,
        owns,
        passes,
        end,
    } = serving;
    let turns = turns_of(&hall.close(pass, passes));
    let back = door.back.len();
    let served = format!(in alloc; "{end:?} {turns:?} {back} {served}").expect(rt, "a text");
    (served, owns)
}

#[test]
fn two_workers_serve_three_connections(rt: HostRuntime) {
    let (served, _) = served_by(&rt, rt.alloc(), "CCqC", &[0, 0], None);
    assert_eq!(rt; served.as_str(), "Done [0, 1, 1, 1, 0] 3 3");
}

#[test]
fn one_worker_stops_at_the_limit(rt: HostRuntime) {
    let (served, _) = served_by(&rt, rt.alloc(), "CCC", &[0], Some(2));
    assert_eq!(rt; served.as_str(), "Done [0, 1, 1, 0, 0] 2 2");
}

#[test]
fn one_worker_is_idle_while_none_comes(rt: HostRuntime) {
    let (served, counts) = served_by(&rt, rt.alloc(), "qCm", &[0], None);
    assert_eq!(rt; served.as_str(), "Done [0, 1, 0, 0, 0] 1 1");
    assert_eq!(rt; counts.as_slice(), [2].as_slice());
}

#[test]
fn a_worker_stops_after_the_fifth_turn(rt: HostRuntime) {
    let (served, _) = served_by(&rt, rt.alloc(), "CCCCCC", &[0], None);
    assert_eq!(rt; served.as_str(), "Stopped [0, 1, 1, 1, 1] 5 5");
}

#[test]
fn a_door_that_fails_is_reported(rt: HostRuntime) {
    let (served, _) = served_by(&rt, rt.alloc(), "CfC", &[0, 0], None);
    assert_eq!(rt; served.as_str(), "DoorFault [0, 1, 0, 0, 0] 1 1");
}

// How many workers are busy, this one counted, how many have begun, how many connections are out, how many the door gives at
// once, and whether this worker may leave: it is the only one; one of two, or of three, is left to knock; none is left to knock,
// and the door may give a connection; fewer workers began than there should be, and each other one serves a connection, or does
// not; none is left to knock, and all connections that the door gives at once are out.
const LEAVES: &str = "1|1|0|1|true
1|2|0|1|true
2|3|0|2|true
2|2|0|1|false
3|3|1|2|false
2|2|1|7|true
3|3|1|7|false
2|2|1|1|true
3|3|2|2|true
";

fn is_leave_met(alloc: Global, row: &str) -> Result<bool, Fail> {
    let (busy, begun, out, rest) = four(row);
    let (limit, want) = two(rest);
    let (busy, begun) = (busy.parse::<u64>()?, begun.parse::<u64>()?);
    let may = may_leave(busy, begun, out.parse::<u64>()?, limit.parse::<u64>()?);
    Ok(format!(in alloc; "{may}")?.as_str() == want)
}

#[test]
fn a_worker_may_leave_if_another_knocks(rt: HostRuntime) -> Result<(), Fail> {
    all_met(rt.alloc(), LEAVES, 9, is_leave_met)
}
