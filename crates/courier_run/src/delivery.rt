// Attempts within a budget.
ghost use Rattle.std.specs.Prelude.{◌≡◌, List};
ghost use Rattle.courier_run.specs.Act.{Act, book_acts_in};
ghost use Rattle.courier_run.specs.Link.{Goes, outside};
ghost use Rattle.courier_run.specs.Steps.{Steps};

use crate::attempt::{Ended, attempt};
use crate::{DutyBook, Stepped, Stop, Turned};
use router_disk::{Clock, Link};

/// Makes attempts, each at a reading of its own, until no duty is due or `budget` attempts were made. Stops at the first
/// fault; the attempts before it remain. No claim is left open.
pub fn turn<B: DutyBook, L: Link, C: Clock>(
    book: &mut B,
    link: &mut L,
    clock: &mut C,
    budget: u32,
) -> Stepped
    requires sound { B.sound book.old }
    requires rests { B.rests book.old }
    ensures sound { B.sound book.new }
    ensures rests { B.rests book.new }
    ensures lender { B.lender book.new ≡ B.lender book.old }
    ensures stepped { (acts : List (Act B.Placed B.State)) × B.did book.old book.new (book_acts_in acts)
        × Steps B.claims B.records B.puts_back B.breaks B.idle B.full B.broken budget acts result.turned result.stop
        × Goes acts (outside (C.gave clock.old) (L.exchanges link.old) (L.faults link.old))
        (outside (C.gave clock.new) (L.exchanges link.new) (L.faults link.new)) }
{
    let mut turned = Turned::none();
    while turned.attempts < budget {
        match attempt(book, link, clock) {
            Ended::Recorded(fate) => turned.count(fate),
            Ended::Stopped(stop) => return Stepped { turned, stop },
        }
    }
    Stepped {
        turned,
        stop: Stop::Spent,
    }
}
