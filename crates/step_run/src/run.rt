// Steps within a budget.
ghost use Rattle.std.specs.Prelude.{◌≡◌, ◌++◌, ◌∷◌, [], ℕ, List};
ghost use Rattle.json_text.specs.Moment.{IsMoment};
ghost use Rattle.step_run.specs.Act.{Act, book_acts_in, readings_in};
ghost use Rattle.step_run.specs.Step.{IsNext, Ran, moment_of};

use crate::{StepBook, StepFault, StepsFault};
use json_text::LAST_MOMENT;
use router_disk::Clock;

/// Makes steps, each at a reading of its own, until there is none to make or `budget` steps were made. Returns the number
/// of steps. Stops at the first fault; the steps before it remain.
pub fn run_steps<B: StepBook, C: Clock>(
    book: &mut B,
    clock: &mut C,
    budget: u32,
) -> Result<u32, StepsFault>
    requires sound { B.sound book.old }
    ensures sound { B.sound book.new }
    ensures lender { B.lender book.new ≡ B.lender book.old }
    ensures stepped { (acts : List (Act B.Placed B.State B.Other)) × B.did book.old book.new (book_acts_in acts)
        × Ran B.steps B.breaks B.idle B.full B.broken budget acts result × (C.gave clock.new ≡ C.gave clock.old ++ readings_in acts) }
{
    let mut made = 0;
    while made < budget {
        match next_step(book, clock) {
            Next::Made => made += 1,
            Next::Idle => return Ok(made),
            Next::Stopped(fault) => return Err(StepsFault { made, fault }),
        }
    }
    Ok(made)
}

/// What came of the look for a step.
#[derive(Clone, Copy)]
enum Next {
    Made,
    /// There was none to make.
    Idle,
    Stopped(StepFault),
}

/// Makes one step, if there is one.
fn next_step<B: StepBook, C: Clock>(book: &mut B, clock: &mut C) -> Next
    requires sound { B.sound book.old }
    ensures sound { B.sound book.new }
    ensures lender { B.lender book.new ≡ B.lender book.old }
    ensures made { (acts : List (Act B.Placed B.State B.Other)) × B.did book.old book.new (book_acts_in acts)
        × IsNext B.steps B.breaks B.idle B.full B.broken acts result × (C.gave clock.new ≡ C.gave clock.old ++ readings_in acts) }
{
    let moment = read_clock(clock);
    match book.step(moment) {
        Ok(made) => { if made { Next::Made } else { Next::Idle } }
        Err(fault) => Next::Stopped(fault),
    }
}

/// The moment of the clock's next reading.
fn read_clock<C: Clock>(clock: &mut C) -> u64
    ensures moment { IsMoment result }
    ensures reading { (reading : ℕ) × (result ≡ moment_of reading) × (C.gave clock.new ≡ C.gave clock.old ++ reading ∷ []) }
{
    clock.now().min(LAST_MOMENT)
}
