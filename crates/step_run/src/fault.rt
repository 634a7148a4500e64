// Why steps stop before their budget.
use json_text::NoMemory;
use thiserror::Error;

/// Why a book made no step.
#[derive(Clone, Copy, Debug, PartialEq, Eq, Error)]
pub enum StepFault {
    /// The book is at its number limit.
    #[error("the number limit is reached")]
    NumberLimit,
    /// The book is broken: it can keep no step any more.
    #[error("the book is broken")]
    Broken,
    /// Out of memory.
    #[error("out of memory")]
    NoMemory,
}

impl From<NoMemory> for StepFault {
    ghost use Rattle.std.specs.Prelude.{◌≡◌};
    ghost use Rattle.step_run.specs.declared.fault.StepFault.TheVariants.{NoMemory as no_memory};

    ghost from_gives = { λ _ e. e ≡ no_memory };

    fn from(_refused: NoMemory) -> StepFault {
        StepFault::NoMemory
    }
}

/// How many steps were made, and why there are no more.
#[derive(Clone, Copy, Debug, PartialEq, Eq, Error)]
#[error("{fault} after {made} steps")]
pub struct StepsFault {
    pub made: u32,
    pub fault: StepFault,
}
