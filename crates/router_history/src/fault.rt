//! Why a request has no turn.
use json_text::NoMemory;
use thiserror::Error;

/// Why a request has no turn of its own.
#[derive(Clone, Copy, Debug, PartialEq, Eq, Error)]
pub enum RequestFault {
    #[error("out of memory")]
    NoMemory,
    /// The book is broken: the batch of the request cannot be appended.
    #[error("the journal failed")]
    Broken,
}

impl From<NoMemory> for RequestFault {
    ghost use Rattle.std.specs.Prelude.{◌≡◌};
    ghost use Rattle.router_history.specs.declared.fault.RequestFault.TheVariants.{NoMemory as no_memory};

    ghost from_gives = { λ _ e. e ≡ no_memory };

    fn from(_refused: NoMemory) -> RequestFault {
        RequestFault::NoMemory
    }
}
