//! Why a message is no request.
use api_replies::Cause;
use json_text::{JsonFault, NoMemory};
use std::alloc::{AllocError, AllocFailed};
use thiserror::Error;

/// Why a message is no request.
#[derive(Debug, Drop, Error)]
pub enum CallFault {
    /// The message is refused for this cause.
    #[error("the request is refused")]
    Refused(Cause),
    #[error("out of memory")]
    NoMemory,
}

impl From<NoMemory> for CallFault {
    ghost use Rattle.std.specs.Prelude.{◌≡◌};
    ghost use Rattle.api_members.specs.declared.fault.CallFault.TheVariants as Fault;

    ghost from_gives = { λ _ e. e ≡ Fault.NoMemory };

    fn from(_refused: NoMemory) -> CallFault {
        CallFault::NoMemory
    }
}

impl From<AllocError> for CallFault {
    ghost use Rattle.std.specs.Prelude.{◌≡◌};
    ghost use Rattle.api_members.specs.declared.fault.CallFault.TheVariants as Fault;

    ghost from_gives = { λ _ e. e ≡ Fault.NoMemory };

    fn from(_refused: AllocError) -> CallFault {
        CallFault::NoMemory
    }
}

impl<T: Drop> From<AllocFailed<T>> for CallFault {
    ghost use Rattle.std.specs.Prelude.{◌≡◌};
    ghost use Rattle.api_members.specs.declared.fault.CallFault.TheVariants as Fault;

    ghost from_gives = { λ _ e. e ≡ Fault.NoMemory };

    fn from(_refused: AllocFailed<T>) -> CallFault {
        CallFault::NoMemory
    }
}

/// A body that is no JSON text within the levels is no object.
impl From<JsonFault> for CallFault {
    ghost use Rattle.std.specs.Prelude.{◌≡◌};
    ghost use Rattle.api_members.specs.Fault.{body_fault};

    ghost from_gives = { λ f e. e ≡ body_fault f };

    fn from(fault: JsonFault) -> CallFault {
        match fault {
            JsonFault::NotJson { at: _ }
            | JsonFault::TooDeep { at: _ }
            | JsonFault::KeyTwice { at: _ } => CallFault::Refused(Cause::NoObject),
            JsonFault::NoMemory => CallFault::NoMemory,
        }
    }
}
