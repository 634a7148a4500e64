//! Why a text is no policy.
use json_text::NoMemory;
use std::alloc::{AllocError, AllocFailed};
use thiserror::Error;

/// Why a text is no policy, in the order in which faults are reported: the first six are the whole text's, the others those
/// of a statement.
#[derive(Clone, Copy, Debug, PartialEq, Eq, Error)]
pub enum PolicyCause {
    #[error("the text is over 10240 bytes")]
    TooLong,
    #[error("the text is no JSON")]
    NotJson,
    #[error("the text has more than 100 levels")]
    TooDeep,
    #[error("an object has a key twice")]
    KeyTwice,
    #[error("the policy is no object with a statement that is an object or a list of objects")]
    NotObject,
    #[error("the version is neither 2008-10-17 nor 2012-10-17")]
    BadVersion,
    #[error("the Sid is no text, or is that of an earlier statement")]
    BadSid,
    #[error("the effect is neither Allow nor Deny")]
    BadEffect,
    #[error("the principal is neither everyone nor a list of accounts")]
    BadPrincipal,
    #[error("the action is neither a text nor a list of texts")]
    BadAction,
    #[error("the resource is neither a text nor a list of texts")]
    BadResource,
    #[error("the condition is none of those that are known")]
    BadCondition,
    #[error("the statement has another member")]
    UnknownMember,
}

/// Why a policy was not read.
#[derive(Debug, Drop, Error)]
pub enum PolicyFault {
    /// The first fault, and the place of its statement, counted from 1; 0 if the fault is the whole text's.
    #[error("{cause}, at {place}")]
    Bad { cause: PolicyCause, place: usize },
    #[error("out of memory")]
    NoMemory,
}

impl From<NoMemory> for PolicyFault {
    ghost use Rattle.std.specs.Prelude.{◌≡◌};
    ghost use Rattle.bus_policy.specs.declared.fault.PolicyFault.TheVariants.{NoMemory as refused};

    ghost from_gives = { λ _ e. e ≡ refused };

    fn from(_refused: NoMemory) -> PolicyFault {
        PolicyFault::NoMemory
    }
}

impl From<AllocError> for PolicyFault {
    ghost use Rattle.std.specs.Prelude.{◌≡◌};
    ghost use Rattle.bus_policy.specs.declared.fault.PolicyFault.TheVariants.{NoMemory as refused};

    ghost from_gives = { λ _ e. e ≡ refused };

    fn from(_refused: AllocError) -> PolicyFault {
        PolicyFault::NoMemory
    }
}

impl<T: Drop> From<AllocFailed<T>> for PolicyFault {
    ghost use Rattle.std.specs.Prelude.{◌≡◌};
    ghost use Rattle.bus_policy.specs.declared.fault.PolicyFault.TheVariants.{NoMemory as refused};

    ghost from_gives = { λ _ e. e ≡ refused };

    fn from(_refused: AllocFailed<T>) -> PolicyFault {
        PolicyFault::NoMemory
    }
}
