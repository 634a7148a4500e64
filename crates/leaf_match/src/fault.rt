//! Why a call returned no value.
ghost use Rattle.std.specs.Prelude.{◌≡◌};

use std::alloc::{AllocError, AllocFailed};
use thiserror::Error;

/// Why a wildcard was not read.
#[derive(Debug, Drop, PartialEq, Eq, Error)]
pub enum WildFault {
    /// Two runs side by side, or a backslash at the end or before anything but `*` and a backslash.
    #[error("not a wildcard: two * side by side, or a backslash that escapes nothing")]
    BadWild,
    #[error("out of memory")]
    NoMemory,
}

impl<T: Drop> From<AllocFailed<T>> for WildFault {
    ghost use Rattle.leaf_match.specs.declared.fault.WildFault.TheVariants.{NoMemory};

    ghost from_gives = { λ _ e. e ≡ NoMemory };

    fn from(_refused: AllocFailed<T>) -> WildFault {
        WildFault::NoMemory
    }
}

/// Out of memory.
#[derive(Debug, Drop, PartialEq, Eq, Error)]
#[error("out of memory")]
pub struct NoMemory;

impl From<AllocError> for NoMemory {
    fn from(_refused: AllocError) -> NoMemory {
        NoMemory
    }
}
