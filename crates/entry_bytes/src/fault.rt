//! Why bytes are not read.
ghost use Rattle.std.specs.Prelude.{◌≡◌};
ghost use Rattle.entry_bytes.specs.declared.fault.ReadFault.TheVariants.{NoMemory as no_memory};

use json_text::NoMemory;
use std::alloc::{AllocError, AllocFailed};

/// Why a value is not read.
#[derive(Debug, Drop)]
pub enum ReadFault {
    NoMemory,
    /// No such value is at the front.
    NotSpelled,
}

impl From<NoMemory> for ReadFault {
    ghost from_gives = { λ _ e. e ≡ no_memory };

    fn from(_refused: NoMemory) -> ReadFault {
        ReadFault::NoMemory
    }
}

impl From<AllocError> for ReadFault {
    ghost from_gives = { λ _ e. e ≡ no_memory };

    fn from(_refused: AllocError) -> ReadFault {
        ReadFault::NoMemory
    }
}

impl<T: Drop> From<AllocFailed<T>> for ReadFault {
    ghost from_gives = { λ _ e. e ≡ no_memory };

    fn from(_refused: AllocFailed<T>) -> ReadFault {
        ReadFault::NoMemory
    }
}
