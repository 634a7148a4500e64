//! Why a text is no JSON.
use super::NoMemory;
use std::alloc::{AllocError, AllocFailed};
use thiserror::Error;

/// Why a text was not read. A place is the number of bytes before it.
#[derive(Debug, Drop, Error)]
pub enum JsonFault {
    /// No JSON text within the levels goes on so at the place, which may be the end of the bytes.
    #[error("no JSON at byte {at}")]
    NotJson { at: usize },
    /// The bracket at the place opens one level too many.
    #[error("too many levels at byte {at}")]
    TooDeep { at: usize },
    /// The key at the place is also earlier in the same object.
    #[error("the key at byte {at} comes twice")]
    KeyTwice { at: usize },
    #[error("out of memory")]
    NoMemory,
}

impl From<NoMemory> for JsonFault {
    ghost use Rattle.std.specs.Prelude.{◌≡◌};
    ghost use Rattle.json_text.specs.declared.fault.JsonFault.TheVariants.{NoMemory as no_memory};

    ghost from_gives = { λ _ e. e ≡ no_memory };

    fn from(_refused: NoMemory) -> JsonFault {
        JsonFault::NoMemory
    }
}

impl<T: Drop> From<AllocFailed<T>> for JsonFault {
    ghost use Rattle.std.specs.Prelude.{◌≡◌};
    ghost use Rattle.json_text.specs.declared.fault.JsonFault.TheVariants.{NoMemory as no_memory};

    ghost from_gives = { λ _ e. e ≡ no_memory };

    fn from(_refused: AllocFailed<T>) -> JsonFault {
        JsonFault::NoMemory
    }
}

/// Why a token is not whole.
#[derive(Drop)]
pub(crate) enum TokenFault {
    /// The number of its bytes before the first one that no such token has.
    Stop(usize),
    NoMemory,
}

impl From<AllocError> for TokenFault {
    ghost use Rattle.std.specs.Prelude.{◌≡◌};
    ghost use Rattle.json_text.specs.declared.fault.TokenFault.TheVariants.{NoMemory as refused};

    ghost from_gives = { λ _ e. e ≡ refused };

    fn from(_refused: AllocError) -> TokenFault {
        TokenFault::NoMemory
    }
}

impl From<NoMemory> for TokenFault {
    ghost use Rattle.std.specs.Prelude.{◌≡◌};
    ghost use Rattle.json_text.specs.declared.fault.TokenFault.TheVariants.{NoMemory as refused};

    ghost from_gives = { λ _ e. e ≡ refused };

    fn from(_refused: NoMemory) -> TokenFault {
        TokenFault::NoMemory
    }
}
