//! Why a call returned no value.
use json_text::NoMemory;
use std::alloc::{AllocError, AllocFailed};
use thiserror::Error;

/// Why a path was not read.
#[derive(Debug, Drop, Error)]
pub enum PathFault {
    #[error("not a path: it must be $, and then .name and [number] steps")]
    NotPath,
    #[error("out of memory")]
    NoMemory,
}

impl From<NoMemory> for PathFault {
    ghost use Rattle.std.specs.Prelude.{◌≡◌};
    ghost use Rattle.input_transform.specs.declared.fault.PathFault.TheVariants.{NoMemory as no_memory};

    ghost from_gives = { λ _ e. e ≡ no_memory };

    fn from(_refused: NoMemory) -> PathFault {
        PathFault::NoMemory
    }
}

impl<T: Drop> From<AllocFailed<T>> for PathFault {
    ghost use Rattle.std.specs.Prelude.{◌≡◌};
    ghost use Rattle.input_transform.specs.declared.fault.PathFault.TheVariants.{NoMemory as no_memory};

    ghost from_gives = { λ _ e. e ≡ no_memory };

    fn from(_refused: AllocFailed<T>) -> PathFault {
        PathFault::NoMemory
    }
}

/// Why a template was not read.
#[derive(Debug, Drop, Error)]
pub enum TemplateFault {
    #[error("not a template: it must be JSON within 100 levels, in which <name> may be a value")]
    NotTemplate,
    #[error("out of memory")]
    NoMemory,
}

impl From<NoMemory> for TemplateFault {
    ghost use Rattle.std.specs.Prelude.{◌≡◌};
    ghost use Rattle.input_transform.specs.declared.fault.TemplateFault.TheVariants.{NoMemory as no_memory};

    ghost from_gives = { λ _ e. e ≡ no_memory };

    fn from(_refused: NoMemory) -> TemplateFault {
        TemplateFault::NoMemory
    }
}

/// Why a text was not filled.
#[derive(Debug, Drop, Error)]
pub enum FillFault {
    /// It would have more than 1,048,576 bytes.
    #[error("the text is too long")]
    TooLong,
    #[error("out of memory")]
    NoMemory,
}

impl From<NoMemory> for FillFault {
    ghost use Rattle.std.specs.Prelude.{◌≡◌};
    ghost use Rattle.input_transform.specs.declared.fault.FillFault.TheVariants.{NoMemory as no_memory};

    ghost from_gives = { λ _ e. e ≡ no_memory };

    fn from(_refused: NoMemory) -> FillFault {
        FillFault::NoMemory
    }
}

impl From<AllocError> for FillFault {
    ghost use Rattle.std.specs.Prelude.{◌≡◌};
    ghost use Rattle.input_transform.specs.declared.fault.FillFault.TheVariants.{NoMemory as no_memory};

    ghost from_gives = { λ _ e. e ≡ no_memory };

    fn from(_refused: AllocError) -> FillFault {
        FillFault::NoMemory
    }
}
