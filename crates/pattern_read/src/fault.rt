//! Why a text is no pattern.
ghost use Rattle.std.specs.Prelude.{◌≡◌, None, IfOk};
ghost use Rattle.pattern_read.specs.Check.{Checks, under};
ghost use Rattle.pattern_read.specs.Refusal as spec;
ghost use Rattle.pattern_read.specs.Reading.{IsReported, pattern_fault_of};

use json_text::{NoMemory, Text};
use std::alloc::{AllocError, AllocFailed, Global};
use thiserror::Error;

/// Why a text is no pattern. The first four causes are about the text as a whole: its length counts first, then the first
/// place that is no JSON or a level too deep, then a key that comes twice. Of the causes from
/// `NotObject` to `BadWildcard` the first in the text counts. `TooMany` comes last.
#[derive(Clone, Copy, Debug, PartialEq, Eq)]
pub enum Why {
    /// More than 4,096 bytes.
    TooLong,
    NotJson,
    /// More than 100 levels of lists and objects.
    TooDeep,
    /// An object has a key twice.
    KeyTwice,
    /// The root is no object, or a field is a scalar.
    NotObject,
    EmptyObject,
    EmptyArray,
    /// A field `id` of the root, or of a branch of a root `$or`.
    BadId,
    /// A `$or` that is no list of at least two objects.
    BadOr,
    /// A list in a list of tests, or an object that does not have one member that names a test.
    UnknownTest,
    BadOperand,
    /// An operand of `numeric` that is not one or two pairs of an operator and a number in range.
    BadNumeric,
    BadCidr,
    /// Two `*` side by side, or a backslash at the end or before anything but `*` and a backslash.
    BadWildcard,
    /// More than 1,000 alternatives.
    TooMany,
}

/// Why a text was not read. The path is the keys of fields and `$or` to the place, joined by `.`: empty for the root,
/// and for a cause that has no place.
#[derive(Debug, Drop, Error)]
pub enum PatternFault {
    #[error("the text is no pattern")]
    Refused { why: Why, path: Text },
    #[error("out of memory")]
    NoMemory,
}

/// A fault with its path from the value that was read, if it is not at the value itself.
#[derive(Drop)]
pub(crate) enum Fault {
    Refused { why: Why, path: Option<Text> },
    NoMemory,
}

impl Fault {
    /// A fault of the value that is read.
    pub(crate) fn of(why: Why) -> Fault
        ensures { result ≡ Fault.Refused why None }
    {
        Fault::Refused { why, path: None }
    }

    /// The same fault, of the object that has the value with this key.
    pub(crate) fn under(self, alloc: Global, key: &str) -> Fault
        ensures { (checks : Checks) → IsReported checks self → IsReported (under key.now checks) result }
    {
        match self {
            Fault::Refused { why, path } => match before_dot(alloc, key, path) {
                Ok(path) => Fault::Refused {
                    why,
                    path: Some(path),
                },
                Err(NoMemory) => Fault::NoMemory,
            },
            Fault::NoMemory => Fault::NoMemory,
        }
    }

    /// The fault with its path as a text.
    pub(crate) fn into_pattern_fault(self, alloc: Global) -> PatternFault
        ensures { result ≡ pattern_fault_of self }
    {
        match self {
            Fault::Refused {
                why,
                path: Some(path),
            } => PatternFault::Refused { why, path },
            Fault::Refused { why, path: None } => PatternFault::Refused {
                why,
                path: Text::new(alloc),
            },
            Fault::NoMemory => PatternFault::NoMemory,
        }
    }
}

fn before_dot(alloc: Global, key: &str, path: Option<Text>) -> Result<Text, NoMemory>
    ensures { IfOk result (λ t. t ≡ spec.before_dot key.now path) }
{
    match path {
        None => Text::from_str(alloc, key),
        Some(path) => {
            let path = path.as_str();
            Ok(Text::from(format!(in alloc; "{key}.{path}")?))
        }
    }
}

impl From<NoMemory> for Fault {
    ghost use Rattle.std.specs.Prelude.{◌≡◌};
    ghost use Rattle.pattern_read.specs.declared.fault.Fault.TheVariants.{NoMemory as no_memory};

    ghost from_gives = { λ _ e. e ≡ no_memory };

    fn from(_refused: NoMemory) -> Fault {
        Fault::NoMemory
    }
}

impl From<AllocError> for Fault {
    ghost use Rattle.std.specs.Prelude.{◌≡◌};
    ghost use Rattle.pattern_read.specs.declared.fault.Fault.TheVariants.{NoMemory as no_memory};

    ghost from_gives = { λ _ e. e ≡ no_memory };

    fn from(_refused: AllocError) -> Fault {
        Fault::NoMemory
    }
}

impl<T: Drop> From<AllocFailed<T>> for Fault {
    ghost use Rattle.std.specs.Prelude.{◌≡◌};
    ghost use Rattle.pattern_read.specs.declared.fault.Fault.TheVariants.{NoMemory as no_memory};

    ghost from_gives = { λ _ e. e ≡ no_memory };

    fn from(_refused: AllocFailed<T>) -> Fault {
        Fault::NoMemory
    }
}
