//! Why words are not carried out.
ghost use Rattle.std.specs.Prelude.{◌≢◌};
ghost use Rattle.clap.specs.Values.{kind_of};
ghost use Rattle.clap.specs.declared.error.kind.ErrorKind.TheVariants as kinds;
ghost use Rattle.command_line.specs.Reading.{IsRefusal, Means};

use clap::Error;
use clap::error::ErrorKind;
use json_text::Text;
use std::alloc::{AllocError, Global};

/// Why words are not carried out.
#[derive(Debug, Drop)]
pub enum WordsFault {
    /// They ask for help or for the version. The text is the whole output.
    Help(Text),
    /// They are no command. The text says why.
    Refused(Text),
    /// Out of memory.
    NoMemory,
}

/// What an error of `clap` means.
pub(crate) fn fault_for(alloc: Global, error: &Error) -> WordsFault
    ensures { Means (kind_of error.now) result }
{
    let kind = error.kind();
    if kind == ErrorKind::OutOfMemory {
        WordsFault::NoMemory
    } else {
        with_text(kind, error.to_string(alloc))
    }
}

/// The fault of a kind with its text.
fn with_text(kind: ErrorKind, text: Result<String, AllocError>) -> WordsFault
    requires { kind ≢ kinds.OutOfMemory }
    ensures { Means kind result }
{
    match text {
        Ok(text) => {
            if kind == ErrorKind::DisplayHelp || kind == ErrorKind::DisplayVersion {
                WordsFault::Help(Text::from(text))
            } else {
                WordsFault::Refused(Text::from(text))
            }
        }
        Err(_refused) => WordsFault::NoMemory,
    }
}

/// The refusal of a value that is no number in its bounds, as `clap` writes such a refusal.
pub(crate) fn wrong_number(
    alloc: Global,
    name: &str,
    word: &str,
    least: u64,
    most: u64,
) -> WordsFault
    ensures { IsRefusal result }
{
    refused(format!(in alloc;
        "error: invalid value '{word}' for '--{name} <N>': not a whole number from {least} to {most}\n\nFor more information, try '--help'.\n"
    ))
}

/// The refusal of words without an option that has to be there. `clap` refuses such words itself.
pub(crate) fn missing(alloc: Global, name: &str) -> WordsFault
    ensures { IsRefusal result }
{
    refused(format!(in alloc;
        "error: the option '--{name}' is missing\n\nFor more information, try '--help'.\n"
    ))
}

/// The refusal of words without one of the subcommands. `clap` refuses such words itself.
pub(crate) fn no_subcommand(alloc: Global) -> WordsFault
    ensures { IsRefusal result }
{
    refused(String::from_str(
        alloc,
        "error: no subcommand\n\nFor more information, try '--help'.\n",
    ))
}

fn refused(text: Result<String, AllocError>) -> WordsFault
    ensures { IsRefusal result }
{
    match text {
        Ok(text) => WordsFault::Refused(Text::from(text)),
        Err(_refused) => WordsFault::NoMemory,
    }
}
