//! The values of options.
ghost use Rattle.std.specs.Prelude.{◌≡◌, ◌≤◌, ℕ, Option, IfOk, IfErr, IsSomeAnd, MatchOption, option_map};
ghost use Rattle.clap.specs.Matches.{found_of};
ghost use Rattle.clap.specs.Walk.{first_of, rows_of};
ghost use Rattle.command_line.specs.Command.{IsOptional};
ghost use Rattle.command_line.specs.Number.{IsNumber};
ghost use Rattle.command_line.specs.Reading.{Denies};

use crate::fault::{WordsFault, missing, wrong_number};
use crate::number::read_number;
use clap::ArgMatches;
use std::alloc::Global;

/// The value of an option. `None` if the option is absent.
pub(crate) fn value_in<'a>(options: &ArgMatches<'a>, name: &str) -> Option<&'a str>
    ensures { option_map (λ s. s.now) result ≡ first_of name.now (rows_of (found_of options.now)) }
{
    options.get_str(name)
}

/// The number of an option. `None` if the option is absent.
pub(crate) fn number_in(
    alloc: Global,
    options: &ArgMatches<'_>,
    name: &str,
    least: u64,
    most: u64,
) -> Result<Option<u64>, WordsFault>
    ensures ok { IfOk result (IsOptional least most (first_of name.now (rows_of (found_of options.now)))) }
    ensures err { IfErr result (Denies ((number : Option ℕ) × IsOptional least most (first_of name.now (rows_of (found_of options.now))) number)) }
{
    match value_in(options, name) {
        Some(word) => match read_number(word, least, most) {
            Some(number) => Ok(Some(number)),
            None => Err(wrong_number(alloc, name, word, least, most)),
        },
        None => Ok(None),
    }
}

/// The number of an option, or another one if the option is absent.
pub(crate) fn number_or(
    alloc: Global,
    options: &ArgMatches<'_>,
    name: &str,
    least: u64,
    most: u64,
    absent: u64,
) -> Result<u64, WordsFault>
    requires { absent ≤ most }
    ensures ok { IfOk result (λ number. MatchOption (first_of name.now (rows_of (found_of options.now))) (number ≡ absent)
        (λ word. IsNumber least most word number)) }
    ensures range { IfOk result (λ number. number ≤ most) }
    ensures err { IfErr result (Denies ((number : ℕ) × MatchOption (first_of name.now (rows_of (found_of options.now))) (number ≡ absent)
        (λ word. IsNumber least most word number))) }
{
    match number_in(alloc, options, name, least, most) {
        Ok(Some(number)) => Ok(number),
        Ok(None) => Ok(absent),
        Err(fault) => Err(fault),
    }
}

/// The number of an option that has to be there.
pub(crate) fn required_number(
    alloc: Global,
    options: &ArgMatches<'_>,
    name: &str,
    least: u64,
    most: u64,
) -> Result<u64, WordsFault>
    ensures ok { IfOk result (λ number. IsSomeAnd (first_of name.now (rows_of (found_of options.now))) (λ word. IsNumber least most word number)) }
    ensures range { IfOk result (λ number. number ≤ most) }
    ensures err { IfErr result (Denies ((number : ℕ)
        × IsSomeAnd (first_of name.now (rows_of (found_of options.now))) (λ word. IsNumber least most word number))) }
{
    match number_in(alloc, options, name, least, most) {
        Ok(Some(number)) => Ok(number),
        Ok(None) => Err(missing(alloc, name)),
        Err(fault) => Err(fault),
    }
}
