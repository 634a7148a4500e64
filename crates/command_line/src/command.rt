//! What the words of the command line ask for.
ghost use Rattle.std.specs.Prelude.{◌≡◌, IfOk, IfErr, codes, map, string_bytes};
ghost use Rattle.clap.specs.Matches.{found_of};
ghost use Rattle.clap.specs.Simple.{subcommand_rows_of};
ghost use Rattle.clap.specs.Walk.{rows_of};
ghost use Rattle.command_line.specs.Command.{CommandView, IsCommand, IsEntered, command_view};
ghost use Rattle.command_line.specs.Fault.{IsFault};
ghost use Rattle.command_line.specs.Reading.{Denies, IsRead};

use crate::fault::{WordsFault, fault_for, missing, no_subcommand};
use crate::table::found;
use crate::values::{number_in, number_or, required_number, value_in};
use clap::ArgMatches;
use json_text::LAST_MOMENT;
use std::alloc::Global;

const LAST_PORT: u64 = 65_535;

const PORT: u64 = 9_100;

const MOST_WORKERS: u64 = 1_024;

const WORKERS: u64 = 64;

const MOST_CONNECTIONS: u64 = 1_000_000;

const LAST_SEED: u64 = 2_147_483_647;

const MOST_EVENTS: u64 = 100_000;

/// What the program is to do.
#[derive(Clone, Copy, Debug, PartialEq, Eq)]
pub enum Command<'a> {
    /// Sessions over connections to the port of 127.0.0.1, on this number of workers. If `connections` is given, it ends after that many.
    /// If `journal` is given, it is the path of the journal's file.
    Serve {
        journal: Option<&'a str>,
        port: u16,
        workers: u16,
        connections: Option<u64>,
    },
    /// One session from the input to the output. If `now` is given, it is every reading of the clock, in seconds since 1970.
    /// If `journal` is given, it is the path of the journal's file.
    Once {
        journal: Option<&'a str>,
        now: Option<u64>,
    },
    /// The summary of the journal of the file at this path.
    Check {
        journal: &'a str,
    },
    /// A generated run in memory, with this number of events.
    Drill {
        seed: u32,
        events: u32,
    },
}

/// The command that the words ask for. The first word is the program's name, which may be any word.
pub fn read_command<'a>(alloc: Global, words: &'a [String]) -> Result<Command<'a>, WordsFault>
    ensures command { IfOk result (λ c. IsCommand (map string_bytes words.entry.now) (command_view c)) }
    ensures fault { IfErr result (IsFault (map string_bytes words.entry.now)) }
{
    match found(alloc, words) {
        Ok(matches) => command_in(alloc, &matches),
        Err(error) => Err(fault_for(alloc, &error)),
    }
}

/// The command of the subcommand that clap entered.
fn command_in<'a>(alloc: Global, matches: &ArgMatches<'a>) -> Result<Command<'a>, WordsFault>
    ensures ok { IfOk result (λ c. IsEntered (subcommand_rows_of matches.now) (command_view c)) }
    ensures err { IfErr result (Denies ((c : CommandView) × IsEntered (subcommand_rows_of matches.now) c)) }
{
    match matches.subcommand() {
        Some((name, options)) => command_of(alloc, name, options),
        None => Err(no_subcommand(alloc)),
    }
}

/// The command of the subcommand with this name.
fn command_of<'a>(
    alloc: Global,
    name: &str,
    options: &ArgMatches<'a>,
) -> Result<Command<'a>, WordsFault>
    ensures ok { IfOk result (λ c. IsRead name.now (rows_of (found_of options.now)) (command_view c)) }
    ensures err { IfErr result (Denies ((c : CommandView) × IsRead name.now (rows_of (found_of options.now)) c)) }
{
    match name {
        "serve" => serve_in(alloc, options),
        "once" => once_in(alloc, options),
        "check" => check_in(alloc, options),
        "drill" => drill_in(alloc, options),
        _ => Err(no_subcommand(alloc)),
    }
}

fn serve_in<'a>(alloc: Global, options: &ArgMatches<'a>) -> Result<Command<'a>, WordsFault>
    ensures ok { IfOk result (λ c. IsRead (codes "serve") (rows_of (found_of options.now)) (command_view c)) }
    ensures err { IfErr result (Denies ((c : CommandView) × IsRead (codes "serve") (rows_of (found_of options.now)) c)) }
{
    let port = number_or(alloc, options, "port", 1, LAST_PORT, PORT)?;
    let workers = number_or(alloc, options, "workers", 1, MOST_WORKERS, WORKERS)?;
    let connections = number_in(alloc, options, "connections", 1, MOST_CONNECTIONS)?;
    Ok(Command::Serve {
        journal: value_in(options, "journal"),
        port: port as u16,
        workers: workers as u16,
        connections,
    })
}

fn once_in<'a>(alloc: Global, options: &ArgMatches<'a>) -> Result<Command<'a>, WordsFault>
    ensures ok { IfOk result (λ c. IsRead (codes "once") (rows_of (found_of options.now)) (command_view c)) }
    ensures err { IfErr result (Denies ((c : CommandView) × IsRead (codes "once") (rows_of (found_of options.now)) c)) }
{
    let now = number_in(alloc, options, "now", 0, LAST_MOMENT)?;
    Ok(Command::Once {
        journal: value_in(options, "journal"),
        now,
    })
}

fn check_in<'a>(alloc: Global, options: &ArgMatches<'a>) -> Result<Command<'a>, WordsFault>
    ensures ok { IfOk result (λ c. IsRead (codes "check") (rows_of (found_of options.now)) (command_view c)) }
    ensures err { IfErr result (Denies ((c : CommandView) × IsRead (codes "check") (rows_of (found_of options.now)) c)) }
{
    match value_in(options, "journal") {
        Some(journal) => Ok(Command::Check { journal }),
        None => Err(missing(alloc, "journal")),
    }
}

fn drill_in<'a>(alloc: Global, options: &ArgMatches<'a>) -> Result<Command<'a>, WordsFault>
    ensures ok { IfOk result (λ c. IsRead (codes "drill") (rows_of (found_of options.now)) (command_view c)) }
    ensures err { IfErr result (Denies ((c : CommandView) × IsRead (codes "drill") (rows_of (found_of options.now)) c)) }
{
    let seed = required_number(alloc, options, "seed", 0, LAST_SEED)?;
    let events = required_number(alloc, options, "events", 1, MOST_EVENTS)?;
    Ok(Command::Drill {
        seed: seed as u32,
        events: events as u32,
    })
}
