//! The command as `clap` builds it.
ghost use Rattle.std.specs.Prelude.{◌≡◌, IfOk, codes, false, map, string_bytes};
ghost use Rattle.clap.specs.Words.{app_of, new_app, rule_of, subcommand_of, subcommand_rows_of, with_subcommand, FailsBy, Rule};
ghost use Rattle.clap.specs.Faults.{fault_of};
ghost use Rattle.clap.specs.declared.builder.command.Command.TheViews.{out-Command};
ghost use Rattle.command_line.specs.Table as table;

use clap::builder::ValueParser;
use clap::{Arg, ArgMatches, Command, Error};
use std::alloc::{AllocError, Global};

/// What the help of `serve` says after its options.
const SERVE_MANUAL: &str = "\
Prints `listening` and the port, then serves clients on 127.0.0.1 alone. With no
--journal all is lost when it ends. With --connections N it ends after N
connections and prints a summary.

To stop it, send SIGTERM or SIGINT: it ends at once, without a summary. With
--journal this is always safe: what was acknowledged is found again. A request
without a reply may have been carried out, and a send without a record is
repeated. To repeat none: stop the publishers, wait until DutyCounts shows
\"Pending\":0, then send SIGTERM.

The last line on standard error names the status; lines before it say why:
  0  the connections are served, and no line is printed
  2  bad arguments
  4  the output failed
  5  the disk failed
  6  the journal is damaged, or the file is no journal
  7  out of memory
  8  the port or the link to endpoints failed

docs/OPERATING.md has more.";

/// What the help of `once` says after its options.
const ONCE_MANUAL: &str = "\
With --journal every change is in FILE before its reply is written, and the next
run with FILE goes on from it. A file that is missing is created. Without
--journal all is in memory, and lost when it ends.

The last line on standard error names the status; lines before it say why:
   0  the input ended, or a message asked to close, and no line is printed
   2  bad arguments
   3  the input failed
   4  the output failed
   5  the disk failed
   6  the journal is damaged, or the file is no journal
   7  out of memory
   9  the input ended inside a message
  10  the request limit is reached
  11  a message is refused";

/// What the help of `check` says after its option.
const CHECK_MANUAL: &str = "\
Prints four lines of counts. A file that is missing is created, empty, and has
no records. A file that another process has open as its journal is not read.

The last line on standard error names the status; lines before it say why:
  0  the file is a journal, and no line is printed
  2  bad arguments
  4  the output failed
  5  the disk failed
  6  the journal is damaged, or the file is no journal
  7  out of memory";

/// What the help of the whole command says at its end.
const STATUSES: &str = "The last line on standard error names the status. See 'ebusd help serve'.";

fn option<'a>(alloc: Global, name: &'a str, value: &'a str, help: &'a str) -> Arg<'a>
    ensures rule { rule_of result ≡ table.option name.entry.now }
    ensures local { result.global ≡ false }
{
    Arg::new(alloc, name)
        .long(name)
        .value_name(value)
        .help(help)
}

fn number<'a>(alloc: Global, name: &'a str, help: &'a str) -> Arg<'a>
    ensures rule { rule_of result ≡ table.option name.entry.now }
    ensures local { result.global ≡ false }
{
    option(alloc, name, "N", help)
}

fn journal<'a>(alloc: Global, help: &'a str) -> Arg<'a>
    ensures rule { rule_of result ≡ table.journal }
    ensures local { result.global ≡ false }
{
    option(alloc, "journal", "FILE", help).value_parser(ValueParser::NonEmptyString)
}

fn described_serve<'a>(alloc: Global) -> Command<'a>
    ensures { (app_of result ≡ new_app (codes "serve")) × ((out-Command result).has_globals ≡ false) }
{
    Command::new(alloc, "serve")
        .about("Serve HTTP clients on 127.0.0.1, and deliver events")
        .after_help(SERVE_MANUAL)
}

#[tactic(auto, unfolding(crate::specs::Table::serve))]
fn serve<'a>(alloc: Global) -> Result<Command<'a>, AllocError>
    ensures { IfOk result (λ c. (app_of c ≡ table.serve) × ((out-Command c).has_globals ≡ false)) }
{
    described_serve(alloc)
        .arg(journal(alloc, "Keep every change in FILE, and go on from it"))?
        .arg(number(alloc, "port", "TCP port, 1 to 65535 [default: 9100]"))?
        .arg(number(alloc, "workers", "Threads, 1 to 1024 [default: 64]"))?
        .arg(number(
            alloc,
            "connections",
            "End after N connections, 1 to 1000000",
        ))
}

fn described_once<'a>(alloc: Global) -> Command<'a>
    ensures { (app_of result ≡ new_app (codes "once")) × ((out-Command result).has_globals ≡ false) }
{
    Command::new(alloc, "once")
        .about("Read requests from standard input, write replies to standard output")
        .after_help(ONCE_MANUAL)
}

#[tactic(auto, unfolding(crate::specs::Table::once))]
fn once<'a>(alloc: Global) -> Result<Command<'a>, AllocError>
    ensures { IfOk result (λ c. (app_of c ≡ table.once) × ((out-Command c).has_globals ≡ false)) }
{
    described_once(alloc)
        .arg(journal(alloc, "Keep every change in FILE, and go on from it"))?
        .arg(number(
            alloc,
            "now",
            "Every clock reading, 0 to 250000000000 s since 1970",
        ))
}

fn described_check<'a>(alloc: Global) -> Command<'a>
    ensures { (app_of result ≡ new_app (codes "check")) × ((out-Command result).has_globals ≡ false) }
{
    Command::new(alloc, "check")
        .about("Read a journal without changing it, and print what it counts")
        .after_help(CHECK_MANUAL)
}

#[tactic(auto, unfolding(crate::specs::Table::check))]
fn check<'a>(alloc: Global) -> Result<Command<'a>, AllocError>
    ensures { IfOk result (λ c. (app_of c ≡ table.check) × ((out-Command c).has_globals ≡ false)) }
{
    described_check(alloc).arg(journal(alloc, "The journal").required(true))
}

#[tactic(auto, unfolding(crate::specs::Table::drill))]
fn drill<'a>(alloc: Global) -> Result<Command<'a>, AllocError>
    ensures { IfOk result (λ c. (app_of c ≡ table.drill) × ((out-Command c).has_globals ≡ false)) }
{
    Command::new(alloc, "drill")
        .about("Run a generated load in memory, and print what it counts")
        .arg(number(alloc, "seed", "Start of the draws, 0 to 2147483647").required(true))?
        .arg(number(alloc, "events", "Number of events, 1 to 100000").required(true))
}

#[tactic(auto, unfolding(crate::specs::Table::program))]
fn program<'a>(alloc: Global) -> Result<Command<'a>, AllocError>
    ensures { IfOk result (λ c. (app_of c ≡ table.program) × ((out-Command c).has_globals ≡ false)) }
{
    Command::new(alloc, "ebusd")
        .version("0.1.0")
        .about("An event router like Amazon EventBridge, for one machine")
        .after_help(STATUSES)
        .subcommand_required(true)
        .arg_required_else_help(true)
        .bin_name("ebusd")
}

fn first_two<'a>(alloc: Global) -> Result<Command<'a>, AllocError>
    ensures { IfOk result (λ c. app_of c ≡ with_subcommand (with_subcommand table.program table.serve.top) table.once.top) }
{
    program(alloc)?
        .subcommand(serve(alloc)?)?
        .subcommand(once(alloc)?)
}

#[tactic(auto, unfolding(crate::specs::Table::ebusd))]
fn ebusd<'a>(alloc: Global) -> Result<Command<'a>, AllocError>
    ensures { IfOk result (λ c. app_of c ≡ table.ebusd) }
{
    first_two(alloc)?
        .subcommand(check(alloc)?)?
        .subcommand(drill(alloc)?)
}

/// What clap finds in the words.
pub(crate) fn found<'a>(alloc: Global, words: &'a [String]) -> Result<ArgMatches<'a>, Error>
    ensures kinds { FailsBy (fault_of table.ebusd (map string_bytes words.entry.now)) result }
    ensures matches { IfOk result (λ m. subcommand_rows_of m ≡ subcommand_of table.ebusd (map string_bytes words.entry.now)) }
{
    let command = ebusd(alloc)?;
    command.try_get_matches_from(words)
}
