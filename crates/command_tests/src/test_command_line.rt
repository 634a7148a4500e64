//! The words of the command line. The rows are worked by hand, and the texts are those of the Rust crate `clap`. No clause says what a
//! text says, or that words are read if memory is available.
use command_line::{WordsFault, read_command};
use std::alloc::Global;
use std::test::Fail;
use test_rows::{all_met, two};

// A command line, and what it is read to. A single space parts two words.
const COMMANDS: &str =
    "ebusd serve|Serve { journal: None, port: 9100, workers: 64, connections: None }
ebusd serve --port 1|Serve { journal: None, port: 1, workers: 64, connections: None }
ebusd serve --port 65535 --workers 1024|Serve { journal: None, port: 65535, workers: 1024, connections: None }
ebusd serve --connections 1000000 --workers 1|Serve { journal: None, port: 9100, workers: 1, connections: Some(1000000) }
ebusd serve --journal=--port|Serve { journal: Some(\"--port\"), port: 9100, workers: 64, connections: None }
any serve --port=9101 --journal J|Serve { journal: Some(\"J\"), port: 9101, workers: 64, connections: None }
ebusd once|Once { journal: None, now: None }
ebusd once --now 0|Once { journal: None, now: Some(0) }
ebusd once --now=250000000000|Once { journal: None, now: Some(250000000000) }
ebusd once --journal J --now 1|Once { journal: Some(\"J\"), now: Some(1) }
ebusd once --now=1 --journal=--now|Once { journal: Some(\"--now\"), now: Some(1) }
ebusd check --journal J|Check { journal: \"J\" }
ebusd check --journal=-x|Check { journal: \"-x\" }
ebusd drill --seed 0 --events 1|Drill { seed: 0, events: 1 }
ebusd drill --events 100000 --seed 2147483647|Drill { seed: 2147483647, events: 100000 }
";

// Words that are refused, and the first line of the text.
const REFUSED: &str = "ebusd|refused An event router like Amazon EventBridge, for one machine
ebusd sevre|refused error: unrecognized subcommand 'sevre'
ebusd help sevre|refused error: unrecognized subcommand 'sevre'
ebusd serve --prot 1|refused error: unexpected argument '--prot' found
ebusd serve --port|refused error: a value is required for '--port <N>' but none was supplied
ebusd serve --port 1 --port 1|refused error: the argument '--port <N>' cannot be used multiple times
ebusd serve --now 1|refused error: unexpected argument '--now' found
ebusd --port 1 serve|refused error: unexpected argument '--port' found
ebusd serve -V|refused error: unexpected argument '-V' found
ebusd check|refused error: the following required arguments were not provided:
ebusd check --journal -x|refused error: unexpected argument '-x' found
ebusd check --journal |refused error: a value is required for '--journal <FILE>' but none was supplied
ebusd check --journal=|refused error: a value is required for '--journal <FILE>' but none was supplied
ebusd check --journal J --journal J|refused error: the argument '--journal <FILE>' cannot be used multiple times
ebusd drill --seed 1|refused error: the following required arguments were not provided:
ebusd once x|refused error: unexpected argument 'x' found
ebusd serve --journal -x|refused error: unexpected argument '-x' found
ebusd once --journal -x|refused error: unexpected argument '-x' found
ebusd once --journal=|refused error: a value is required for '--journal <FILE>' but none was supplied
ebusd once --journal J --journal J|refused error: the argument '--journal <FILE>' cannot be used multiple times
ebusd once --now -1|refused error: unexpected argument '-1' found
ebusd once --now |refused error: invalid value '' for '--now <N>': not a whole number from 0 to 250000000000
ebusd once --now 01|refused error: invalid value '01' for '--now <N>': not a whole number from 0 to 250000000000
ebusd once --now 250000000001|refused error: invalid value '250000000001' for '--now <N>': not a whole number from 0 to 250000000000
ebusd serve --port 09100|refused error: invalid value '09100' for '--port <N>': not a whole number from 1 to 65535
ebusd serve --port +1|refused error: invalid value '+1' for '--port <N>': not a whole number from 1 to 65535
ebusd serve --port 0|refused error: invalid value '0' for '--port <N>': not a whole number from 1 to 65535
ebusd serve --port 65536|refused error: invalid value '65536' for '--port <N>': not a whole number from 1 to 65535
ebusd serve --workers 1025|refused error: invalid value '1025' for '--workers <N>': not a whole number from 1 to 1024
ebusd serve --connections 1000001|refused error: invalid value '1000001' for '--connections <N>': not a whole number from 1 to 1000000
ebusd drill --seed 2147483648 --events 1|refused error: invalid value '2147483648' for '--seed <N>': not a whole number from 0 to 2147483647
ebusd drill --seed 1 --events 100001|refused error: invalid value '100001' for '--events <N>': not a whole number from 1 to 100000
ebusd drill --seed 1 --events 0|refused error: invalid value '0' for '--events <N>': not a whole number from 1 to 100000
";

// Words that ask for a text, and its first line.
const ASKED: &str = "ebusd --help|asked An event router like Amazon EventBridge, for one machine
ebusd -h|asked An event router like Amazon EventBridge, for one machine
ebusd help|asked An event router like Amazon EventBridge, for one machine
ebusd help serve|asked Serve HTTP clients on 127.0.0.1, and deliver events
ebusd serve --help|asked Serve HTTP clients on 127.0.0.1, and deliver events
ebusd once --help|asked Read requests from standard input, write replies to standard output
ebusd help once|asked Read requests from standard input, write replies to standard output
ebusd help check|asked Read a journal without changing it, and print what it counts
ebusd check --help|asked Read a journal without changing it, and print what it counts
ebusd help drill|asked Run a generated load in memory, and print what it counts
ebusd drill -h|asked Run a generated load in memory, and print what it counts
ebusd -V|asked ebusd 0.1.0
ebusd --version|asked ebusd 0.1.0
";

// Each order of the three options of serve, by their places.
const ORDERS: &str = "012
021
102
120
201
210
";

const IN_ANY_ORDER: &str = "Serve { journal: None, port: 9101, workers: 4, connections: Some(2) }";

fn words_of(alloc: Global, line: &str) -> Result<Vec<String>, Fail> {
    let mut words = Vec::new(alloc);
    for word in line.split(' ') {
        words.push(String::from_str(alloc, word)?)?;
    }
    Ok(words)
}

// A word, and the first line of the text after it.
fn first_line(alloc: Global, word: &str, text: &str) -> Result<String, Fail> {
    let line = text.lines().next().unwrap_or("");
    Ok(format!(in alloc; "{word} {line}")?)
}

// What words are read to: a command, or the first line of a text after `asked` or `refused`.
fn read(alloc: Global, words: &[String]) -> Result<String, Fail> {
    match read_command(alloc, words) {
        Ok(command) => Ok(format!(in alloc; "{command:?}")?),
        Err(WordsFault::Help(text)) => first_line(alloc, "asked", text.as_str()),
        Err(WordsFault::Refused(text)) => first_line(alloc, "refused", text.as_str()),
        Err(WordsFault::NoMemory) => Ok(String::from_str(alloc, "out of memory")?),
    }
}

fn is_read(alloc: Global, row: &str) -> Result<bool, Fail> {
    let (line, want) = two(row);
    let words = words_of(alloc, line)?;
    Ok(read(alloc, words.as_slice())?.as_str() == want)
}

fn option_at(place: char) -> (&'static str, &'static str) {
    match place {
        '0' => ("port", "9101"),
        '1' => ("workers", "4"),
        _ => ("connections", "2"),
    }
}

// The line with its options in this order, and the sign between a name and its value.
fn ordered(alloc: Global, order: &str, sign: &str) -> Result<String, Fail> {
    let mut line = String::from_str(alloc, "ebusd serve")?;
    for place in order.chars() {
        let (name, value) = option_at(place);
        line.push_str(format!(in alloc; " --{name}{sign}{value}")?.as_str())?;
    }
    Ok(line)
}

fn is_one_command(alloc: Global, order: &str, sign: &str) -> Result<bool, Fail> {
    let line = ordered(alloc, order, sign)?;
    let words = words_of(alloc, line.as_str())?;
    Ok(read(alloc, words.as_slice())?.as_str() == IN_ANY_ORDER)
}

fn is_in_any_order(alloc: Global, order: &str) -> Result<bool, Fail> {
    Ok(is_one_command(alloc, order, " ")? && is_one_command(alloc, order, "=")?)
}

// The whole text that words get. Empty if they are a command, or memory ran out.
fn text_for(alloc: Global, line: &str) -> Result<String, Fail> {
    let words = words_of(alloc, line)?;
    match read_command(alloc, words.as_slice()) {
        Err(WordsFault::Help(text)) => Ok(String::from_str(alloc, text.as_str())?),
        Err(WordsFault::Refused(text)) => Ok(String::from_str(alloc, text.as_str())?),
        _ => Ok(String::new(alloc)),
    }
}

// Whether the lines of the text have at most 80 bytes, and the last one ends.
fn is_narrow(alloc: Global, row: &str) -> Result<bool, Fail> {
    let (line, _first) = two(row);
    let text = text_for(alloc, line)?;
    for line in text.as_str().lines() {
        if line.len() > 80 {
            return Ok(false);
        }
    }
    Ok(text.as_str().ends_with('\n'))
}

#[test]
fn words_are_read_to_their_command(rt: HostRuntime) -> Result<(), Fail> {
    all_met(rt.alloc(), COMMANDS, 15, is_read)
}

#[test]
fn options_come_in_any_order(rt: HostRuntime) -> Result<(), Fail> {
    all_met(rt.alloc(), ORDERS, 6, is_in_any_order)
}

#[test]
fn other_words_are_refused(rt: HostRuntime) -> Result<(), Fail> {
    all_met(rt.alloc(), REFUSED, 33, is_read)
}

#[test]
fn help_is_asked_for(rt: HostRuntime) -> Result<(), Fail> {
    all_met(rt.alloc(), ASKED, 13, is_read)
}

#[test]
fn texts_have_eighty_columns(rt: HostRuntime) -> Result<(), Fail> {
    all_met(rt.alloc(), ASKED, 13, is_narrow)
}

#[test]
fn a_wrong_number_is_refused_as_clap_refuses(rt: HostRuntime) -> Result<(), Fail> {
    let text = text_for(rt.alloc(), "ebusd serve --port 09100")?;
    assert_eq!(rt;
        text.as_str(),
        "error: invalid value '09100' for '--port <N>': not a whole number from 1 to 65535\n\nFor more information, try '--help'.\n"
    );
    Ok(())
}
