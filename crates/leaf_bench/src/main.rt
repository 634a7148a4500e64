//! Measures the calls of a leaf crate: `leaf_bench WORD SIZE NUMBER`. The result goes to stdout, the
//! microseconds to stderr.
//!
//! - `wild_*`, `like_*`: a pattern of SIZE letters on a text of NUMBER.
//! - `ranges_*`: SIZE ranges, made once, and NUMBER looked up a thousand times.
//! - `json`: standard input, read and written SIZE times; NUMBER is ignored.
//! - `events`: SIZE events with standard input as their detail; NUMBER is ignored.
//! - `numbered`: the text of an event with standard input as its detail, decided and read SIZE times; NUMBER is ignored.
//! - `templates`: a template filled SIZE times from an event with standard input as its detail; NUMBER is ignored.
//! - `holds_*`: a pattern on two events in turn, SIZE times; each event has a list of NUMBER objects.
//! - `match_*`: an event matched NUMBER times against SIZE rules of one kind, of which ten hold for most kinds.
//! - `share`: a rule set of SIZE rules, at most 300, shared NUMBER times.
//! - `archives`: an archive of one day that keeps SIZE events on each of NUMBER days, then a purge of all; the microseconds of each day and of it.
//! - `pattern`: standard input, read as a pattern and read as JSON, SIZE times each; NUMBER is ignored.
#![tactic(auto)]

mod archives;
mod automata;
mod events;
mod numbered;
mod patterns;
mod ranges;
mod reading;
mod sharing;
mod templates;
mod texts;
mod wildcards;

use anyhow::{Context, Result};
use std::env;
use std::io::{self, Read};
use std::rt::Clock;
use std::time::Instant;

fn main(rt: HostRuntime) -> Result<()> {
    let words: Vec<String> = env::args(&rt)?.collect(rt.alloc())?;
    let [_program, word, size, number] = words.as_slice() else {
        println!(rt; "usage: leaf_bench WORD SIZE NUMBER")?;
        return Ok(());
    };
    let size: u32 = size.as_str().parse().context("the size")?;
    let number: u32 = number.as_str().parse().context("the number")?;
    measure(&rt, word.as_str(), size, number)
}

fn measure(
    rt: &(impl Print + Eprint + Input + Clock + AllocGlobal),
    word: &str,
    size: u32,
    number: u32,
) -> Result<()> {
    match word {
        "json" => json(rt, size),
        "events" => event(rt, size),
        "numbered" => numbered_text(rt, size),
        "templates" => template(rt, size),
        "pattern" => pattern(rt, size),
        "share" => share(rt, size, number),
        "archives" => archive(rt, size, number),
        _ if word.starts_with("holds") => holds(rt, word, size, number),
        _ if word.starts_with("match") => matching(rt, word, size, number),
        _ if word.starts_with("ranges") => range(rt, word, size, number),
        _ => wildcard(rt, word, size, number),
    }
}

fn json(rt: &(impl Print + Eprint + Input + Clock + AllocGlobal), size: u32) -> Result<()> {
    let mut text = Vec::new(rt.alloc());
    rt.reader().read_to_end(&mut text)?;
    let figures = texts::measure(rt, rt.alloc(), &text, size)?;
    println!(rt; "{}", figures.bytes)?;
    eprintln!(rt;
        "{} {}",
        figures.read.as_micros(),
        figures.written.as_micros()
    )?;
    Ok(())
}

fn event(rt: &(impl Print + Eprint + Input + Clock + AllocGlobal), size: u32) -> Result<()> {
    let detail = io::read_to_string(rt.alloc(), rt.reader())?;
    let figures = events::measure(rt, rt.alloc(), detail.as_str(), size)?;
    println!(rt; "{}", figures.bytes)?;
    eprintln!(rt; "{}", figures.took.as_micros())?;
    Ok(())
}

fn numbered_text(
    rt: &(impl Print + Eprint + Input + Clock + AllocGlobal),
    size: u32,
) -> Result<()> {
    let detail = io::read_to_string(rt.alloc(), rt.reader())?;
    let figures = numbered::measure(rt, rt.alloc(), detail.as_str(), size)?;
    println!(rt; "{} {}", figures.bytes, figures.is_one)?;
    eprintln!(rt;
        "{} {}",
        figures.decided.as_micros(),
        figures.read.as_micros()
    )?;
    Ok(())
}

fn template(rt: &(impl Print + Eprint + Input + Clock + AllocGlobal), size: u32) -> Result<()> {
    let detail = io::read_to_string(rt.alloc(), rt.reader())?;
    let figures = templates::measure(rt, rt.alloc(), detail.as_str(), size)?;
    println!(rt; "{}", figures.bytes)?;
    eprintln!(rt; "{}", figures.took.as_micros())?;
    Ok(())
}

fn holds(
    rt: &(impl Print + Eprint + Clock + AllocGlobal),
    word: &str,
    size: u32,
    number: u32,
) -> Result<()> {
    let figures = patterns::measure(rt, rt.alloc(), word, size, number)?;
    println!(rt; "{}", figures.held)?;
    eprintln!(rt; "{}", figures.took.as_micros())?;
    Ok(())
}

fn matching(
    rt: &(impl Print + Eprint + Clock + AllocGlobal),
    word: &str,
    size: u32,
    number: u32,
) -> Result<()> {
    let figures = automata::measure(rt, rt.alloc(), word, size, number)?;
    println!(rt; "{}", figures.held)?;
    eprintln!(rt;
        "{} {} {}",
        figures.built.as_micros(),
        figures.changed.as_micros(),
        figures.matched.as_micros()
    )?;
    Ok(())
}

fn pattern(rt: &(impl Print + Eprint + Input + Clock + AllocGlobal), size: u32) -> Result<()> {
    let mut text = Vec::new(rt.alloc());
    rt.reader().read_to_end(&mut text)?;
    let figures = reading::measure(rt, rt.alloc(), &text, size)?;
    println!(rt; "{}", figures.is_pattern)?;
    eprintln!(rt;
        "{} {}",
        figures.pattern.as_micros(),
        figures.json.as_micros()
    )?;
    Ok(())
}

fn share(rt: &(impl Print + Eprint + Clock + AllocGlobal), size: u32, number: u32) -> Result<()> {
    let figures = sharing::measure(rt, rt.alloc(), size, number)?;
    println!(rt; "{}", figures.changes)?;
    eprintln!(rt; "{}", figures.took.as_micros())?;
    Ok(())
}

fn archive(rt: &(impl Print + Eprint + Clock + AllocGlobal), size: u32, number: u32) -> Result<()> {
    let figures = archives::measure(rt, rt.alloc(), size, number)?;
    println!(rt; "{}", figures.kept)?;
    for day in &figures.days {
        eprint!(rt; "{} ", day.as_micros())?;
    }
    eprintln!(rt; "{}", figures.purged.as_micros())?;
    Ok(())
}

fn range(
    rt: &(impl Print + Eprint + Clock + AllocGlobal),
    word: &str,
    size: u32,
    number: u32,
) -> Result<()> {
    let figures = ranges::measure(rt, rt.alloc(), word, size, number)?;
    println!(rt; "{}", figures.hit)?;
    eprintln!(rt;
        "{} {}",
        figures.made.as_micros(),
        figures.found.as_micros()
    )?;
    Ok(())
}

fn wildcard(
    rt: &(impl Print + Eprint + Clock + AllocGlobal),
    word: &str,
    size: u32,
    number: u32,
) -> Result<()> {
    let case = wildcards::Case::make(rt.alloc(), word, size, number)?;
    let start = Instant::now(rt)?;
    let answer = case.answer();
    let micros = start.elapsed(rt)?.as_micros();
    println!(rt; "{answer}")?;
    eprintln!(rt; "{micros}")?;
    Ok(())
}
