//! One event matched against many rules of one kind by an automaton, repeatedly. For most kinds ten of the rules hold of it.
ghost use Rattle.std.specs.Prelude.{◌≡◌, ◌<◌, All, IsTrue};
ghost use Rattle.json_text.specs.Compact.{IsValue};
ghost use Rattle.json_text.specs.View.{tree_of};
ghost use Rattle.rule_automaton.specs.View.{rules_of};

use crate::patterns::event_of;
use anyhow::{Context, Result, bail};
use event_flatten::Fields;
use json_text::{Json, Text};
use numeric_keys::Marks;
use pattern_read::SharedPattern;
use rule_automaton::Automaton;
use std::alloc::Global;
use std::rt::Clock;
use std::time::{Duration, Instant};

/// How many rules hold, and the times: to build the automaton, to remove and enter one rule, and of all matches.
#[derive(Clone, Copy)]
pub struct Figures {
    pub held: u32,
    pub built: Duration,
    pub changed: Duration,
    pub matched: Duration,
}

/// Matches an event against this number of rules the given number of times.
pub fn measure(
    rt: &impl Clock,
    alloc: Global,
    word: &str,
    count: u32,
    rounds: u32,
) -> Result<Figures> {
    let rules = rules_of_kind(alloc, word, count)?;
    let objects = if word == "match_list" { 100 } else { 1 };
    let event = event_of(alloc, "10.1.2.3", "paid", objects, "wanted")?;
    let start = Instant::now(rt)?;
    let automaton = Automaton::build(alloc, &rules)?;
    let built = start.elapsed(rt)?;
    let changed = change(rt, alloc, &automaton, &rules)?;
    let mut marks = Marks::of(alloc, count)?;
    let start = Instant::now(rt)?;
    match_all(alloc, &automaton, &rules, &event, &mut marks, rounds)?;
    Ok(Figures {
        held: held(&marks),
        built,
        changed,
        matched: start.elapsed(rt)?,
    })
}

/// The time to remove the first rule and to enter it again.
fn change(
    rt: &impl Clock,
    alloc: Global,
    automaton: &Automaton,
    rules: &[(u32, SharedPattern)],
) -> Result<Duration> {
    let start = Instant::now(rt)?;
    if let [(number, pattern), ..] = rules {
        let without = automaton.without(alloc, *number)?;
        let _again = without.with(alloc, *number, pattern)?;
    }
    Ok(start.elapsed(rt)?)
}

fn match_all(
    alloc: Global,
    automaton: &Automaton,
    rules: &[(u32, SharedPattern)],
    event: &Json,
    marks: &mut Marks,
    rounds: u32,
) -> Result<()>
    requires rules { rules_of automaton.now ≡ rules.now }
    requires value { IsValue (tree_of event.now) }
{
    for _ in 0..rounds {
        match_once(alloc, automaton, rules, event, marks)?;
    }
    Ok(())
}

fn match_once(
    alloc: Global,
    automaton: &Automaton,
    rules: &[(u32, SharedPattern)],
    event: &Json,
    marks: &mut Marks,
) -> Result<()>
    requires rules { rules_of automaton.now ≡ rules.now }
    requires value { IsValue (tree_of event.now) }
{
    let fields = Fields::of(alloc, automaton.paths(), event)?;
    let is_placed = have_places(rules, marks.places());
    if is_placed {
        automaton.matches(event, &fields, marks);
    }
    Ok(())
}

/// Whether each rule has a place.
fn have_places(rules: &[(u32, SharedPattern)], places: u32) -> bool
    ensures { IsTrue result → All (λ rule. rule.0 < places) rules.now }
{
    rules.iter().all(|rule| rule.0 < places)
}

fn held(marks: &Marks) -> u32 {
    let mut held: u32 = 0;
    for place in 0..marks.places() {
        if marks.has(place) {
            held = held.saturating_add(1);
        }
    }
    held
}

fn rules_of_kind(alloc: Global, word: &str, count: u32) -> Result<Vec<(u32, SharedPattern)>> {
    let mut rules = Vec::new(alloc);
    for number in 0..count {
        let text = Text::from(pattern_of_kind(alloc, word, number)?);
        rules.push((
            number,
            SharedPattern::read(alloc, text).context("the pattern")?,
        ))?;
    }
    Ok(rules)
}

/// The pattern of the rule with this number. The first ten hold of the event.
fn pattern_of_kind(alloc: Global, word: &str, number: u32) -> Result<String> {
    let holds = number < 10;
    Ok(match word {
        "match_exact" => format!(in alloc; "{{\"detail\":{{\"order\":[{number}]}}}}")?,
        "match_shared" => format!(in alloc;
            "{{\"source\":[\"10.1.2.3\"],\"detail\":{{\"order\":[{number}]}}}}"
        )?,
        "match_prefix" => on_note(alloc, "{\"prefix\":\"Please\"}", "{\"prefix\":\"x", number)?,
        "match_suffix" => on_note(alloc, "{\"suffix\":\"home.\"}", "{\"suffix\":\"x", number)?,
        "match_case" => on_note(
            alloc,
            "{\"prefix\":{\"equals-ignore-case\":\"PLEASE\"}}",
            "{\"suffix\":\"y",
            number,
        )?,
        "match_wildcard" => on_note(
            alloc,
            "{\"wildcard\":\"Please*\"}",
            "{\"wildcard\":\"x*",
            number,
        )?,
        "match_inner" => on_note(
            alloc,
            "{\"wildcard\":\"*shop*\"}",
            "{\"wildcard\":\"*x",
            number,
        )?,
        "match_but" => format!(in alloc;
            "{{\"detail\":{{\"note\":[{{\"anything-but\":[\"x{number}\"]}}],\"order\":[{{\"anything-but\":[{}]}}]}}}}",
            if holds { 0 } else { 12 }
        )?,
        "match_numeric" => format!(in alloc;
            "{{\"detail\":{{\"order\":[{{\"numeric\":[\">\",{}]}}]}}}}",
            if holds {
                number
            } else {
                number.saturating_add(12)
            }
        )?,
        "match_cidr" => format!(in alloc;
            "{{\"source\":[{{\"cidr\":\"10.{}.0.0/16\"}}]}}",
            if holds { 1 } else { 2 }
        )?,
        "match_or" => format!(in alloc;
            "{{\"$or\":[{{\"detail\":{{\"order\":[{number}]}}}},{{\"account\":[\"a{number}\"]}},{{\"source\":[\"b{number}\"]}}]}}"
        )?,
        "match_absent" => format!(in alloc;
            "{{\"source\":[\"10.1.2.3\"],\"detail\":{{\"x{number}\":[{{\"exists\":false}}]}}}}"
        )?,
        "match_list" => format!(in alloc;
            "{{\"detail\":{{\"lines\":{{\"sku\":[\"wanted\"],\"count\":[{number}]}}}}}}"
        )?,
        _ => bail!("no measurement has this name"),
    })
}

/// A test of the note, which holds for the first ten numbers.
fn on_note(alloc: Global, holding: &str, front: &str, number: u32) -> Result<String> {
    Ok(if number < 10 {
        format!(in alloc; "{{\"detail\":{{\"note\":[{holding}]}}}}")?
    } else {
        format!(in alloc; "{{\"detail\":{{\"note\":[{front}{number}\"}}]}}}}")?
    })
}
