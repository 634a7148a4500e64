//! The board of a rule set.
ghost use Rattle.std.specs.Prelude.{◌≡◌, ◌++◌, ◌∷◌, [], ℕ, List, None, IfOk, IfSome, OnOk};
ghost use Rattle.name_rows.specs.Rows.{AreSorted, named, placed, replacing};
ghost use Rattle.board_publish.specs.Matchers.{IsKnown, enabled_in, matcher_of};

use crate::board::Board;
use crate::entered::Entered;
use crate::entering::with_place;
use crate::matcher::Matcher;
use json_text::{NoMemory, Text};
use name_rows::{Row, Rows};
use pattern_read::SharedPattern;
use rule_automaton::Automaton;
use rule_table::{Bus, Rule, RuleSet};
use std::alloc::Global;

impl Board {
    /// The board of the rule set.
    pub fn of(alloc: Global, set: &RuleSet) -> Result<Board, NoMemory>
        ensures { IfOk result (λ board. board ≡ set.now) }
    {
        let _version = set.control_count();
        let shared = set.share()?;
        let mut matchers = Rows::new(alloc)?;
        let mut buses = set.buses();
        while let Some(bus) = buses.next() {
            matchers = with_bus(alloc, matchers, bus)?;
        }
        Ok(Board {
            set: shared,
            matchers,
        })
    }
}

/// With the rules of this bus, of which none is entered yet.
fn with_bus(alloc: Global, matchers: Rows<Matcher>, bus: &Bus) -> Result<Rows<Matcher>, NoMemory>
    requires sorted { AreSorted (λ rule. rule.name) bus.now.rules }
    requires unknown { (name : List ℕ) → IsKnown None name (matcher_of bus.now.name matchers) }
    ensures this { IfOk result (λ new. (name : List ℕ) → IsKnown (enabled_in (named (λ rule. rule.name) name bus.now.rules)) name
        (matcher_of bus.now.name new)) }
    ensures others { IfOk result (λ new. (other : List ℕ) → ¬ (bus.now.name ≡ other) → matcher_of other new ≡ matcher_of other matchers) }
{
    match matcher_of_bus(alloc, bus)? {
        Some(matcher) => matchers.with(alloc, matcher),
        None => Ok(matchers),
    }
}

/// The rules of the bus. `None` if none of them is enabled.
fn matcher_of_bus(alloc: Global, bus: &Bus) -> Result<Option<Matcher>, NoMemory>
    requires { AreSorted (λ rule. rule.name) bus.now.rules }
    ensures known { IfOk result (λ found. (name : List ℕ) → IsKnown (enabled_in (named (λ rule. rule.name) name bus.now.rules)) name found) }
    ensures bus { IfOk result (λ found. IfSome found (λ matcher. matcher.bus ≡ bus.now.name)) }
{
    let mut patterns = Vec::new(alloc);
    let mut entered = Rows::new(alloc)?;
    let mut places: u32 = 0;
    let mut rules = bus.rules();
    while let Some(rule) = rules.next() {
        if rule.is_enabled() {
            entered = enter(alloc, entered, &mut patterns, places, rule)?;
            places = with_place(places, places)?;
        }
    }
    if places == 0 {
        return Ok(None);
    }
    let bus = Text::from_str(alloc, bus.name())?;
    let automaton = Automaton::build(alloc, &patterns)?;
    Ok(Some(Matcher {
        bus,
        automaton,
        entered,
        places,
    }))
}

/// Enters the rule with this number.
fn enter(
    alloc: Global,
    entered: Rows<Entered>,
    patterns: &mut Vec<(u32, SharedPattern)>,
    number: u32,
    rule: &Rule,
) -> Result<Rows<Entered>, NoMemory>
    ensures pattern { OnOk result (patterns.new.items ≡ patterns.old.items ++ (number, rule.now.pattern) ∷ []) }
    ensures rows { IfOk result (λ rows. rows ≡ placed (λ rule. rule.name) replacing (record { name = rule.now.name; number = number }) entered) }
{
    let pattern = rule.shared_pattern().share()?;
    let name = Text::from_str(alloc, rule.name())?;
    patterns.push((number, pattern))?;
    entered.with(alloc, Entered { name, number })
}
