//! The automata of all buses: one rule of one bus is entered, or removed. The other buses are shared.
ghost use Rattle.std.specs.Prelude.{◌≡◌, ℕ, List, Option, None, Some, IfOk};
ghost use Rattle.board_publish.specs.Matchers.{HasRule, IsKnown, Changes, matcher_of};

use crate::matcher::Matcher;
use json_text::NoMemory;
use name_rows::{Row, Rows};
use pattern_read::SharedPattern;
use std::alloc::Global;

/// The rule of this name on this bus, which is not entered, is entered with this pattern.
pub(crate) fn with_rule(
    alloc: Global,
    matchers: &Rows<Matcher>,
    bus: &str,
    name: &str,
    pattern: &SharedPattern,
) -> Result<Rows<Matcher>, NoMemory>
    requires { IsKnown None name.now (matcher_of bus.now matchers.now) }
    ensures { IfOk result (λ new. Changes matchers.now new bus.now name.now (Some pattern.now)) }
{
    match matchers.find(bus) {
        Some(matcher) => {
            let new = matcher.with(alloc, name, pattern)?;
            matchers.with(alloc, new)
        }
        None => {
            let none = Matcher::none(alloc, bus)?;
            let new = none.with(alloc, name, pattern)?;
            matchers.with(alloc, new)
        }
    }
}

/// The rule of this name on this bus is removed, if it is entered.
pub(crate) fn without_rule(
    alloc: Global,
    matchers: &Rows<Matcher>,
    bus: &str,
    name: &str,
) -> Result<Rows<Matcher>, NoMemory>
    ensures { IfOk result (λ new. Changes matchers.now new bus.now name.now None) }
{
    match matchers.find(bus) {
        Some(matcher) => forget(alloc, matchers, matcher, name),
        None => matchers.share(),
    }
}

/// The same, of this bus's rules.
fn forget(
    alloc: Global,
    matchers: &Rows<Matcher>,
    matcher: &Matcher,
    name: &str,
) -> Result<Rows<Matcher>, NoMemory>
    requires { matcher_of matcher.now.bus matchers.now ≡ Some matcher.now }
    ensures { IfOk result (λ new. Changes matchers.now new matcher.now.bus name.now None) }
{
    match matcher.entered.find(name) {
        Some(rule) => {
            let left = matcher.without(alloc, rule)?;
            place(alloc, matchers, left)
        }
        None => matchers.share(),
    }
}

/// With these rules of a bus; a bus without an enabled rule has no row.
fn place(
    alloc: Global,
    matchers: &Rows<Matcher>,
    matcher: Matcher,
) -> Result<Rows<Matcher>, NoMemory>
    ensures this { IfOk result (λ new. (name : List ℕ) (pattern : Option (List ℕ)) → HasRule matcher name pattern
        → IsKnown pattern name (matcher_of matcher.bus new)) }
    ensures others { IfOk result (λ new. (bus : List ℕ) → ¬ (matcher.bus ≡ bus) → matcher_of bus new ≡ matcher_of bus matchers.now) }
{
    if matcher.entered.reach(1) {
        matchers.with(alloc, matcher)
    } else {
        matchers.without(alloc, matcher.bus.as_str())
    }
}
