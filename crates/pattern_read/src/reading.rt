//! Texts to patterns.
ghost use Rattle.std.specs.Prelude.{◌≡◌, ◌<◌, length, true, [], IfOk, IfErr, MatchResult, Err, codes};
ghost use Rattle.json_text.specs.View.{tree_of};
ghost use Rattle.pattern_meaning.specs.Pattern.{Pattern as View, IsPattern, LacksRoot};
ghost use Rattle.pattern_meaning.specs.PatternView.{pattern_of};
ghost use Rattle.pattern_read.specs.Text.{IsPatternText};
ghost use Rattle.pattern_read.specs.Refusal.{IsFault};
ghost use Rattle.pattern_read.specs.Reading.{IsRead};

use crate::building::read_value;
use crate::counting::{MAX_ALTERNATIVES, count};
use crate::fault::{PatternFault, Why};
use json_text::{Json, JsonFault, Text, read_once};
use pattern_meaning::Pattern;
use std::alloc::Global;

/// How many bytes a pattern's text may have.
const MAX_LEN: usize = 4_096;

/// How many levels of lists and objects a pattern may have.
const MAX_LEVELS: u32 = 100;

/// The pattern that the text is, or its first fault. The time is linear in a text that is a
/// pattern. `TooLong` is returned also when memory
/// is short; the path of another fault takes memory.
pub fn read_pattern(alloc: Global, bytes: &[u8]) -> Result<Pattern, PatternFault>
    ensures found { IfOk result (λ p. IsPatternText bytes.now (pattern_of p)) }
    ensures only { (p : View) → IsPatternText bytes.now p
        → MatchResult result (λ q. pattern_of q ≡ p) (λ e. e ≡ PatternFault.NoMemory) }
    ensures refused { IfErr result (IsFault bytes.now) }
    ensures too_long { 4096 < length bytes.now → result ≡ Err (PatternFault.Refused Why.TooLong []) }
    ensures pattern { IfOk result (λ p. IsPattern (pattern_of p)) }
    ensures no_id { IfOk result (λ p. LacksRoot (codes "id") (pattern_of p)) }
{
    if bytes.len() > MAX_LEN {
        return Err(whole(alloc, Why::TooLong));
    }
    match read_once(alloc, bytes, MAX_LEVELS) {
        Ok(json) => read_json(alloc, json),
        Err(JsonFault::NotJson { at: _ }) => Err(whole(alloc, Why::NotJson)),
        Err(JsonFault::TooDeep { at: _ }) => Err(whole(alloc, Why::TooDeep)),
        Err(JsonFault::KeyTwice { at: _ }) => Err(whole(alloc, Why::KeyTwice)),
        Err(JsonFault::NoMemory) => Err(PatternFault::NoMemory),
    }
}

/// The pattern that the value is, if it has few enough alternatives.
fn read_json(alloc: Global, json: Json) -> Result<Pattern, PatternFault>
    ensures { IsRead (tree_of json) result }
{
    match read_value(alloc, true, json) {
        Ok(pattern) => {
            if count(&pattern) > MAX_ALTERNATIVES {
                Err(whole(alloc, Why::TooMany))
            } else {
                Ok(pattern)
            }
        }
        Err(fault) => Err(fault.into_pattern_fault(alloc)),
    }
}

/// A fault that has no place.
fn whole(alloc: Global, why: Why) -> PatternFault
    ensures { result ≡ PatternFault.Refused why [] }
{
    PatternFault::Refused {
        why,
        path: Text::new(alloc),
    }
}
