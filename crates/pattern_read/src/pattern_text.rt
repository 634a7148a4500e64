//! A pattern with its text.
ghost use Rattle.std.specs.Prelude.{◌≡◌, ◌<◌, length, [], IfOk, IfErr, MatchResult, Err};
ghost use Rattle.pattern_meaning.specs.Pattern.{Pattern as View, IsPattern};
ghost use Rattle.pattern_meaning.specs.PatternView.{pattern_of};
ghost use Rattle.pattern_read.specs.Text.{IsPatternText};
ghost use Rattle.pattern_read.specs.Refusal.{IsFault};

use crate::fault::{PatternFault, Why};
use crate::reading::read_pattern;
use json_text::Text;
use pattern_meaning::Pattern;
use std::alloc::Global;
use std::marker::Model;

/// A pattern with the text that it was read from. Contracts see the text.
#[derive(Debug, Drop)]
pub struct PatternText {
    text: Text,
    pattern: Pattern,
}

impl Model for PatternText {
    ghost use Rattle.std.specs.Prelude.{ℕ, List};
    ghost use Rattle.pattern_meaning.specs.Pattern.{IsPattern};
    ghost use Rattle.pattern_meaning.specs.PatternView.{pattern_of};
    ghost use Rattle.pattern_read.specs.Text.{IsPatternText};

    ghost Value = { List ℕ };

    ghost view = { λ p. p.text };

    ghost invariant = { λ p. IsPatternText p.text (pattern_of p.pattern) × IsPattern (pattern_of p.pattern) };
}

impl PatternText {
    /// The pattern of the text, or the first fault of the text, as by `read_pattern`.
    pub fn read(alloc: Global, text: Text) -> Result<PatternText, PatternFault>
        ensures found { IfOk result (λ p. (p ≡ text) × (meaning : View) × IsPatternText text meaning) }
        ensures only { (meaning : View) → IsPatternText text meaning
            → MatchResult result (λ p. p ≡ text) (λ e. e ≡ PatternFault.NoMemory) }
        ensures refused { IfErr result (IsFault text) }
        ensures too_long { 4096 < length text → result ≡ Err (PatternFault.Refused Why.TooLong []) }
    {
        match read_pattern(alloc, text.as_str().as_bytes()) {
            Ok(pattern) => Ok(PatternText { text, pattern }),
            Err(fault) => Err(fault),
        }
    }

    pub fn text(&self) -> &Text
        ensures { result.now ≡ self.now }
    {
        &self.text
    }

    pub fn pattern(&self) -> &Pattern
        ensures text { IsPatternText self.now (pattern_of result.now) }
        ensures pattern { IsPattern (pattern_of result.now) }
    {
        &self.pattern
    }
}
