//! Patterns that several values share.
ghost use Rattle.std.specs.Prelude.{◌≡◌, ◌<◌, length, [], IfOk, IfErr, MatchResult, Err};
ghost use Rattle.pattern_meaning.specs.Pattern.{Pattern as View};
ghost use Rattle.pattern_read.specs.Text.{IsPatternText};
ghost use Rattle.pattern_read.specs.Refusal.{IsFault};

use crate::fault::{PatternFault, Why};
use crate::pattern_text::PatternText;
use json_text::{NoMemory, Text};
use std::alloc::Global;
use std::marker::Model;
use std::sync::Arc;

/// A pointer to a pattern with its text, which several values share. Contracts see the text.
#[derive(Debug, Drop)]
pub struct SharedPattern {
    pattern: Arc<PatternText>,
}

impl Model for SharedPattern {
    ghost use Rattle.std.specs.Prelude.{ℕ, List};
    ghost use Rattle.std.specs.Arc.{arc_value};

    ghost Value = { List ℕ };

    ghost view = { λ p. arc_value p.pattern };
}

impl SharedPattern {
    /// The pattern of the text, or the first fault of the text, as by `read_pattern`.
    pub fn read(alloc: Global, text: Text) -> Result<SharedPattern, PatternFault>
        ensures found { IfOk result (λ p. (p ≡ text) × (meaning : View) × IsPatternText text meaning) }
        ensures only { (meaning : View) → IsPatternText text meaning
            → MatchResult result (λ p. p ≡ text) (λ e. e ≡ PatternFault.NoMemory) }
        ensures refused { IfErr result (IsFault text) }
        ensures too_long { 4096 < length text → result ≡ Err (PatternFault.Refused Why.TooLong []) }
    {
        match PatternText::read(alloc, text) {
            Ok(pattern) => match Arc::new(alloc, pattern) {
                Ok(pattern) => Ok(SharedPattern { pattern }),
                Err(_) => Err(PatternFault::NoMemory),
            },
            Err(fault) => Err(fault),
        }
    }

    /// Another pointer to the same pattern. Allocates nothing.
    pub fn share(&self) -> Result<SharedPattern, NoMemory>
        ensures { IfOk result (λ p. p ≡ self.now) }
    {
        Ok(SharedPattern {
            pattern: Arc::try_clone(&self.pattern)?,
        })
    }

    /// The pattern with its text.
    pub fn pattern(&self) -> &PatternText
        ensures { result.now ≡ self.now }
    {
        &self.pattern
    }
}
