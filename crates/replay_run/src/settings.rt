//! What a replay was asked for.
ghost use Rattle.std.specs.Prelude.{◌≡◌};

use crate::selection::TimeRange;
use json_text::Text;
use std::marker::Model;

/// What a replay was asked for.
#[derive(Debug, Drop)]
pub struct ReplaySettings {
    pub name: Text,
    /// The name of the archive.
    pub archive: Text,
    /// The name of the bus to which the events go.
    pub bus: Text,
    pub range: TimeRange,
    /// The rules that see the events; without a filter all do.
    pub rules: Option<RuleNames>,
    /// The moment of the start.
    pub started_at: u64,
}

/// The names of rules, in the order in which they were given. No name is a filter that no rule passes.
#[derive(Debug, Drop)]
pub struct RuleNames {
    names: Vec<Text>,
}

impl Model for RuleNames {
    ghost use Rattle.std.specs.Prelude.{ℕ, List};

    ghost Value = { List (List ℕ) };

    ghost view = { λ r. r.names.items };
}

impl RuleNames {
    pub fn new(names: Vec<Text>) -> RuleNames
        ensures { result ≡ names.items }
    {
        RuleNames { names }
    }

    pub fn names(&self) -> &[Text]
        ensures { result.now ≡ self.now }
    {
        &self.names
    }
}
