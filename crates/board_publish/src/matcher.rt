//! The automaton of a bus.
use crate::entered::Entered;
use json_text::Text;
use name_rows::{Row, Rows};
use rule_automaton::Automaton;
use std::marker::Model;

/// The enabled rules of a bus, each with a number, and the automaton of their patterns.
#[derive(Drop)]
pub(crate) struct Matcher {
    pub(crate) bus: Text,
    pub(crate) automaton: Automaton,
    /// In the byte order of the names.
    pub(crate) entered: Rows<Entered>,
    /// Greater than each number.
    pub(crate) places: u32,
}

impl Model for Matcher {
    ghost use Rattle.rule_automaton.specs.View.{rules_of};
    ghost use Rattle.board_publish.specs.Entered.{AreNumbered};
    ghost use Rattle.board_publish.specs.MatcherView.{Matcher as View};

    ghost Value = { View };

    ghost view = { λ m. record { bus = m.bus; patterns = rules_of m.automaton; entered = m.entered; places = m.places } };

    ghost invariant = { λ m. AreNumbered (rules_of m.automaton) m.entered m.places };
}

impl Row for Matcher {
    ghost name_of = { λ matcher. matcher.bus };

    fn row_name(&self) -> &str {
        self.bus.as_str()
    }
}
