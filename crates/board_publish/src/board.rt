//! A rule set with the automata of its buses.
use crate::matcher::Matcher;
use name_rows::Rows;
use rule_table::RuleSet;
use std::marker::Model;

/// A rule set, and an automaton for each bus that has an enabled rule. Contracts see the rule set.
#[derive(Drop)]
pub struct Board {
    pub(crate) set: RuleSet,
    pub(crate) matchers: Rows<Matcher>,
}

impl Model for Board {
    ghost use Rattle.rule_table.specs.RuleSet.{RuleSet as View};
    ghost use Rattle.board_publish.specs.Matchers.{AreMatchersOf};

    ghost Value = { View };

    ghost view = { λ b. b.set };

    ghost invariant = { λ b. AreMatchersOf b.set b.matchers };
}
