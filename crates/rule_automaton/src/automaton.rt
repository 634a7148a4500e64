//! Rules that are found by the leaves of an event.
ghost use Rattle.rule_automaton.specs.Table.{IsTableOf, entered_by_all};

use crate::rule::Rule;
use crate::table::Table;
use crate::weights::Weights;

/// Rules, each with a number. Those that can hold of an event are found by its leaves.
#[derive(Drop)]
pub struct Automaton {
    pub(crate) rules: Vec<Rule>,
    pub(crate) table: Table,
    pub(crate) weights: Weights,
    ghost entered: { ∥ IsTableOf (entered_by_all rules.items) table ∥₁ },
}
