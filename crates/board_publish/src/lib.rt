//! A rule set with an automaton for each bus: the rules that match an event are found without trying each rule.
#![tactic(auto)]

mod board;
mod building;
mod changes;
mod entered;
mod entering;
mod matcher;
mod matchers;
mod matching;
mod numbers;

pub use board::Board;
