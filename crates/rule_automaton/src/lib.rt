//! Which rules hold of an event: an index finds those that can hold, and the plain test decides each of these.
#![tactic(auto)]

mod anchor;
mod automaton;
mod changes;
mod choosing;
mod copying;
mod entries;
mod keys;
mod laws;
mod matching;
mod rule;
mod rules;
mod table;
mod weights;

pub use automaton::Automaton;
pub use laws::leaves_of_views;
