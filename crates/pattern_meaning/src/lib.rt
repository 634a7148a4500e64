//! A pattern holds of a JSON value, so of an event's tree.
#![tactic(auto)]

mod absent;
mod comparison;
mod frames;
mod holds;
mod laws;
mod leaf;
mod pattern;
mod quick;
mod walk;

pub use comparison::{Comparison, Operator};
pub use holds::{alternatives_decide, plain_holds, unseen_member};
pub use laws::one_number_grammar;
pub use pattern::{Field, Fields, LeafTest, LeafTests, Pattern};
