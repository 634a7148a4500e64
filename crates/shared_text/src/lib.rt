//! Shared pointers to texts, and to what a match needs of each target.
#![tactic(auto)]

mod row;
mod text;

pub use row::{SharedRow, TargetRow};
pub use text::SharedText;
