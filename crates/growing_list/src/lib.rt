//! Lists that contracts alone see. None of them has bytes.
//! A growing list has one writer; a front of it, which may go to another thread, is a beginning that it has from then on.
#![tactic(auto)]

mod list;
mod listed;

pub use list::{Front, GrowingList};
pub use listed::{Listed, Shows};
