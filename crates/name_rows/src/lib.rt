//! Rows in the byte order of their names, in blocks that old and new lists share.
#![tactic(auto)]

mod block;
mod blocks;
mod iter;
mod place;
mod row;
mod rows;

pub use iter::RowsFrom;
pub use place::Place;
pub use row::Row;
pub use rows::Rows;
