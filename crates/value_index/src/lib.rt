//! The tests entered at one path. An index finds those that a scalar may meet, and each of these is decided.
#![tactic(auto)]

mod address;
mod hits;
mod index;
mod key;
mod leaf;
mod lengths;
mod makes;
mod range;
mod row;
mod signature;

pub use index::PathIndex;
