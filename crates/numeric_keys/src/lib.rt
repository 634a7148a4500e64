//! The millionths of a number's spelling, and the ranges that hold a number.
#![tactic(auto)]

mod fault;
mod marks;
mod number;
mod ranges;
mod significand;
mod spelling;

pub use fault::NoMemory;
pub use marks::Marks;
pub use number::millionths;
pub use ranges::Ranges;
