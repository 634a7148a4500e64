//! The tests of one text: each returns true exactly when its definition holds.
#![tactic(auto)]

mod address;
mod ascii_case;
mod cidr;
mod fault;
mod matching;
mod piece;
mod whole_text;
mod wildcard;

pub use address::Family;
pub use ascii_case::{ends_ci, equal_ci, starts_ci};
pub use cidr::Cidr;
pub use fault::{NoMemory, WildFault};
pub use piece::Piece;
pub use whole_text::{like, wild};
pub use wildcard::Wild;
