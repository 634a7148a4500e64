//! A second since 1970 has one text. A text shows one second or none.
#![tactic(auto)]

mod time;

pub use time::{iso, text_moment};
