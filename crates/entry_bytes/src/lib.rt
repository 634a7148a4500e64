//! Configuration changes, duties and outcomes as bytes, and back: a part of a journal's payload has one spelling.
#![tactic(auto)]

mod archive;
mod change;
mod duty;
mod fault;
mod input;
mod laws;
mod lists;
mod numbers;
mod target;
mod texts;

pub use change::{put_change, take_change};
pub use duty::{outcome_numbers, put_duties, put_outcome, take_duties, take_outcome};
pub use fault::ReadFault;
pub use laws::{
    a_change_is_read_as_it_is_spelled, a_duty_is_read_as_it_is_spelled,
    an_outcome_is_read_as_it_is_spelled,
};
pub use lists::{put_optional_texts, put_texts, take_optional_texts, take_texts};
pub use numbers::{put_u8, put_u16, put_u64, take_u8, take_u16, take_u64};
pub use texts::{put_text, take_str, take_text};
