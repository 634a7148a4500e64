//! A text is read to the JSON value that it spells, and to no other; a value is written as its one compact text.
#![tactic(auto)]

mod access;
mod base;
mod compact;
mod fault;
mod laws;
mod number;
mod object;
mod plain;
mod reader;
mod reading;
mod state;
mod string;
mod value;
mod word;

pub use access::{member_at, push_member, push_text};
pub use base::{Bytes, LAST_MOMENT, NoMemory, Text};
pub use compact::write;
pub use fault::JsonFault;
pub use laws::one_value;
pub use reading::{read, read_once};
pub use value::{Items, Json, Members, copy};
