//! Whether bytes are the text of an event that has a number and an account. Most texts take neither memory nor a tree.
#![tactic(auto)]

mod fields;
mod front;
mod id;
mod key;
mod number;
mod numbered;
mod plain;
mod quick;
mod string;
mod value;

pub use numbered::is_numbered_text;
pub use quick::is_numbered_in_one_pass;
