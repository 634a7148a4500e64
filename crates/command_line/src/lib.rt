//! The words of the command line, read by `clap`: one command, or a text for the user.
#![tactic(auto)]

mod command;
mod fault;
mod laws;
mod number;
mod table;
mod values;

pub use command::{Command, read_command};
pub use fault::WordsFault;
pub use laws::{lines_are_commands, one_command};
