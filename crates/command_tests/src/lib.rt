//! Tests of the crates of the program's words and of the drill's messages: a module for each crate.
#![tactic(auto)]

#[cfg(test)]
mod test_command_line;
#[cfg(test)]
mod test_drill_requests;
