//! Tests of what no request shows of messages and of members: a module for each crate.
#![tactic(auto)]

#[cfg(test)]
mod test_api_members;
#[cfg(test)]
mod test_api_messages;
