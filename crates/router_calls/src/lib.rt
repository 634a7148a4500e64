//! The router machine: decides what each request changes and what its reply is.
#![tactic(auto)]

mod decided;
mod delete_rule;
mod laws;
mod on_rule;
mod policy_change;
mod put_events;
mod put_permission;
mod put_rule;
mod put_rule_state;
mod put_targets;
mod remove_permission;
mod remove_targets;
mod requests;
mod test_event_pattern;

pub use laws::{
    a_stranger_only_publishes, a_target_gets_one_json_text, one_answer, one_step, only_its_request,
};
pub use requests::decide;
