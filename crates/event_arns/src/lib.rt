//! The names in ARNs of buses, archives and rules, if the text is nothing but such an ARN.
#![tactic(auto)]

mod arns;

pub use arns::{archive_of_arn, bus_of_arn, rule_of_arn};
