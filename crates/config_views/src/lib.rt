//! What replies show of the configuration: the calls that describe and list buses, rules, targets and archives, and those on replays.
#![tactic(auto)]

mod archives;
mod buses;
mod inputs;
mod parts;
mod replays;
mod rules;
mod targets;

pub use archives::{archive_reply, describe_archive, list_archives};
pub use buses::{describe_event_bus, list_event_buses};
pub use replays::{cancelled_reply, describe_replay, list_replays, started_reply};
pub use rules::{describe_rule, list_rules};
pub use targets::{list_rule_names_by_target, list_targets_by_rule};
