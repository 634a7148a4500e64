//! Changes of the configuration, and the rule set after one.
#![tactic(auto)]

mod archive_row;
mod bus;
mod control;
mod laws;
mod policy;
mod rule;
mod rule_set;
mod rule_target;
mod targets;
mod well_formed;

pub use archive_row::ArchiveRow;
pub use bus::Bus;
pub use control::{Control, ControlFault, TargetFault};
pub use laws::{matching_stays, only_its_call_removes, other_buses_stay};
pub use policy::{SharedPolicy, StoredPolicy};
pub use rule::Rule;
pub use rule_set::RuleSet;
pub use rule_target::RuleTarget;
pub use targets::put_target;
pub use well_formed::{MOST_DAYS, is_well_formed};
