//! Targets as requests ask for them and as rules have them, with their inputs; and what the members of a target, names and ids have to be
//! whatever the rule set is.
#![tactic(auto)]

mod checks;
mod given;
mod laws;
mod reading;
mod retry;
mod shared_input;
mod target;
mod well_formed;

pub use checks::{has_two_inputs, is_target_arn, member_fault};
pub use given::{GivenInput, Transformer};
pub use laws::one_text;
pub use retry::{age_of, attempts_of};
pub use shared_input::{SharedInput, share_input};
pub use target::{AskedInput, AskedRetry, AskedTarget, RetryPolicy, Target, copy_optional};
pub use well_formed::{are_ids, are_targets, names_rule};
