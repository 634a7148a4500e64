//! Deliveries with their retries, over the queues; each delivery is in exactly one state.
#![tactic(auto)]

mod claim;
mod counts;
mod duties;
mod duty;
mod history;
mod laws;
mod new_duties;
mod outcome;
mod owed;
mod retry;
mod schedule;
mod verdict;

pub use claim::Claim;
pub use counts::Counts;
pub use duties::Duties;
pub use duty::{DutyRow, NewDuty};
pub use laws::{
    a_claim_put_back_changes_nothing, a_duty_begins_in_its_first_state,
    a_fate_is_that_of_the_recorded_attempts, an_attempt_changes_the_state_of_its_duty_alone,
    no_other_act_changes_a_state,
};
pub use new_duties::NewDuties;
pub use outcome::{Fate, Outcome, SettledDuty};
pub use verdict::Verdict;
