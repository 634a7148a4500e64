//! The router's tables, which change by batches, delivery steps and replay steps.
#![tactic(auto)]

mod errand;
mod keeping;
mod laws;
mod ready;
mod released;
mod replaying;
mod tables;

pub use api_replies::{Cause, Kind, Member, Reply, limit_reply, push_failure, refused_reply};
pub use errand::Errand;
pub use laws::{a_prepared_batch_stays_prepared, a_replay_repeats_a_front_of_its_selection};
pub use ready::{Part, Ready};
pub use released::Released;
pub use replaying::{replayed, step};
pub use tables::Tables;
