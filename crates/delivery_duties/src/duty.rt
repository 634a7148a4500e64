//! Duties: a duty is the delivery of one event to one target.

use crate::outcome::Outcome;
use shared_text::{SharedRow, SharedText};

/// A duty that is to be added.
#[derive(Debug, Drop)]
pub struct NewDuty {
    pub target: SharedRow,
    pub text: SharedText,
    /// Whether the text was longer than a target accepts. The duty then ends when it is added.
    pub too_long: bool,
}

/// A pending duty. Its moments are in seconds since 1970-01-01T00:00:00Z.
#[derive(Debug, Drop)]
pub struct DutyRow {
    /// The place among all duties made so far, from 1.
    pub number: u64,
    pub duty: NewDuty,
    /// When it was made.
    pub accepted: u64,
    /// When its next attempt is due.
    pub due: u64,
    /// The number of attempts made so far. Each failed.
    pub attempts: u32,
    /// How the last attempt ended.
    pub last: Option<Outcome>,
    /// Whether an attempt is under way.
    pub claimed: bool,
}
