//! Counts of duties.

/// The number of duties made so far, and the number in each state.
#[derive(Clone, Copy, Debug, PartialEq, Eq)]
pub struct Counts {
    pub created: u64,
    pub pending: u64,
    pub delivered: u64,
    pub dead_lettered: u64,
    pub dropped: u64,
}
