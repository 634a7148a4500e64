// Why delivery steps ended.
use crate::Turned;

/// Why delivery steps ended.
#[derive(Clone, Copy, Debug, PartialEq, Eq)]
pub enum Stop {
    /// The budget was used up.
    Spent,
    /// No duty is due.
    Idle,
    /// The book is at its number limit.
    Full,
    /// The book is broken.
    Broken,
    /// Out of memory.
    NoMemory,
}

/// What delivery steps did, and why they ended.
#[derive(Clone, Copy, Debug, PartialEq, Eq)]
pub struct Stepped {
    pub turned: Turned,
    pub stop: Stop,
}
