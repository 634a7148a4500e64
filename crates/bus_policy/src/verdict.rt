//! The verdict of a policy's statements for an asker.

/// Whether an event may be put on a bus.
#[derive(Clone, Copy, Debug, PartialEq, Eq)]
pub enum Verdict<'a> {
    Allowed,
    /// By the statement of this name: its Sid, or `#` and its place, counted from 1.
    DeniedBy(&'a str),
    NoAllow,
}
