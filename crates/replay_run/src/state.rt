//! States of replays.
use thiserror::Error;

/// The state of a replay. EventBridge's other states do not occur.
#[derive(Clone, Copy, Debug, PartialEq, Eq)]
pub enum ReplayState {
    Running,
    Completed,
    Cancelled,
}

/// The replay is not running, so it cannot be cancelled.
#[derive(Clone, Copy, Debug, PartialEq, Eq, Error)]
#[error("the replay is not running")]
pub struct IllegalStatus;
