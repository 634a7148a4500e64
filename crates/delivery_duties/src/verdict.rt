//! What an attempt makes of a pending duty.

use delivery_queues::Failure;

/// What an attempt makes of a pending duty.
#[derive(Clone, Copy, Debug, PartialEq, Eq)]
pub enum Verdict {
    /// It is delivered.
    Deliver,
    /// It is due again at this moment, in seconds since 1970-01-01T00:00:00Z.
    Retry(u64),
    /// It ends without a delivery.
    Fail(Failure),
}
