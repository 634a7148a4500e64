//! Claimed duties, with the memory of their records.
ghost use Rattle.std.specs.Prelude.{◌≡◌, ◌≤◌, vec_capacity};

use delivery_duties::Claim;
use router_requests::Batch;
use shared_text::{SharedRow, SharedText};

/// A claimed duty, with all memory that the record of its attempt needs. It is let go by `Tables::finish` or `Tables::put_back` alone.
pub struct Errand {
    pub(crate) claim: Claim,
    pub(crate) target: SharedRow,
    pub(crate) text: SharedText,
    pub(crate) accepted: u64,
    pub(crate) moment: u64,
    /// The record of the attempt, once its outcome is known. There is room for one entry.
    pub(crate) batch: Batch,
    ghost room: { 1 ≤ vec_capacity batch.entries },
}

impl Errand {
    /// The number of the duty.
    pub fn number(&self) -> u64
        ensures { result ≡ self.now.claim.number }
    {
        self.claim.number
    }

    /// The ARN of a queue, or the URL of an HTTP endpoint.
    pub fn endpoint(&self) -> &str
        ensures { result.now ≡ self.now.target.endpoint }
    {
        self.target.endpoint()
    }

    /// The text to deliver.
    pub fn text(&self) -> &str
        ensures { result.now ≡ self.now.text }
    {
        self.text.as_str()
    }

    /// When the duty was made, in seconds since 1970-01-01T00:00:00Z.
    pub fn accepted(&self) -> u64
        ensures { result ≡ self.now.accepted }
    {
        self.accepted
    }

    /// The greatest age at which the duty is attempted, in seconds.
    pub fn age(&self) -> u32
        ensures { result ≡ self.now.target.age }
    {
        self.target.age()
    }

    /// The moment of the claim, in seconds since 1970-01-01T00:00:00Z.
    pub fn moment(&self) -> u64
        ensures { result ≡ self.now.moment }
    {
        self.moment
    }

    /// The batch that records the attempt. It has no entry before `Tables::record_outcome`.
    pub fn batch(&self) -> &Batch
        ensures { result.now ≡ self.now.batch }
    {
        &self.batch
    }
}
