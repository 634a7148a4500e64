//! Claims: leases on deliveries.

/// The right to attempt the pending duty of this number, until the claim is settled or put back.
pub struct Claim {
    pub number: u64,
}
