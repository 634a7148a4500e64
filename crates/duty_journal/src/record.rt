//! The record of an attempt.
ghost use Rattle.std.specs.Prelude.{◌≡◌, [], ◌∷◌};
ghost use Rattle.record_file.specs.Records.{laid};
ghost use Rattle.router_requests.specs.Batch.{attempt};
ghost use Rattle.duty_journal.specs.Batch.{batch_bytes};

use delivery_duties::Outcome;
use entry_bytes::outcome_numbers;

/// What an append writes of the batch of one attempt: the length 22, the batch in 22 bytes, and a closed gate.
pub fn attempt_record(moment: u64, duty: u64, outcome: Outcome) -> [u8; 31]
    ensures { result ≡ laid (batch_bytes (record { moment = moment; entries = attempt duty outcome ∷ [] }) ∷ []) }
{
    let m = moment.to_be_bytes();
    let d = duty.to_be_bytes();
    let (kind, code) = outcome_numbers(outcome);
    let c = code.to_be_bytes();
    [
        0, 0, 0, 0, 0, 0, 0, 22, m[0], m[1], m[2], m[3], m[4], m[5], m[6], m[7], 0, 1, 15, d[0],
        d[1], d[2], d[3], d[4], d[5], d[6], d[7], kind, c[0], c[1], 0,
    ]
}
