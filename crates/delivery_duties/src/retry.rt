//! Retries: what an attempt makes of a duty.
ghost use Rattle.std.specs.Prelude.{◌≡◌, ◌≤◌, ◌+◌, ◌<◌, ◌^◌, ℕ};
ghost use Rattle.json_text.specs.Moment.{IsMoment};
ghost use Rattle.delivery_duties.specs.Retry as spec;
ghost use Rattle.delivery_duties.specs.declared.verdict.Verdict.TheVariants.{Retry};

use crate::duty::DutyRow;
use crate::outcome::Outcome;
use crate::verdict::Verdict;
use delivery_queues::{Cause, Failure, RetryLimit};

/// The longest delay between two attempts, in seconds.
const LONGEST_DELAY: u64 = 600;

/// What an attempt at the moment, which ended with the outcome, makes of the duty.
pub(crate) fn judge(row: &DutyRow, outcome: Outcome, moment: u64) -> Verdict
    requires { IsMoment moment }
    ensures verdict { result ≡ spec.verdict_of row.now moment outcome }
    ensures few { (due : ℕ) → result ≡ Retry due → row.now.attempts + 1 < 2 ^ 32 }
{
    match outcome {
        Outcome::Accepted => Verdict::Deliver,
        Outcome::Code(code) => {
            if is_retried(code) {
                repeat(row, Cause::Answered(code), moment)
            } else {
                end(row, Cause::Answered(code))
            }
        }
        Outcome::NoAnswer => repeat(row, Cause::Unanswered, moment),
        Outcome::NoQueue => end(row, Cause::QueueMissing),
        Outcome::TooOld => Verdict::Fail(Failure {
            cause: last_cause(row.last),
            exhausted: Some(RetryLimit::MaximumAge),
            retries: row.attempts.saturating_sub(1),
        }),
    }
}

/// Ends the duty after this failed attempt, which is not repeated.
fn end(row: &DutyRow, cause: Cause) -> Verdict
    ensures { result ≡ spec.ended row.now cause }
{
    Verdict::Fail(Failure {
        cause,
        exhausted: None,
        retries: row.attempts,
    })
}

/// Repeats this failed attempt, unless a limit is reached.
fn repeat(row: &DutyRow, cause: Cause, moment: u64) -> Verdict
    requires { IsMoment moment }
    ensures verdict { result ≡ spec.repeated row.now moment cause }
    ensures few { (due : ℕ) → result ≡ Retry due → row.now.attempts + 1 < 2 ^ 32 }
{
    let next = moment + delay(row.attempts);
    if row.attempts >= u32::from(row.duty.target.attempts()) {
        Verdict::Fail(Failure {
            cause,
            exhausted: Some(RetryLimit::MaximumAttempts),
            retries: row.attempts,
        })
    } else if next.saturating_sub(row.accepted) > u64::from(row.duty.target.age()) {
        Verdict::Fail(Failure {
            cause,
            exhausted: Some(RetryLimit::MaximumAge),
            retries: row.attempts,
        })
    } else {
        Verdict::Retry(next)
    }
}

/// Whether an attempt that was answered with this code is repeated.
fn is_retried(code: u16) -> bool
    ensures { result ≡ spec.is_retried code }
{
    code == 409 || code == 429 || (500 <= code && code <= 599)
}

/// The seconds from a failed attempt to the next one, after this number of earlier failures.
fn delay(failures: u32) -> u64
    ensures delay { result ≡ spec.delay failures }
    ensures longest { result ≤ 600 }
{
    // The cap comes before the power, which would not fit.
    (1u64 << failures.min(10)).min(LONGEST_DELAY)
}

fn last_cause(last: Option<Outcome>) -> Cause
    ensures { result ≡ spec.last_cause last }
{
    match last {
        Some(Outcome::Code(code)) => Cause::Answered(code),
        Some(Outcome::NoAnswer) => Cause::Unanswered,
        Some(Outcome::NoQueue) => Cause::QueueMissing,
        Some(Outcome::Accepted) | Some(Outcome::TooOld) | None => Cause::NotAttempted,
    }
}
