//! Retry policies: their limits, and the numbers of a target that has none.
ghost use Rattle.std.specs.Prelude.{◌≡◌};
ghost use Rattle.rule_targets.specs.Retry as spec;

use crate::target::{AskedRetry, RetryPolicy};

/// The greatest number of retry attempts.
pub(crate) const MOST_ATTEMPTS: u16 = 185;

/// The least age that a retry policy may ask for, in seconds.
const LEAST_AGE: u32 = 60;

/// The greatest such age, in seconds.
pub(crate) const GREATEST_AGE: u32 = 86_400;

/// Whether no retry policy is asked for, or both its numbers are given and within their limits.
pub(crate) fn is_retry_valid(retry: &Option<AskedRetry>) -> bool
    ensures { result ≡ spec.is_retry_valid retry.now }
{
    match retry {
        Some(retry) => are_attempts_valid(retry.attempts) && is_age_valid(retry.age),
        None => true,
    }
}

fn are_attempts_valid(attempts: Option<u16>) -> bool
    ensures { result ≡ spec.are_attempts_valid attempts }
{
    match attempts {
        Some(attempts) => attempts <= MOST_ATTEMPTS,
        None => false,
    }
}

fn is_age_valid(age: Option<u32>) -> bool
    ensures { result ≡ spec.is_age_valid age }
{
    match age {
        Some(age) => age >= LEAST_AGE && age <= GREATEST_AGE,
        None => false,
    }
}

/// The maximum number of retry attempts; 185 without a policy.
pub fn attempts_of(retry: &Option<RetryPolicy>) -> u16
    ensures { result ≡ spec.attempts_of retry.now }
{
    match retry {
        Some(policy) => policy.attempts,
        None => MOST_ATTEMPTS,
    }
}

/// The maximum age of an event, in seconds; 86,400 without a policy.
pub fn age_of(retry: &Option<RetryPolicy>) -> u32
    ensures { result ≡ spec.age_of retry.now }
{
    match retry {
        Some(policy) => policy.age,
        None => GREATEST_AGE,
    }
}
