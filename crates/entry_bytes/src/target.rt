//! Targets as bytes.
ghost use Rattle.std.specs.Prelude.{◌≡◌, ◌++◌, ℕ, List, length, take, OnOk, OnErr, MatchResult};
ghost use Rattle.std.specs.List.{AllByRecursion};
ghost use Rattle.std.specs.Option.{option_map};
ghost use Rattle.rule_table.specs.WellFormed.{HasValidInput};
ghost use Rattle.entry_bytes.specs.Fields.{optional_bytes, IsOptional};
ghost use Rattle.entry_bytes.specs.Change.{retry_bytes, target_bytes, IsRetry, IsTarget};
ghost use Rattle.entry_bytes.specs.Reading.{Gives, Finds, Blames, optional_at, items_at, list_at};
ghost use Rattle.entry_bytes.specs.ChangeReading.{retry_at, target_at};
ghost use Rattle.entry_bytes.specs.TargetReading.{parts_of};

use crate::fault::ReadFault;
use crate::input::{put_input, take_input, valid_input};
use crate::numbers::{put_u8, put_u16, put_u32, take_u16, take_u32};
use crate::texts::{copied, put_optional_text, put_text, take_optional_str, take_str};
use json_text::{Bytes, NoMemory, Text};
use rule_targets::{GivenInput, RetryPolicy, Target};
use std::alloc::Global;

pub(crate) fn put_target(target: &Target, out: &mut Bytes) -> Result<(), NoMemory>
    ensures bytes { OnOk result (out.new ≡ out.old ++ target_bytes target.now) }
    ensures fits { OnOk result (IsTarget target.now) }
    ensures err { OnErr result (take (length out.old) out.new ≡ out.old) }
{
    put_text(target.id.as_str(), out)?;
    put_text(target.arn.as_str(), out)?;
    put_input(&target.input, out)?;
    put_retry(&target.retry, out)?;
    put_optional_text(lent(&target.dead_letter), out)
}

pub(crate) fn lent(text: &Option<Text>) -> Option<&str>
    ensures { option_map (λ t. t.now) result ≡ text.now }
{
    match text {
        Some(text) => Some(text.as_str()),
        None => None,
    }
}

fn put_retry(retry: &Option<RetryPolicy>, out: &mut Bytes) -> Result<(), NoMemory>
    ensures bytes { OnOk result (out.new ≡ out.old ++ optional_bytes retry_bytes retry.now) }
    ensures fits { OnOk result (IsOptional IsRetry retry.now) }
    ensures err { OnErr result (take (length out.old) out.new ≡ out.old) }
{
    match retry {
        Some(policy) => {
            put_u8(1, out)?;
            put_u16(policy.attempts, out)?;
            put_u32(policy.age, out)
        }
        None => put_u8(0, out),
    }
}

#[tactic(auto, unfolding(crate::specs::Reading::optional_at, crate::specs::ChangeReading::retry_at))]
fn take_retry(bytes: &[u8]) -> Result<(Option<RetryPolicy>, &[u8]), ReadFault>
    ensures { Gives (λ x. (x.0, x.1.now)) result (optional_at retry_at bytes.now) }
{
    match bytes {
        [] => Err(ReadFault::NotSpelled),
        [0, rest @ ..] => Ok((None, rest)),
        [1, rest @ ..] => {
            let (attempts, rest) = take_u16(rest)?;
            let (age, rest) = take_u32(rest)?;
            Ok((Some(RetryPolicy { attempts, age }), rest))
        }
        [_, ..] => Err(ReadFault::NotSpelled),
    }
}

/// The members of a target. Its input may not be valid.
#[derive(Debug, Drop)]
pub(crate) struct TargetParts<'a> {
    pub id: &'a str,
    pub arn: &'a str,
    pub input: Option<GivenInput>,
    pub retry: Option<RetryPolicy>,
    pub dead_letter: Option<&'a str>,
}

#[tactic(auto, unfolding(crate::specs::ChangeReading::target_at))]
fn take_parts(alloc: Global, bytes: &[u8]) -> Result<(TargetParts<'_>, &[u8]), ReadFault>
    ensures { Gives (λ x. (parts_of x.0, x.1.now)) result (target_at bytes.now) }
{
    let (id, rest) = take_str(bytes)?;
    let (arn, rest) = take_str(rest)?;
    let (input, rest) = take_input(alloc, rest)?;
    let (retry, rest) = take_retry(rest)?;
    let (dead_letter, rest) = take_optional_str(rest)?;
    let parts = TargetParts {
        id,
        arn,
        input,
        retry,
        dead_letter,
    };
    Ok((parts, rest))
}

/// The target with these members. Refused if its input is not valid.
fn made(alloc: Global, parts: TargetParts<'_>) -> Result<Target, ReadFault>
    ensures { MatchResult result
        (λ target. (target ≡ parts_of parts.entry) × HasValidInput (parts_of parts.entry))
        (Blames (¬ HasValidInput (parts_of parts.entry))) }
{
    let TargetParts {
        id,
        arn,
        input,
        retry,
        dead_letter,
    } = parts;
    match valid_input(alloc, input) {
        Ok(input) => Ok(Target {
            id: Text::from_str(alloc, id)?,
            arn: Text::from_str(alloc, arn)?,
            input,
            retry,
            dead_letter: copied(alloc, dead_letter)?,
        }),
        Err(fault) => Err(fault),
    }
}

fn take_target(alloc: Global, bytes: &[u8]) -> Result<(Target, &[u8]), ReadFault>
    ensures { Finds (λ x. (x.0, x.1.now)) HasValidInput result (target_at bytes.now) }
{
    match take_parts(alloc, bytes) {
        Ok((parts, rest)) => match made(alloc, parts) {
            Ok(target) => Ok((target, rest)),
            Err(fault) => Err(fault),
        },
        Err(fault) => Err(fault),
    }
}

/// The targets at the front, and the bytes after them. Refused if an input is not valid.
pub(crate) fn take_targets(alloc: Global, bytes: &[u8]) -> Result<(Vec<Target>, &[u8]), ReadFault>
    ensures { Finds (λ x. (x.0.items, x.1.now)) (AllByRecursion HasValidInput) result (list_at target_at bytes.now) }
{
    match take_u32(bytes) {
        Ok((count, rest)) => take_items(alloc, count, rest),
        Err(fault) => Err(fault),
    }
}

/// Memory grows with the targets that are found, not with the count.
fn take_items(alloc: Global, count: u32, bytes: &[u8]) -> Result<(Vec<Target>, &[u8]), ReadFault>
    ensures { Finds (λ x. (x.0.items, x.1.now)) (AllByRecursion HasValidInput) result (items_at target_at count bytes.now) }
{
    let mut targets = Vec::new(alloc);
    let mut rest = bytes;
    for _ in 0..count {
        match take_target(alloc, rest) {
            Ok((target, after)) => {
                targets.push(target)?;
                rest = after;
            }
            Err(fault) => return Err(fault),
        }
    }
    Ok((targets, rest))
}
