//! Duties and outcomes of attempts as bytes.
ghost use Rattle.std.specs.Prelude.{◌≡◌, ◌<◌, ◌^◌, ◌++◌, ◌∷◌, length, take, IfOk, OnOk, OnErr};
ghost use Rattle.input_transform.specs.Names.{after_slash};
ghost use Rattle.entry_bytes.specs.Fields.{two_bytes, four_bytes, text_bytes, optional_bytes, list_bytes, IsText, IsOptional, IsList};
ghost use Rattle.entry_bytes.specs.Duty.{duty_bytes, outcome_bytes, IsDuty, IsOutcome};
ghost use Rattle.entry_bytes.specs.Reading.{Gives, made_at, two_at, items_at, list_at};
ghost use Rattle.entry_bytes.specs.DutyReading.{duty_at, uncoded_at, outcome_at};
ghost use Rattle.entry_bytes.specs.TargetReading.{duty_of};

use crate::fault::ReadFault;
use crate::lists::put_list;
use crate::numbers::{put_u8, put_u16, put_u32, take_u8, take_u16, take_u32};
use crate::texts::{
    copied, put_flag, put_optional_text, put_text, take_flag, take_optional_str, take_str,
};
use delivery_duties::{NewDuty, Outcome};
use json_text::{Bytes, NoMemory, Text};
use shared_text::{SharedRow, SharedText, TargetRow};
use std::alloc::Global;

/// After an `Err` the bytes before are as they were.
pub fn put_duties(duties: &[NewDuty], out: &mut Bytes) -> Result<(), NoMemory>
    ensures bytes { OnOk result (out.new ≡ out.old ++ list_bytes duty_bytes duties.now) }
    ensures fits { OnOk result (IsList IsDuty duties.now) }
    ensures err { OnErr result (take (length out.old) out.new ≡ out.old) }
{
    put_list(duties, out)
}

pub(crate) fn put_duty(duty: &NewDuty, out: &mut Bytes) -> Result<(), NoMemory>
    ensures bytes { OnOk result (out.new ≡ out.old ++ duty_bytes duty.now) }
    ensures fits { OnOk result (IsDuty duty.now) }
    ensures err { OnErr result (take (length out.old) out.new ≡ out.old) }
{
    put_names(&duty.target, out)?;
    put_text(duty.text.as_str(), out)?;
    put_retries(&duty.target, out)?;
    put_flag(duty.too_long, out)
}

fn put_names(target: &SharedRow, out: &mut Bytes) -> Result<(), NoMemory>
    ensures bytes { OnOk result (out.new ≡ out.old ++ (text_bytes target.now.rule_arn ++ (text_bytes target.now.target_id ++ text_bytes target.now.endpoint))) }
    ensures fits { OnOk result (IsText target.now.rule_arn × (IsText target.now.target_id × IsText target.now.endpoint)) }
    ensures err { OnErr result (take (length out.old) out.new ≡ out.old) }
{
    put_text(target.rule_arn(), out)?;
    put_text(target.target_id(), out)?;
    put_text(target.endpoint(), out)
}

fn put_retries(target: &SharedRow, out: &mut Bytes) -> Result<(), NoMemory>
    ensures bytes { OnOk result (out.new ≡ out.old ++ (two_bytes target.now.attempts ++ (four_bytes target.now.age ++ optional_bytes text_bytes target.now.dead_letter))) }
    ensures fits { OnOk result ((target.now.attempts < 2 ^ 16) × ((target.now.age < 2 ^ 32) × IsOptional IsText target.now.dead_letter)) }
    ensures err { OnErr result (take (length out.old) out.new ≡ out.old) }
{
    put_u16(target.attempts(), out)?;
    put_u32(target.age(), out)?;
    put_optional_text(target.dead_letter(), out)
}

/// The fields of a duty.
#[derive(Clone, Copy)]
pub(crate) struct DutyParts<'a> {
    pub rule_arn: &'a str,
    pub target_id: &'a str,
    pub endpoint: &'a str,
    pub text: &'a str,
    pub attempts: u16,
    pub age: u32,
    pub dead_letter: Option<&'a str>,
    pub too_long: bool,
}

#[tactic(auto, unfolding(crate::specs::DutyReading::duty_at))]
fn take_parts(bytes: &[u8]) -> Result<(DutyParts<'_>, &[u8]), ReadFault>
    ensures { Gives (λ x. (duty_of x.0, x.1.now)) result (duty_at bytes.now) }
{
    let (rule_arn, rest) = take_str(bytes)?;
    let (target_id, rest) = take_str(rest)?;
    let (endpoint, rest) = take_str(rest)?;
    let (text, rest) = take_str(rest)?;
    let (attempts, rest) = take_u16(rest)?;
    let (age, rest) = take_u32(rest)?;
    let (dead_letter, rest) = take_optional_str(rest)?;
    let (too_long, rest) = take_flag(rest)?;
    let parts = DutyParts {
        rule_arn,
        target_id,
        endpoint,
        text,
        attempts,
        age,
        dead_letter,
        too_long,
    };
    Ok((parts, rest))
}

/// The duty with these fields. A text that is equal to the event's shares it.
fn made(alloc: Global, event: &SharedText, parts: DutyParts<'_>) -> Result<NewDuty, NoMemory>
    ensures { IfOk result (λ duty. duty ≡ duty_of parts.entry) }
{
    let row = TargetRow {
        rule_arn: Text::from_str(alloc, parts.rule_arn)?,
        rule_name: Text::from_str(alloc, name_in(parts.rule_arn))?,
        target_id: Text::from_str(alloc, parts.target_id)?,
        endpoint: Text::from_str(alloc, parts.endpoint)?,
        dead_letter: copied(alloc, parts.dead_letter)?,
        attempts: parts.attempts,
        age: parts.age,
    };
    let text = shared(alloc, event, parts.text)?;
    Ok(NewDuty {
        target: SharedRow::new(alloc, row)?,
        text,
        too_long: parts.too_long,
    })
}

/// The event's text if it is equal, else a copy.
fn shared(alloc: Global, event: &SharedText, text: &str) -> Result<SharedText, NoMemory>
    ensures { IfOk result (λ shared. shared ≡ text.now) }
{
    if event.as_str() == text {
        event.share()
    } else {
        SharedText::new(alloc, Text::from_str(alloc, text)?)
    }
}

/// The name of the rule with this ARN: what follows the last `/`.
fn name_in(arn: &str) -> &str
    ensures { result.now ≡ after_slash arn.now }
{
    match arn.rsplit_once('/') {
        Some((_front, name)) => name,
        None => arn,
    }
}

fn take_duty<'a>(
    alloc: Global,
    event: &SharedText,
    bytes: &'a [u8],
) -> Result<(NewDuty, &'a [u8]), ReadFault>
    ensures { Gives (λ x. (x.0, x.1.now)) result (duty_at bytes.now) }
{
    let (parts, rest) = take_parts(bytes)?;
    Ok((made(alloc, event, parts)?, rest))
}

/// The duties at the front, and the bytes after them. Those whose text is equal to the event's share it.
pub fn take_duties<'a>(
    alloc: Global,
    event: &SharedText,
    bytes: &'a [u8],
) -> Result<(Vec<NewDuty>, &'a [u8]), ReadFault>
    ensures { Gives (λ x. (x.0.items, x.1.now)) result (list_at duty_at bytes.now) }
{
    let (count, rest) = take_u32(bytes)?;
    take_items(alloc, event, count, rest)
}

/// Memory grows with the duties that are found, not with the count.
fn take_items<'a>(
    alloc: Global,
    event: &SharedText,
    count: u32,
    bytes: &'a [u8],
) -> Result<(Vec<NewDuty>, &'a [u8]), ReadFault>
    ensures { Gives (λ x. (x.0.items, x.1.now)) result (items_at duty_at count bytes.now) }
{
    let mut duties = Vec::new(alloc);
    let mut rest = bytes;
    for _ in 0..count {
        match take_duty(alloc, event, rest) {
            Ok((duty, after)) => {
                duties.push(duty)?;
                rest = after;
            }
            Err(fault) => return Err(fault),
        }
    }
    Ok((duties, rest))
}

/// The kind and the code of the outcome. The code is 0 if there is none.
pub fn outcome_numbers(outcome: Outcome) -> (u8, u16)
    ensures bytes { outcome_bytes outcome ≡ result.0 ∷ two_bytes result.1 }
    ensures fits { IsOutcome outcome }
{
    match outcome {
        Outcome::Accepted => (0, 0),
        Outcome::Code(code) => (1, code),
        Outcome::NoAnswer => (2, 0),
        Outcome::NoQueue => (3, 0),
        Outcome::TooOld => (4, 0),
    }
}

/// After an `Err` the bytes before are as they were.
pub fn put_outcome(outcome: Outcome, out: &mut Bytes) -> Result<(), NoMemory>
    ensures bytes { OnOk result (out.new ≡ out.old ++ outcome_bytes outcome) }
    ensures fits { IsOutcome outcome }
    ensures err { OnErr result (take (length out.old) out.new ≡ out.old) }
{
    let (kind, code) = outcome_numbers(outcome);
    put_u8(kind, out)?;
    put_u16(code, out)
}

/// The outcome at the front, and the bytes after it. Refused if it has a code and should have none.
#[tactic(auto, unfolding(crate::specs::DutyReading::outcome_at))]
pub fn take_outcome(bytes: &[u8]) -> Result<(Outcome, &[u8]), ReadFault>
    ensures { Gives (λ x. (x.0, x.1.now)) result (outcome_at bytes.now) }
{
    let (kind, rest) = take_u8(bytes)?;
    match kind {
        0 => take_uncoded(Outcome::Accepted, rest),
        1 => {
            let (code, rest) = take_u16(rest)?;
            Ok((Outcome::Code(code), rest))
        }
        2 => take_uncoded(Outcome::NoAnswer, rest),
        3 => take_uncoded(Outcome::NoQueue, rest),
        4 => take_uncoded(Outcome::TooOld, rest),
        _ => Err(ReadFault::NotSpelled),
    }
}

/// The outcome, if the code at the front is 0.
fn take_uncoded(outcome: Outcome, bytes: &[u8]) -> Result<(Outcome, &[u8]), ReadFault>
    ensures { Gives (λ x. (x.0, x.1.now)) result (uncoded_at outcome bytes.now) }
{
    let (code, rest) = take_u16(bytes)?;
    if code == 0 {
        Ok((outcome, rest))
    } else {
        Err(ReadFault::NotSpelled)
    }
}
