//! Messages as a peek returns them.
ghost use Rattle.std.specs.Prelude.{◌≡◌, IfOk, decimal, map, take};
ghost use Rattle.delivery_queues.specs.DeadLetter as spec;

use crate::failure::{Cause, RetryLimit};
use crate::stored::{DeadLetter, StoredMessage};
use json_text::{NoMemory, Text};
use shared_text::SharedText;
use std::alloc::Global;
use std::collections::LinkedList;

/// A message of a queue.
#[derive(Debug, Drop)]
pub struct QueueMessage {
    /// The place among all messages of the queue so far, from 1.
    pub number: u64,
    pub body: SharedText,
    /// The attributes of a dead letter; none for a delivered text.
    pub attributes: Option<DeadLetterAttributes>,
}

/// The attributes of a dead letter.
#[derive(Debug, Drop)]
pub struct DeadLetterAttributes {
    pub rule_arn: Text,
    pub target_arn: Text,
    pub error_code: Text,
    pub error_message: Text,
    pub exhausted_retry_condition: Text,
    pub retry_attempts: Text,
}

impl QueueMessage {
    fn of(alloc: Global, message: &StoredMessage) -> Result<QueueMessage, NoMemory>
        ensures { IfOk result (λ m. m ≡ spec.shown message.now) }
    {
        let attributes = attributes_in(alloc, &message.dead)?;
        let body = message.body.share()?;
        Ok(QueueMessage {
            number: message.number,
            body,
            attributes,
        })
    }
}

fn attributes_in(
    alloc: Global,
    dead: &Option<DeadLetter>,
) -> Result<Option<DeadLetterAttributes>, NoMemory>
    ensures { IfOk result (λ a. a ≡ spec.attributes_in dead.now) }
{
    match dead {
        Some(dead) => {
            let attributes = attributes_of(alloc, dead)?;
            Ok(Some(attributes))
        }
        None => Ok(None),
    }
}

fn attributes_of(alloc: Global, dead: &DeadLetter) -> Result<DeadLetterAttributes, NoMemory>
    ensures { IfOk result (λ a. a ≡ spec.attributes_of dead.now) }
{
    let rule_arn = Text::from_str(alloc, dead.target.rule_arn())?;
    let target_arn = Text::from_str(alloc, dead.target.endpoint())?;
    let error_code = error_code(alloc, dead.failure.cause)?;
    let error_message = error_message(alloc, dead.failure.cause)?;
    let exhausted_retry_condition = Text::from_str(alloc, condition(dead.failure.exhausted))?;
    let retry_attempts = digits(alloc, dead.failure.retries)?;
    Ok(DeadLetterAttributes {
        rule_arn,
        target_arn,
        error_code,
        error_message,
        exhausted_retry_condition,
        retry_attempts,
    })
}

fn error_code(alloc: Global, cause: Cause) -> Result<Text, NoMemory>
    ensures { IfOk result (λ t. t ≡ spec.error_code cause) }
{
    match cause {
        Cause::Answered(code) => Ok(Text::from(format!(in alloc; "STATUS_{code}")?)),
        Cause::Unanswered => Text::from_str(alloc, "NO_ANSWER"),
        Cause::NotAttempted => Text::from_str(alloc, "NO_ATTEMPT"),
        Cause::TextTooLong => Text::from_str(alloc, "TEXT_TOO_LONG"),
        Cause::QueueMissing => Text::from_str(alloc, "QUEUE_NOT_FOUND"),
    }
}

fn error_message(alloc: Global, cause: Cause) -> Result<Text, NoMemory>
    ensures { IfOk result (λ t. t ≡ spec.error_message cause) }
{
    match cause {
        Cause::Answered(code) => Ok(Text::from(format!(in alloc; "Target answered {code}.")?)),
        Cause::Unanswered => Text::from_str(alloc, "Target gave no answer."),
        Cause::NotAttempted => Text::from_str(alloc, "No attempt was made."),
        Cause::TextTooLong => Text::from_str(alloc, "The text is over 1048576 bytes."),
        Cause::QueueMissing => Text::from_str(alloc, "The queue does not exist."),
    }
}

fn condition(exhausted: Option<RetryLimit>) -> &'static str
    ensures { result.now ≡ spec.exhausted_retry_condition exhausted }
{
    match exhausted {
        Some(RetryLimit::MaximumAttempts) => "MaximumRetryAttempts",
        Some(RetryLimit::MaximumAge) => "MaximumEventAgeInSeconds",
        None => "",
    }
}

fn digits(alloc: Global, number: u32) -> Result<Text, NoMemory>
    ensures { IfOk result (λ t. t ≡ decimal number) }
{
    Ok(Text::from(format!(in alloc; "{number}")?))
}

/// The first messages, at most `limit`.
pub(crate) fn first_shown(
    alloc: Global,
    messages: &LinkedList<StoredMessage>,
    limit: usize,
) -> Result<Vec<QueueMessage>, NoMemory>
    ensures { IfOk result (λ shown. shown.items ≡ map spec.shown (take limit messages.now)) }
{
    let mut shown = Vec::new(alloc);
    for message in messages.iter().take(limit) {
        shown.push(QueueMessage::of(alloc, message)?)?;
    }
    Ok(shown)
}
