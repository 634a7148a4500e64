//! PeekMessages.
ghost use Rattle.std.specs.Prelude.{◌≡◌, IfOk, Some};
ghost use Rattle.json_text.specs.View.{tree_of, pairs_of};
ghost use Rattle.api_replies.specs.View.{reply_of};
ghost use Rattle.call_replies.specs.Replies.{attribute_members, message_report, messages_reply, peeked};

use crate::replies::number_json;
use api_replies::{Cause, Kind, Reply, refused_reply};
use delivery_duties::Duties;
use delivery_queues::{DeadLetterAttributes, QueueMessage};
use json_text::{Items, Json, Members, NoMemory, Text, push_member, push_text};
use rule_table::RuleSet;
use std::alloc::Global;

/// The reply to a PeekMessages: at most `limit` messages of the queue, or the refusal that the queue does not exist.
pub fn peek_messages(
    alloc: Global,
    set: &RuleSet,
    duties: &Duties,
    queue: &str,
    limit: u32,
) -> Result<Reply, NoMemory>
    ensures { IfOk result (λ r. reply_of r ≡ peeked queue.now limit set.now duties.now) }
{
    if !set.queue(queue) {
        let name = Text::from_str(alloc, queue)?;
        let kind = Kind::Queue;
        return refused_reply(alloc, &Cause::NotFound { kind, name });
    }
    let messages = duties.peek(alloc, queue, limit)?;
    messages_reply(alloc, messages)
}

/// The reply with the messages, oldest first.
fn messages_reply(alloc: Global, messages: Vec<QueueMessage>) -> Result<Reply, NoMemory>
    ensures { IfOk result (λ r. reply_of r ≡ messages_reply messages.items) }
{
    let mut items: Items = Vec::with_capacity(alloc, messages.len())?;
    for message in messages {
        items.push(message_json(alloc, &message)?)?;
    }
    let mut members: Members = Vec::with_capacity(alloc, 1)?;
    push_member(alloc, &mut members, "Messages", Json::List(items))?;
    Ok(Reply {
        status: 200,
        body: Json::Obj(members),
    })
}

fn message_json(alloc: Global, message: &QueueMessage) -> Result<Json, NoMemory>
    ensures { IfOk result (λ j. tree_of j ≡ message_report message.now) }
{
    let mut members: Members = Vec::with_capacity(alloc, 3)?;
    let number = number_json(alloc, message.number)?;
    push_member(alloc, &mut members, "Number", number)?;
    push_text(alloc, &mut members, "Body", message.body.as_str())?;
    let attributes = attribute_members(alloc, &message.attributes)?;
    push_member(alloc, &mut members, "Attributes", Json::Obj(attributes))?;
    Ok(Json::Obj(members))
}

fn attribute_members(
    alloc: Global,
    attributes: &Option<DeadLetterAttributes>,
) -> Result<Members, NoMemory>
    ensures { IfOk result (λ members. pairs_of members.items ≡ attribute_members attributes.now) }
{
    match attributes {
        Some(attributes) => dead_letter_members(alloc, attributes),
        None => Ok(Vec::new(alloc)),
    }
}

/// The attributes of a dead letter.
fn dead_letter_members(
    alloc: Global,
    attributes: &DeadLetterAttributes,
) -> Result<Members, NoMemory>
    ensures { IfOk result (λ members. pairs_of members.items ≡ attribute_members (Some attributes.now)) }
{
    let mut members: Members = Vec::with_capacity(alloc, 6)?;
    push_text(
        alloc,
        &mut members,
        "RULE_ARN",
        attributes.rule_arn.as_str(),
    )?;
    push_text(
        alloc,
        &mut members,
        "TARGET_ARN",
        attributes.target_arn.as_str(),
    )?;
    push_text(
        alloc,
        &mut members,
        "ERROR_CODE",
        attributes.error_code.as_str(),
    )?;
    push_text(
        alloc,
        &mut members,
        "ERROR_MESSAGE",
        attributes.error_message.as_str(),
    )?;
    push_text(
        alloc,
        &mut members,
        "EXHAUSTED_RETRY_CONDITION",
        attributes.exhausted_retry_condition.as_str(),
    )?;
    push_text(
        alloc,
        &mut members,
        "RETRY_ATTEMPTS",
        attributes.retry_attempts.as_str(),
    )?;
    Ok(members)
}
