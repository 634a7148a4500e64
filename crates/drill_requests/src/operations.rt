//! The messages of a drill, one function for each operation.
ghost use Rattle.std.specs.Prelude.{◌≡◌, ◌<◌, Some, IfOk, map, slice_get};
ghost use Rattle.drill_requests.specs.Messages as messages;

use crate::message::{message, push_number};
use json_text::NoMemory;
use std::alloc::Global;

/// How many rules are named by a number.
const NUMBERED: u64 = 10;

const LOW_RULE: &[u8] =
    br#"{"Name":"low","EventPattern":"{\"detail\":{\"b\":[{\"numeric\":[\"<\",600]}]}}"}"#;

const LOW_TARGETS: &[u8] =
    br#"{"Rule":"low","Targets":[{"Id":"t","Arn":"arn:aws:sqs:us-east-1:111122223333:d"}]}"#;

pub(crate) fn create_queue(alloc: Global) -> Result<Vec<u8>, NoMemory>
    ensures { IfOk result (λ bytes. bytes.items ≡ messages.create_queue) }
{
    message(alloc, "RouterLocal.CreateQueue", br#"{"QueueName":"d"}"#)
}

/// Puts a rule, by its place among the eleven.
pub(crate) fn put_rule(alloc: Global, place: u64) -> Result<Vec<u8>, NoMemory>
    requires { place < 11 }
    ensures { IfOk result (λ bytes. slice_get (map messages.put_rule messages.rules) place ≡ Some bytes.items) }
{
    if place < NUMBERED {
        put_numbered_rule(alloc, place)
    } else {
        message(alloc, "AWSEvents.PutRule", LOW_RULE)
    }
}

fn put_numbered_rule(alloc: Global, number: u64) -> Result<Vec<u8>, NoMemory>
    ensures { IfOk result (λ bytes. bytes.items ≡ messages.put_rule (messages.name_rule number)) }
{
    let mut body = Vec::new(alloc);
    push_number(&mut body, r#"{"Name":"k"#, number)?;
    push_number(
        &mut body,
        r#"","EventPattern":"{\"detail\":{\"k\":[\"k"#,
        number,
    )?;
    body.extend_from_slice(br#"\"]}}"}"#)?;
    message(alloc, "AWSEvents.PutRule", body.as_slice())
}

/// Gives a rule its target, by the rule's place among the eleven.
pub(crate) fn put_targets(alloc: Global, place: u64) -> Result<Vec<u8>, NoMemory>
    requires { place < 11 }
    ensures { IfOk result (λ bytes. slice_get (map messages.put_targets messages.rules) place ≡ Some bytes.items) }
{
    if place < NUMBERED {
        put_numbered_targets(alloc, place)
    } else {
        message(alloc, "AWSEvents.PutTargets", LOW_TARGETS)
    }
}

fn put_numbered_targets(alloc: Global, number: u64) -> Result<Vec<u8>, NoMemory>
    ensures { IfOk result (λ bytes. bytes.items ≡ messages.put_targets (messages.name_rule number)) }
{
    let mut body = Vec::new(alloc);
    push_number(&mut body, r#"{"Rule":"k"#, number)?;
    body.extend_from_slice(
        br#"","Targets":[{"Id":"t","Arn":"arn:aws:sqs:us-east-1:111122223333:d"}]}"#,
    )?;
    message(alloc, "AWSEvents.PutTargets", body.as_slice())
}

/// Puts an event with these two numbers in its detail.
pub(crate) fn put_events(alloc: Global, a: u64, b: u64) -> Result<Vec<u8>, NoMemory>
    ensures { IfOk result (λ bytes. bytes.items ≡ messages.put_events a b) }
{
    let mut body = Vec::new(alloc);
    push_number(
        &mut body,
        r#"{"Entries":[{"Source":"drill","DetailType":"drill","Detail":"{\"k\":\"k"#,
        a,
    )?;
    push_number(&mut body, r#"\",\"b\":"#, b)?;
    body.extend_from_slice(br#"}"}]}"#)?;
    message(alloc, "AWSEvents.PutEvents", body.as_slice())
}

/// The bytes of the message that asks for at most 1,000 attempts of deliveries that are due.
pub fn deliver_due_message(alloc: Global) -> Result<Vec<u8>, NoMemory>
    ensures { IfOk result (λ bytes. bytes.items ≡ messages.deliver_due) }
{
    message(alloc, "RouterLocal.DeliverDue", br#"{"Budget":1000}"#)
}
