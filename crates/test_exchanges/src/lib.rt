//! Exchanges by their names, for the crates of tests: what each one sends, and the reply that it gets.
#![tactic(auto)]

use std::alloc::Global;
use std::fmt::Write;
use test_rows::four;

/// Each reading of the clock, in seconds: 2023-11-14T22:13:20Z. The replies have it.
pub const NOW: u64 = 1_700_000_000;

/// The name of an exchange, the action that it asks for, the body of its message, and the body of its reply. Its status is 200.
const EXCHANGES: &str =
    r#"queue|RouterLocal.CreateQueue|{"QueueName":"q"}|{"QueueArn":"arn:aws:sqs:us-east-1:111122223333:q"}
rule|AWSEvents.PutRule|{"Name":"r","EventPattern":"{\"source\":[\"shop.orders\"]}"}|{"RuleArn":"arn:aws:events:us-east-1:111122223333:rule/r"}
target|AWSEvents.PutTargets|{"Rule":"r","Targets":[{"Id":"t","Arn":"arn:aws:sqs:us-east-1:111122223333:q"}]}|{"FailedEntryCount":0,"FailedEntries":[]}
endpoint|AWSEvents.PutTargets|{"Rule":"r","Targets":[{"Id":"t","Arn":"http://localhost:8080/orders"}]}|{"FailedEntryCount":0,"FailedEntries":[]}
address|AWSEvents.PutTargets|{"Rule":"r","Targets":[{"Id":"t","Arn":"http://127.0.0.1:9000/x"}]}|{"FailedEntryCount":0,"FailedEntries":[]}
event|AWSEvents.PutEvents|{"Entries":[{"Source":"shop.orders","DetailType":"Order","Detail":"{\"total\":12.50}"}]}|{"FailedEntryCount":0,"Entries":[{"EventId":"00000000-0000-8000-8000-000000000001"}]}
delivered|RouterLocal.DeliverDue|{}|{"Attempts":1,"Delivered":1,"DeadLettered":0,"Dropped":0}
dropped|RouterLocal.DeliverDue|{}|{"Attempts":1,"Delivered":0,"DeadLettered":0,"Dropped":1}
idle|RouterLocal.DeliverDue|{}|{"Attempts":0,"Delivered":0,"DeadLettered":0,"Dropped":0}
pending|RouterLocal.DeliverDue|{}|{"Attempts":1,"Delivered":0,"DeadLettered":0,"Dropped":0}
peek|RouterLocal.PeekMessages|{"QueueName":"q"}|{"Messages":[{"Number":1,"Body":"{\"version\":\"0\",\"id\":\"00000000-0000-8000-8000-000000000001\",\"detail-type\":\"Order\",\"source\":\"shop.orders\",\"account\":\"111122223333\",\"time\":\"2023-11-14T22:13:20Z\",\"region\":\"us-east-1\",\"resources\":[],\"detail\":{\"total\":12.50}}","Attributes":{}}]}
peek-last|RouterLocal.PeekMessages|{"QueueName":"q"}|{"Messages":[{"Number":1,"Body":"{\"version\":\"0\",\"id\":\"00000000-0000-8000-8000-000000000001\",\"detail-type\":\"Order\",\"source\":\"shop.orders\",\"account\":\"111122223333\",\"time\":\"9892-03-08T12:26:40Z\",\"region\":\"us-east-1\",\"resources\":[],\"detail\":{\"total\":12.50}}","Attributes":{}}]}
peek-none|RouterLocal.PeekMessages|{"QueueName":"q"}|{"Messages":[]}
archive|AWSEvents.CreateArchive|{"ArchiveName":"a","EventSourceArn":"arn:aws:events:us-east-1:111122223333:event-bus/default"}|{"ArchiveArn":"arn:aws:events:us-east-1:111122223333:archive/a","CreationTime":1700000000,"State":"ENABLED"}
events|AWSEvents.PutEvents|{"Entries":[{"Source":"shop.orders","DetailType":"Order","Detail":"{}"},{"Source":"shop.orders","DetailType":"Order","Detail":"{}"}]}|{"FailedEntryCount":0,"Entries":[{"EventId":"00000000-0000-8000-8000-000000000001"},{"EventId":"00000000-0000-8000-8000-000000000002"}]}
replay|AWSEvents.StartReplay|{"ReplayName":"p","EventSourceArn":"arn:aws:events:us-east-1:111122223333:archive/a","EventStartTime":1700000000,"EventEndTime":1700000000,"Destination":{"Arn":"arn:aws:events:us-east-1:111122223333:event-bus/default"}}|{"ReplayArn":"arn:aws:events:us-east-1:111122223333:replay/p","State":"RUNNING","ReplayStartTime":1700000000}
stamp|AWSEvents.PutTargets|{"Rule":"r","Targets":[{"Id":"t","Arn":"arn:aws:sqs:us-east-1:111122223333:q","InputTransformer":{"InputTemplate":"<aws.events.event.ingestion-time>"}}]}|{"FailedEntryCount":0,"FailedEntries":[]}
steps|RouterLocal.StepReplays|{}|{"Steps":2}
both-delivered|RouterLocal.DeliverDue|{}|{"Attempts":2,"Delivered":2,"DeadLettered":0,"Dropped":0}
peek-stamps|RouterLocal.PeekMessages|{"QueueName":"q"}|{"Messages":[{"Number":1,"Body":"\"2023-11-14T22:13:21Z\"","Attributes":{}},{"Number":2,"Body":"\"2023-11-14T22:13:23Z\"","Attributes":{}}]}
"#;

/// The reply named `failed`, to any message whose batch cannot be kept.
const FAILED: &str =
    "HTTP/1.1 500 Internal Server Error\r\nContent-Type: application/x-amz-json-1.1\r\nContent-Length: 60\r\n\r\n{\"__type\":\"InternalFailure\",\"message\":\"The journal failed.\"}";

/// The action, the body and the reply's body of the exchange with this name.
fn exchange(name: &str) -> Option<(&'static str, &'static str, &'static str)> {
    for row in EXCHANGES.lines() {
        let (known, action, body, reply) = four(row);
        if known == name {
            return Some((action, body, reply));
        }
    }
    None
}

fn add_message(text: &mut String, name: &str) -> Option<()> {
    let (action, body, _) = exchange(name)?;
    let size = body.len();
    write!(
        text,
        "POST / HTTP/1.1\r\nHost: 127.0.0.1\r\nX-Amz-Target: {action}\r\nContent-Length: {size}\r\n\r\n{body}"
    )
    .ok()
}

/// The messages of the exchanges with these names, which spaces part. `None` if there is no such exchange, or out of memory.
pub fn messages(alloc: Global, names: &str) -> Option<String> {
    let mut text = String::new(alloc);
    for name in names.split_whitespace() {
        add_message(&mut text, name)?;
    }
    Some(text)
}

fn add_reply(text: &mut String, name: &str) -> Option<()> {
    if name == "failed" {
        return text.push_str(FAILED).ok();
    }
    let (_, _, body) = exchange(name)?;
    let size = body.len();
    write!(
        text,
        "HTTP/1.1 200 OK\r\nContent-Type: application/x-amz-json-1.1\r\nContent-Length: {size}\r\n\r\n{body}"
    )
    .ok()
}

/// Adds the replies that they get.
fn add_replies(text: &mut String, names: &str) -> Option<()> {
    for name in names.split_whitespace() {
        add_reply(text, name)?;
    }
    Some(())
}

fn add_field(text: &mut String, field: &str) -> Option<()> {
    text.push('|').ok()?;
    match field.strip_prefix('=') {
        Some(names) => add_replies(text, names),
        None => text.push_str(field).ok(),
    }
}

/// What a row wants: each field after a `|`, and in place of a field that begins with `=` the replies of its exchanges. `None` if there
/// is no such exchange, or out of memory.
pub fn wanted(alloc: Global, fields: &str) -> Option<String> {
    let mut text = String::new(alloc);
    for field in fields.split('|') {
        add_field(&mut text, field)?;
    }
    Some(text)
}
