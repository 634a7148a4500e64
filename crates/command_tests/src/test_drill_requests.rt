//! The messages of a drill. The rows are what a script makes of the generator and the requests, apart from this program. No clause says
//! that the messages are made if memory is available.
use drill_requests::{DrillMessages, deliver_due_message};
use std::alloc::Global;
use std::test::Fail;
use test_rows::{all_met, three, two};

// The messages of seed 1 with three events: the operation, and the number of bytes and the text of the body.
const MESSAGES: &str = r#"RouterLocal.CreateQueue|17|{"QueueName":"d"}
AWSEvents.PutRule|60|{"Name":"k0","EventPattern":"{\"detail\":{\"k\":[\"k0\"]}}"}
AWSEvents.PutRule|60|{"Name":"k1","EventPattern":"{\"detail\":{\"k\":[\"k1\"]}}"}
AWSEvents.PutRule|60|{"Name":"k2","EventPattern":"{\"detail\":{\"k\":[\"k2\"]}}"}
AWSEvents.PutRule|60|{"Name":"k3","EventPattern":"{\"detail\":{\"k\":[\"k3\"]}}"}
AWSEvents.PutRule|60|{"Name":"k4","EventPattern":"{\"detail\":{\"k\":[\"k4\"]}}"}
AWSEvents.PutRule|60|{"Name":"k5","EventPattern":"{\"detail\":{\"k\":[\"k5\"]}}"}
AWSEvents.PutRule|60|{"Name":"k6","EventPattern":"{\"detail\":{\"k\":[\"k6\"]}}"}
AWSEvents.PutRule|60|{"Name":"k7","EventPattern":"{\"detail\":{\"k\":[\"k7\"]}}"}
AWSEvents.PutRule|60|{"Name":"k8","EventPattern":"{\"detail\":{\"k\":[\"k8\"]}}"}
AWSEvents.PutRule|60|{"Name":"k9","EventPattern":"{\"detail\":{\"k\":[\"k9\"]}}"}
AWSEvents.PutRule|80|{"Name":"low","EventPattern":"{\"detail\":{\"b\":[{\"numeric\":[\"<\",600]}]}}"}
AWSEvents.PutTargets|81|{"Rule":"k0","Targets":[{"Id":"t","Arn":"arn:aws:sqs:us-east-1:111122223333:d"}]}
AWSEvents.PutTargets|81|{"Rule":"k1","Targets":[{"Id":"t","Arn":"arn:aws:sqs:us-east-1:111122223333:d"}]}
AWSEvents.PutTargets|81|{"Rule":"k2","Targets":[{"Id":"t","Arn":"arn:aws:sqs:us-east-1:111122223333:d"}]}
AWSEvents.PutTargets|81|{"Rule":"k3","Targets":[{"Id":"t","Arn":"arn:aws:sqs:us-east-1:111122223333:d"}]}
AWSEvents.PutTargets|81|{"Rule":"k4","Targets":[{"Id":"t","Arn":"arn:aws:sqs:us-east-1:111122223333:d"}]}
AWSEvents.PutTargets|81|{"Rule":"k5","Targets":[{"Id":"t","Arn":"arn:aws:sqs:us-east-1:111122223333:d"}]}
AWSEvents.PutTargets|81|{"Rule":"k6","Targets":[{"Id":"t","Arn":"arn:aws:sqs:us-east-1:111122223333:d"}]}
AWSEvents.PutTargets|81|{"Rule":"k7","Targets":[{"Id":"t","Arn":"arn:aws:sqs:us-east-1:111122223333:d"}]}
AWSEvents.PutTargets|81|{"Rule":"k8","Targets":[{"Id":"t","Arn":"arn:aws:sqs:us-east-1:111122223333:d"}]}
AWSEvents.PutTargets|81|{"Rule":"k9","Targets":[{"Id":"t","Arn":"arn:aws:sqs:us-east-1:111122223333:d"}]}
AWSEvents.PutTargets|82|{"Rule":"low","Targets":[{"Id":"t","Arn":"arn:aws:sqs:us-east-1:111122223333:d"}]}
AWSEvents.PutEvents|89|{"Entries":[{"Source":"drill","DetailType":"drill","Detail":"{\"k\":\"k8\",\"b\":758}"}]}
AWSEvents.PutEvents|89|{"Entries":[{"Source":"drill","DetailType":"drill","Detail":"{\"k\":\"k3\",\"b\":515}"}]}
AWSEvents.PutEvents|89|{"Entries":[{"Source":"drill","DetailType":"drill","Detail":"{\"k\":\"k1\",\"b\":627}"}]}
"#;

// A seed, a number of events and the place of a message from 0 on, and that message.
const PLACES: &str =
    r#"0|1|23|AWSEvents.PutEvents|89|{"Entries":[{"Source":"drill","DetailType":"drill","Detail":"{\"k\":\"k0\",\"b\":468}"}]}
2147483647|2|23|AWSEvents.PutEvents|89|{"Entries":[{"Source":"drill","DetailType":"drill","Detail":"{\"k\":\"k9\",\"b\":409}"}]}
2147483647|2|24|AWSEvents.PutEvents|89|{"Entries":[{"Source":"drill","DetailType":"drill","Detail":"{\"k\":\"k2\",\"b\":718}"}]}
7|300|322|AWSEvents.PutEvents|88|{"Entries":[{"Source":"drill","DetailType":"drill","Detail":"{\"k\":\"k7\",\"b\":93}"}]}
"#;

// Whether these are the bytes of the message of the row.
fn is_message(alloc: Global, bytes: &[u8], row: &str) -> Result<bool, Fail> {
    let (operation, size, body) = three(row);
    let wanted = format!(in alloc;
        "POST / HTTP/1.1\r\nHost: 127.0.0.1\r\nX-Amz-Target: {operation}\r\nContent-Length: {size}\r\n\r\n{body}"
    )?;
    Ok(bytes == wanted.as_bytes())
}

// Whether the next message is that of the row.
fn is_next(alloc: Global, messages: &mut DrillMessages, row: &str) -> Result<bool, Fail> {
    match messages.next(alloc)? {
        Some(bytes) => is_message(alloc, bytes.as_slice(), row),
        None => Ok(false),
    }
}

// Passes over the next messages.
fn pass(alloc: Global, messages: &mut DrillMessages, count: u32) -> Result<(), Fail> {
    for _ in 0..count {
        let _passed = messages.next(alloc)?;
    }
    Ok(())
}

fn is_at_its_place(alloc: Global, row: &str) -> Result<bool, Fail> {
    let (seed, events, rest) = three(row);
    let (place, message) = two(rest);
    let mut messages = DrillMessages::new(seed.parse::<u32>()?, events.parse::<u32>()?);
    pass(alloc, &mut messages, place.parse::<u32>()?)?;
    is_next(alloc, &mut messages, message)
}

#[test]
fn a_drill_has_these_messages(rt: HostRuntime) -> Result<(), Fail> {
    let mut messages = DrillMessages::new(1, 3);
    assert_eq!(rt; MESSAGES.lines().count(), 26);
    for row in MESSAGES.lines() {
        assert!(rt; is_next(rt.alloc(), &mut messages, row)?, "{row}");
    }
    assert!(rt; messages.next(rt.alloc())?.is_none());
    assert!(rt; messages.next(rt.alloc())?.is_none());
    Ok(())
}

#[test]
fn other_seeds_have_other_events(rt: HostRuntime) -> Result<(), Fail> {
    all_met(rt.alloc(), PLACES, 4, is_at_its_place)
}

#[test]
fn the_last_message_asks_for_a_thousand_attempts(rt: HostRuntime) -> Result<(), Fail> {
    let bytes = deliver_due_message(rt.alloc())?;
    assert!(rt;
        is_message(
            rt.alloc(),
            bytes.as_slice(),
            r#"RouterLocal.DeliverDue|15|{"Budget":1000}"#
        )?
    );
    Ok(())
}
