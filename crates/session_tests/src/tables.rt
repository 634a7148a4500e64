//! What no request shows of the tables after a session: which targets a replay has, the moment, and which values threads share or pass
//! on. What requests show is in router_core.rows.
use archive_keep::EventRef;
use bus_host::{NoDisk, NoGate};
use event_shape::{DEFAULT_BUS, Event};
use replay_run::{NewReplay, Replays, Rest, Stepped};
use router_core::{Errand, Tables};
use router_disk::{LinkFault, MemClock, MemLink, MemSink, MemSource};
use router_history::{Book, Machine};
use router_requests::{SeenTargets, see_plain_event};
use router_sessions::serve_session;
use rule_table::RuleSet;
use rule_targets::SharedInput;
use shared_text::{SharedRow, SharedText};
use std::alloc::Global;
use std::sync::Wait;
use std::test::Fail;
use test_exchanges::{NOW, messages};
use turn_book::Hall;

/// The machine of the book after a session of these messages.
fn machine_after<Rt: Wait>(rt: &Rt, alloc: Global, messages: Vec<u8>) -> Result<Machine, Fail> {
    let book: Book<NoDisk> = Book::first(alloc)?;
    let mut link = MemLink::always(alloc, Err(LinkFault::Failed));
    let mut input = MemSource::new(messages);
    let mut output = MemSink::new(alloc);
    let mut clock = MemClock::always(alloc, NOW);
    match Hall::make(alloc, book, 1) {
        Ok((hall, mut pass)) => {
            serve_session(
                rt,
                alloc,
                &hall,
                &mut pass,
                &mut link,
                &mut input,
                &mut output,
                &mut clock,
                0,
                &NoGate,
            );
            let Book { machine, home } = hall.close(pass, Vec::new(alloc));
            let _disk = home.into_disk();
            Ok(machine)
        }
        Err((_, book)) => {
            let _disk = book.into_disk();
            Err(Fail::from("out of memory"))
        }
    }
}

fn add_message(alloc: Global, bytes: &mut Vec<u8>, row: &str) -> Result<(), Fail> {
    match row.split_once('|') {
        Some((operation, body)) => {
            let len = body.len();
            let text = format!(in alloc;
                "POST / HTTP/1.1\r\nHost: a\r\nX-Amz-Target: {operation}\r\nContent-Length: {len}\r\n\r\n{body}"
            )?;
            bytes.extend_from_slice(text.as_bytes())?;
            Ok(())
        }
        None => Err(Fail::from("a row has not two fields")),
    }
}

/// The messages of rows, which are an operation and a body each.
fn messages_of(alloc: Global, rows: &str) -> Result<Vec<u8>, Fail> {
    let mut bytes = Vec::new(alloc);
    for row in rows.lines() {
        add_message(alloc, &mut bytes, row)?;
    }
    Ok(bytes)
}

/// Operations and bodies that put five rules, each with the targets `t` and `s`: `a` is not enabled, `b` tests the source, `c` a text in
/// a list of the detail, `d` another source and `e` the name of a replay.
const RULES: &str = r#"RouterLocal.CreateQueue|{"QueueName":"q"}
AWSEvents.PutRule|{"Name":"e","EventPattern":"{\"replay-name\":[\"p\"]}"}
AWSEvents.PutTargets|{"Rule":"e","Targets":[{"Id":"t","Arn":"arn:aws:sqs:us-east-1:111122223333:q"},{"Id":"s","Arn":"arn:aws:sqs:us-east-1:111122223333:q"}]}
AWSEvents.PutRule|{"Name":"d","EventPattern":"{\"source\":[\"other\"]}"}
AWSEvents.PutTargets|{"Rule":"d","Targets":[{"Id":"t","Arn":"arn:aws:sqs:us-east-1:111122223333:q"},{"Id":"s","Arn":"arn:aws:sqs:us-east-1:111122223333:q"}]}
AWSEvents.PutRule|{"Name":"c","EventPattern":"{\"detail\":{\"a\":[\"1\"]}}"}
AWSEvents.PutTargets|{"Rule":"c","Targets":[{"Id":"t","Arn":"arn:aws:sqs:us-east-1:111122223333:q"},{"Id":"s","Arn":"arn:aws:sqs:us-east-1:111122223333:q"}]}
AWSEvents.PutRule|{"Name":"b","EventPattern":"{\"source\":[\"shop\"]}"}
AWSEvents.PutTargets|{"Rule":"b","Targets":[{"Id":"t","Arn":"arn:aws:sqs:us-east-1:111122223333:q"},{"Id":"s","Arn":"arn:aws:sqs:us-east-1:111122223333:q"}]}
AWSEvents.PutRule|{"Name":"a","EventPattern":"{\"source\":[\"shop\"]}","State":"DISABLED"}
AWSEvents.PutTargets|{"Rule":"a","Targets":[{"Id":"t","Arn":"arn:aws:sqs:us-east-1:111122223333:q"},{"Id":"s","Arn":"arn:aws:sqs:us-east-1:111122223333:q"}]}
"#;

/// The text of event 1, of which `b` and `c` match the source and the detail.
const FIRST_EVENT: &str =
    r#"{"version":"0","id":"00000000-0000-8000-8000-000000000001","detail-type":"Order","source":"shop","account":"111122223333","time":"1970-01-01T00:16:40Z","region":"us-east-1","resources":[],"detail":{"a":["0","1"]}}"#;

/// The name of a replay that sends the event again, and the targets that are seen. Worked out by hand.
const REPLAYED: &str =
    "p|arn:aws:events:us-east-1:111122223333:rule/b s;arn:aws:events:us-east-1:111122223333:rule/b t;arn:aws:events:us-east-1:111122223333:rule/c s;arn:aws:events:us-east-1:111122223333:rule/c t;arn:aws:events:us-east-1:111122223333:rule/e s;arn:aws:events:us-east-1:111122223333:rule/e t;
q|arn:aws:events:us-east-1:111122223333:rule/b s;arn:aws:events:us-east-1:111122223333:rule/b t;arn:aws:events:us-east-1:111122223333:rule/c s;arn:aws:events:us-east-1:111122223333:rule/c t;
";

fn event(alloc: Global) -> Result<Event, Fail> {
    match Event::read(alloc, FIRST_EVENT.as_bytes())? {
        Some(event) => Ok(event),
        None => Err(Fail::from("the text is no event's")),
    }
}

/// The ARN of each target's rule, and the target's id, in order.
fn listed(alloc: Global, targets: &SeenTargets) -> Result<String, Fail> {
    let mut listed = String::new(alloc);
    for target in targets {
        let part = format!(in alloc; "{} {};", target.row.rule_arn(), target.row.target_id())?;
        listed.push_str(&part)?;
    }
    Ok(listed)
}

/// Whether the event has these targets on the default bus if the replay sends it, at the configuration version of the set.
fn is_seen(alloc: Global, set: &RuleSet, replay: &str, want: &str) -> Result<bool, Fail> {
    let event = event(alloc)?;
    let (k, targets) = see_plain_event(alloc, set, DEFAULT_BUS, &event, Some(replay))?;
    Ok(k == 11 && listed(alloc, &targets)?.as_str() == want)
}

fn is_row_seen(alloc: Global, set: &RuleSet, row: &str) -> Result<bool, Fail> {
    match row.split_once('|') {
        Some((replay, want)) => is_seen(alloc, set, replay, want),
        None => Ok(false),
    }
}

#[test]
fn a_replay_has_the_targets_of_the_rules_that_match(rt: HostRuntime) -> Result<(), Fail> {
    let machine = machine_after(&rt, rt.alloc(), messages_of(rt.alloc(), RULES)?)?;
    for row in REPLAYED.lines() {
        assert!(rt;
            is_row_seen(rt.alloc(), machine.tables.set(), row)?,
            "{row}"
        );
    }
    assert_eq!(rt; REPLAYED.lines().count(), 2);
    Ok(())
}

/// A test of a pattern.
const TESTED: &str =
    r#"AWSEvents.TestEventPattern|{"EventPattern":"{\"source\":[\"a\"]}","Event":"{\"id\":\"1\",\"account\":\"2\",\"source\":\"a\",\"time\":\"3\",\"region\":\"4\",\"resources\":[],\"detail-type\":\"5\"}"}"#;

/// The moment of the tables after a session of these messages.
fn moment_after<Rt: Wait>(rt: &Rt, alloc: Global, messages: Vec<u8>) -> Result<u64, Fail> {
    Ok(machine_after(rt, alloc, messages)?.tables.moment())
}

#[test]
fn the_moment_is_that_of_the_last_change(rt: HostRuntime) -> Result<(), Fail> {
    let tested = messages_of(rt.alloc(), TESTED)?;
    assert_eq!(rt; moment_after(&rt, rt.alloc(), tested)?, 0);
    let changes = messages(rt.alloc(), "queue rule target event delivered peek").expect(
        &rt, "messages",
    );
    assert_eq!(rt; moment_after(&rt, rt.alloc(), changes.into_bytes())?, NOW);
    Ok(())
}

/// Accepts only types whose values threads may share and pass on.
fn may_be_shared<T: Send + Sync>() {}

/// Accepts the types whose values threads share, or pass on.
fn cross_threads() {
    may_be_shared::<RuleSet>();
    may_be_shared::<SharedRow>();
    may_be_shared::<SharedText>();
    may_be_shared::<SharedInput>();
    may_be_shared::<EventRef>();
}

/// Accepts only types whose values may move between threads.
fn may_move<T: Send>() {}

/// Accepts the types whose values threads pass on, and do not share.
fn move_between_threads() {
    may_move::<Tables>();
    may_move::<Errand>();
    may_move::<Replays>();
    may_move::<NewReplay>();
    may_move::<Stepped>();
    may_move::<Rest>();
}

#[test]
fn values_cross_threads(_rt: HostRuntime) -> Result<(), Fail> {
    cross_threads();
    move_between_threads();
    Ok(())
}
