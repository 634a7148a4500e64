//! Tests of the crate `duty_journal`: batches as bytes, and bytes that are no batch.
ghost use Rattle.std.specs.Prelude.{◌<◌, IfOk};

use crate::changes::{control, names, texts};
use delivery_duties::{NewDuty, Outcome};
use duty_journal::{attempt_record, put_batch, take_batch};
use json_text::{Bytes, Text};
use replay_run::{RuleNames, TimeRange};
use router_requests::{AcceptedEvent, Batch, Entry, StartedReplay, SteppedReplay};
use shared_text::{SharedRow, SharedText, TargetRow};
use std::alloc::Global;
use std::test::Fail;
use test_rows::{all_met, last, three, two};

/// The moment of each batch.
const MOMENT: u64 = 1_700_000_000;

/// Batches of one operation, and their bytes, worked by hand. A change is as in `changes`. Others: `event|ARCHIVES|TEXT`, the event 7 of the
/// bus `b`, matched on version 3, whose time is 1600000000, which archives of these names keep, and which has one duty; `try|DUTY|OUTCOME`;
/// `start|NAME|ARCHIVE|START|END|RULES`, a replay that starts, whose filter has these rules, or that has no filter if they are `-`;
/// `step|NAME|EVENT|TEXT`, a step of a replay, with one duty; `cancel|NAME`; `delete|QUEUE|THROUGH`.
const BATCHES: &str = r#"bus|b|000000006553f1000001010000000162
no bus|b|000000006553f1000001020000000162
rule|b|r|{"source":["x"]}|000000006553f10000010300000001620000000172000000107b22736f75726365223a5b2278225d7d01
no rule|b|r|000000006553f10000010400000001620000000172
enable|b|r|000000006553f1000001050000000162000000017201
put|2|b|r|t|arn:aws:sqs:us-east-1:111122223333:q||||000000006553f100000106000000016200000001720000000200000001740000002461726e3a6177733a7371733a75732d656173742d313a3131313132323232333333333a7100000000000001740000002461726e3a6177733a7371733a75732d656173742d313a3131313132323232333333333a71000000
put|1|b|r|t|arn:aws:sqs:us-east-1:111122223333:q|9|61|arn:aws:sqs:us-east-1:111122223333:q|000000006553f100000106000000016200000001720000000100000001740000002461726e3a6177733a7371733a75732d656173742d313a3131313132323232333333333a71000100090000003d010000002461726e3a6177733a7371733a75732d656173742d313a3131313132323232333333333a71
remove|b|r|t,u|000000006553f100000107000000016200000001720000000200000001740000000175
policy|b|{"Version":"2012-10-17","Statement":[{"Effect":"Allow","Principal":"*","Action":"*","Resource":"*"}]}|000000006553f100000108000000016201000000657b2256657273696f6e223a22323031322d31302d3137222c2253746174656d656e74223a5b7b22456666656374223a22416c6c6f77222c225072696e636970616c223a222a222c22416374696f6e223a222a222c225265736f75726365223a222a227d5d7d
no policy|b|000000006553f100000108000000016200
queue|q|000000006553f1000001090000000171
no queue|q|000000006553f10000010a0000000171
archive|a|b|0||000000006553f10000010b000000016100000001620000000000
archive|a|b|30|{"source":["x"]}|000000006553f10000010b0000000161000000016201000000107b22736f75726365223a5b2278225d7d0000001e
update|a|2147483647|{"source":["x"]}|000000006553f10000010c000000016101000000107b22736f75726365223a5b2278225d7d7fffffff
update|a|1||000000006553f10000010c00000001610000000001
no archive|a|000000006553f10000010d0000000161
event||{}|000000006553f10000010e000000000000000700000001620000000000000003000000005f5e1000000000027b7d00000000000000010000002e61726e3a6177733a6576656e74733a75732d656173742d313a3131313132323232333333333a72756c652f622f7200000001740000002461726e3a6177733a7371733a75732d656173742d313a3131313132323232333333333a71000000027b7d00090000003d0000
event|a,c|{}|000000006553f10000010e000000000000000700000001620000000000000003000000005f5e1000000000027b7d0000000200000001610000000163000000010000002e61726e3a6177733a6576656e74733a75732d656173742d313a3131313132323232333333333a72756c652f622f7200000001740000002461726e3a6177733a7371733a75732d656173742d313a3131313132323232333333333a71000000027b7d00090000003d0000
try|5|accepted|000000006553f10000010f0000000000000005000000
try|5|503|000000006553f10000010f00000000000000050101f7
try|5|silent|000000006553f10000010f0000000000000005020000
try|5|missing|000000006553f10000010f0000000000000005030000
try|5|old|000000006553f10000010f0000000000000005040000
start|p|a|0|258|-|000000006553f100000110000000017000000001610000000000000000000000000000010200
start|p|a|1|1||000000006553f10000011000000001700000000161000000000000000100000000000000010100000000
start|p|a|1|1|r,s|000000006553f1000001100000000170000000016100000000000000010000000000000001010000000200000001720000000173
step|p|7|{}|000000006553f10000011100000001700000000000000007000000010000002e61726e3a6177733a6576656e74733a75732d656173742d313a3131313132323232333333333a72756c652f622f7200000001740000002461726e3a6177733a7371733a75732d656173742d313a3131313132323232333333333a71000000027b7d00090000003d0000
cancel|p|000000006553f1000001120000000170
delete|q|9|000000006553f10000011300000001710000000000000009
"#;

/// Bytes, and whether they are read: `read` if they are those of a batch, which then has these bytes, `none` if they are of no batch. The
/// read ones are targets with an Input, an InputPath and an InputTransformer, a batch of two events, and an event that an archive keeps. Of
/// the others, in their order: `enabled` is 2, a text that is not UTF-8, kind 20, kind 0, outcome 0 with a code, outcome 5, more operations
/// than there are, no operation, more targets than there are, a longer text than there is, a byte more, a byte less, more archives than
/// there are, no pattern, a policy with a blank, an Input that is no JSON, an input of kind 4, an archive whose pattern is neither there
/// nor missing, one whose pattern is no pattern, one that gets days of three bytes, nothing.
const BYTES: &str =
    "000000006553f100000106000000016200000001720000000100000001740000002461726e3a6177733a7371733a75732d656173742d313a3131313132323232333333333a7101000000087b2261223a20317d0000|read
000000006553f100000106000000016200000001720000000100000001740000002461726e3a6177733a7371733a75732d656173742d313a3131313132323232333333333a710200000008242e64657461696c0000|read
000000006553f100000106000000016200000001720000000100000001740000002461726e3a6177733a7371733a75732d656173742d313a3131313132323232333333333a710300000001000000016e00000004242e6964000000097b2269223a3c6e3e7d0000|read
000000006553f10000020e000000000000000700000001620000000000000003000000006553f100000000027b7d00000000000000000e000000000000000800000001620000000000000003000000006553f100000000027b7d00000000000000010000000178000000017400000013687474703a2f2f6c6f63616c686f73743a312f0000000179000100000002010000002461726e3a6177733a7371733a75732d656173742d313a3131313132323232333333333a7101|read
000000006553f10000010e000000000000000700000001620000000000000003000000006553f100000000027b7d00000001000000016100000000|read
000000006553f1000001050000000162000000017202|none
000000006553f10000010900000001ff|none
000000006553f1000001140000000171|none
000000006553f1000001000000000171|none
000000006553f10000010f00000000000000050001f7|none
000000006553f10000010f0000000000000005050000|none
000000006553f1000002090000000171|none
000000006553f1000000|none
000000006553f10000010700000001620000000172ffffffff|none
000000006553f1000001090000000271|none
000000006553f100000109000000017100|none
000000006553f10000010900000001|none
000000006553f10000010e000000000000000700000001620000000000000003000000006553f100000000027b7d00000002000000016100000000|none
000000006553f10000010300000001620000000172000000027b7d01|none
000000006553f100000108000000016201000000667b2256657273696f6e223a2022323031322d31302d3137222c2253746174656d656e74223a5b7b22456666656374223a22416c6c6f77222c225072696e636970616c223a222a222c22416374696f6e223a222a222c225265736f75726365223a222a227d5d7d|none
000000006553f100000106000000016200000001720000000100000001740000002461726e3a6177733a7371733a75732d656173742d313a3131313132323232333333333a7101000000017b0000|none
000000006553f100000106000000016200000001720000000100000001740000002461726e3a6177733a7371733a75732d656173742d313a3131313132323232333333333a7104000000027b7d0000|none
000000006553f10000010b000000016100000001620200000001|none
000000006553f10000010b0000000161000000016201000000027b7d00000001|none
000000006553f10000010c000000016100000001|none
|none
";

fn digit(byte: u8) -> Result<u8, Fail>
    ensures { IfOk result (λ d. d < 16) }
{
    match byte {
        b'0'..=b'9' => Ok(byte - b'0'),
        b'a'..=b'f' => Ok(byte - b'a' + 10),
        _ => Err(Fail::new("a row has another digit")),
    }
}

fn byte(high: u8, low: u8) -> Result<u8, Fail> {
    Ok(digit(high)? * 16 + digit(low)?)
}

/// The bytes that these digits spell, two a byte.
pub(crate) fn bytes(alloc: Global, digits: &str) -> Result<Bytes, Fail> {
    let mut out = Bytes::new(alloc);
    let mut left = digits.as_bytes();
    for _ in 0..digits.len() {
        match left {
            [high, low, rest @ ..] => {
                out.extend(&[byte(*high, *low)?])?;
                left = rest;
            }
            [_] | [] => break,
        }
    }
    Ok(out)
}

fn outcome(word: &str) -> Result<Outcome, Fail> {
    match word {
        "accepted" => Ok(Outcome::Accepted),
        "silent" => Ok(Outcome::NoAnswer),
        "missing" => Ok(Outcome::NoQueue),
        "old" => Ok(Outcome::TooOld),
        code => Ok(Outcome::Code(code.parse::<u16>()?)),
    }
}

fn attempt(parts: &str) -> Result<Entry, Fail> {
    let (duty, word) = two(parts);
    let duty = duty.parse::<u64>()?;
    let outcome = outcome(word)?;
    Ok(Entry::Attempt { duty, outcome })
}

fn deletion(alloc: Global, parts: &str) -> Result<Entry, Fail> {
    let (queue, through) = two(parts);
    let through = through.parse::<u64>()?;
    let queue = Text::from_str(alloc, queue)?;
    Ok(Entry::MessagesDeleted { queue, through })
}

fn row(alloc: Global) -> Result<SharedRow, Fail> {
    let arn = "arn:aws:events:us-east-1:111122223333:rule/b/r";
    let (rule_arn, rule_name) = names(alloc, arn, "r")?;
    let (target_id, endpoint) = names(alloc, "t", "arn:aws:sqs:us-east-1:111122223333:q")?;
    let row = TargetRow {
        rule_arn,
        rule_name,
        target_id,
        endpoint,
        dead_letter: None,
        attempts: 9,
        age: 61,
    };
    Ok(SharedRow::new(alloc, row)?)
}

fn event(alloc: Global, parts: &str) -> Result<Entry, Fail> {
    let (archives, text) = two(parts);
    let archives = texts(alloc, archives)?;
    let text = SharedText::new(alloc, Text::from_str(alloc, text)?)?;
    let duty = NewDuty {
        target: row(alloc)?,
        text: text.share()?,
        too_long: false,
    };
    let mut duties = Vec::new(alloc);
    duties.push(duty)?;
    let event = AcceptedEvent {
        number: 7,
        bus: Text::from_str(alloc, "b")?,
        k: 3,
        time: 1_600_000_000,
        text,
        archives,
        duties,
    };
    Ok(Entry::Accepted(event))
}

fn start(alloc: Global, parts: &str) -> Result<Entry, Fail> {
    let (name, archive, parts) = three(parts);
    let (start, end, rules) = three(parts);
    let start = start.parse::<u64>()?;
    let end = end.parse::<u64>()?;
    let rules = match rules {
        "-" => None,
        names => Some(RuleNames::new(texts(alloc, names)?)),
    };
    let start = StartedReplay {
        name: Text::from_str(alloc, name)?,
        archive: Text::from_str(alloc, archive)?,
        range: TimeRange { start, end },
        rules,
    };
    Ok(Entry::ReplayStarted(start))
}

fn step(alloc: Global, parts: &str) -> Result<Entry, Fail> {
    let (name, event, text) = three(parts);
    let event = event.parse::<u64>()?;
    let duty = NewDuty {
        target: row(alloc)?,
        text: SharedText::new(alloc, Text::from_str(alloc, text)?)?,
        too_long: false,
    };
    let mut duties = Vec::new(alloc);
    duties.push(duty)?;
    let step = SteppedReplay {
        name: Text::from_str(alloc, name)?,
        event,
        duties,
    };
    Ok(Entry::ReplayStepped(step))
}

fn cancellation(alloc: Global, name: &str) -> Result<Entry, Fail> {
    let name = Text::from_str(alloc, name)?;
    Ok(Entry::ReplayCancelled { name })
}

fn operation(alloc: Global, words: &str) -> Result<Entry, Fail> {
    let (kind, parts) = two(words);
    match kind {
        "event" => event(alloc, parts),
        "try" => attempt(parts),
        "start" => start(alloc, parts),
        "step" => step(alloc, parts),
        "cancel" => cancellation(alloc, parts),
        "delete" => deletion(alloc, parts),
        _ => Ok(Entry::Control(control(alloc, words)?)),
    }
}

pub(crate) fn batch(alloc: Global, words: &str) -> Result<Batch, Fail> {
    let mut entries = Vec::new(alloc);
    entries.push(operation(alloc, words)?)?;
    Ok(Batch {
        moment: MOMENT,
        entries,
    })
}

fn has_bytes(alloc: Global, batch: &Batch, wanted: &[u8]) -> Result<bool, Fail> {
    let mut out = Bytes::new(alloc);
    put_batch(batch, &mut out)?;
    Ok(out.as_slice() == wanted)
}

/// Whether the bytes are read to a batch that has them.
fn is_read(alloc: Global, bytes: &[u8]) -> Result<bool, Fail> {
    match take_batch(alloc, bytes)? {
        Some(batch) => has_bytes(alloc, &batch, bytes),
        None => Ok(false),
    }
}

fn is_met(alloc: Global, row: &str) -> Result<bool, Fail> {
    let (words, digits) = last(row);
    let bytes = bytes(alloc, digits)?;
    let batch = batch(alloc, words)?;
    Ok(has_bytes(alloc, &batch, bytes.as_slice())? & is_read(alloc, bytes.as_slice())?)
}

#[test]
fn each_batch_has_its_bytes(rt: HostRuntime) -> Result<(), Fail> {
    all_met(rt.alloc(), BATCHES, 30, is_met)
}

fn is_said(alloc: Global, row: &str) -> Result<bool, Fail> {
    let (digits, word) = last(row);
    let bytes = bytes(alloc, digits)?;
    Ok(is_read(alloc, bytes.as_slice())? == (word == "read"))
}

#[test]
fn other_bytes_are_no_batch(rt: HostRuntime) -> Result<(), Fail> {
    all_met(rt.alloc(), BYTES, 26, is_said)
}

/// The record has the length 22, the bytes of the batch and a closed gate.
#[test]
fn an_attempt_has_its_record(rt: HostRuntime) -> Result<(), Fail> {
    let wanted = bytes(
        rt.alloc(),
        "0000000000000016000000006553f10000010f00000000000000050101f700",
    )?;
    let record = attempt_record(MOMENT, 5, Outcome::Code(503));
    assert!(rt; record.as_slice() == wanted.as_slice());
    Ok(())
}
