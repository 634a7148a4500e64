//! Tests of the crate `router_core`: what the replays of a journal repeat next, and the batch that repeats it.
use crate::changes::texts;
use crate::test_duty_journal::batch;
use crate::test_journal::disk_of;
use duty_journal::{inspect, put_batch};
use json_text::{Bytes, Text};
use router_core::{Tables, replayed, step};
use router_requests::{AcceptedEvent, Batch, Entry, SteppedReplay, see_plain_event};
use shared_text::SharedText;
use std::alloc::Global;
use std::test::Fail;
use test_rows::{four, two};

/// The moment of each batch.
const MOMENT: u64 = 1_700_000_000;

/// Batches of a journal, and what its replays repeat after them. Worked by hand. A batch is as in `test_duty_journal`, or
/// `kept|NUMBER|TIME|ARCHIVES|SOURCE`: an event with this source on the bus `b`, which archives of these names keep. `next|STEP` is the next
/// step, which is then a batch of the journal: bus, replay and event, and of each duty the rule, the target, and what its text has after the
/// detail. `next|none` if there is none.
///
/// The events of `a` have the numbers 2, 1 and 4 by their times. `p` repeats the first two of these and `o`, which only `r` sees, the last one.
/// The rules and their targets are those of the step, not of the start. An empty filter lets no rule see an event. A replay goes on without its
/// archive, and not after it is cancelled.
const ROWS: &str = r#"queue|q
bus|b
rule|b|r|{"source":["x"]}
put|1|b|r|t|arn:aws:sqs:us-east-1:111122223333:q|||
rule|b|s|{"replay-name":["p","o"]}
put|1|b|s|u|arn:aws:sqs:us-east-1:111122223333:q|||
rule|b|n|{"replay-name":[{"exists":false}]}
put|1|b|n|v|arn:aws:sqs:us-east-1:111122223333:q|||
archive|a|b|0|
archive|c|b|0|
kept|1|6000|a|x
kept|2|5000|a,c|y
kept|3|6000||x
kept|4|6001|a|x
next|none
start|p|a|5000|6000|-
start|o|a|6001|6001|r
next|b p 2; s u ,"replay-name":"p"};
put|1|b|s|w|arn:aws:sqs:us-east-1:111122223333:q|||
no archive|a
next|b p 1; r t ,"replay-name":"p"}; s u ,"replay-name":"p"}; s w ,"replay-name":"p"};
remove|b|s|u,w
no rule|b|s
next|b o 4; r t ,"replay-name":"o"};
next|none
start|m|c|5000|5000|
start|k|c|0|9000|-
start|e|c|0|4999|-
cancel|k
next|b m 2;
next|none
"#;

/// The event of this number. Its text has no number of its own.
fn kept(alloc: Global, parts: &str) -> Result<Batch, Fail> {
    let (number, time, archives, source) = four(parts);
    let text = format!(in alloc;
        "{{\"version\":\"0\",\"id\":\"00000000-0000-8000-8000-000000000001\",\"detail-type\":\"Order\",\"source\":\"{source}\",\"account\":\"111122223333\",\"time\":\"2023-11-14T22:13:20Z\",\"region\":\"us-east-1\",\"resources\":[],\"detail\":{{}}}}"
    )?;
    let event = AcceptedEvent {
        number: number.parse::<u64>()?,
        bus: Text::from_str(alloc, "b")?,
        k: 0,
        time: time.parse::<u64>()?,
        text: SharedText::new(alloc, Text::from_str(alloc, text.as_str())?)?,
        archives: texts(alloc, archives)?,
        duties: Vec::new(alloc),
    };
    let mut entries = Vec::new(alloc);
    entries.push(Entry::Accepted(event))?;
    Ok(Batch {
        moment: MOMENT,
        entries,
    })
}

/// Appends the record of the batch to a file without its last gate.
fn add(alloc: Global, file: &mut Vec<u8>, batch: &Batch) -> Result<(), Fail> {
    let mut payload = Bytes::new(alloc);
    put_batch(batch, &mut payload)?;
    let length = u64::try_from(payload.as_slice().len())?;
    file.push(1)?;
    file.extend_from_slice(length.to_be_bytes().as_slice())?;
    Ok(file.extend_from_slice(payload.as_slice())?)
}

/// The tables after the batches of a file without its last gate.
fn tables_of(alloc: Global, file: &[u8]) -> Result<Tables, Fail> {
    let mut whole = file.to_vec(alloc)?;
    whole.push(0)?;
    let mut disk = disk_of(alloc, whole.as_slice())?;
    match inspect(alloc, &mut disk) {
        Ok(found) => Ok(found.tables),
        Err(_fault) => Err(Fail::new("a batch is not admitted")),
    }
}

/// What a row says of a step of a replay over this bus.
fn said(alloc: Global, bus: &str, step: &SteppedReplay) -> Result<String, Fail> {
    let mut said = format!(in alloc; "{bus} {} {};", step.name.as_str(), step.event)?;
    for duty in &step.duties {
        let (_, text) = duty
            .text
            .as_str()
            .split_once("\"detail\":{}")
            .ok_or("a text without a detail")?;
        let part = format!(in alloc;
            " {} {} {text};",
            duty.target.rule_name(),
            duty.target.target_id()
        )?;
        said.push_str(&part)?;
    }
    Ok(said)
}

/// Fails unless the next step of these tables is this one. It is appended to the file.
fn meet(alloc: Global, tables: &Tables, file: &mut Vec<u8>, wanted: &str) -> Result<(), Fail> {
    if tables.full() | (tables.moment() > MOMENT) {
        return Err(Fail::new("no batch can come"));
    }
    match replayed(alloc, tables)? {
        Some((bus, event, name)) => {
            let over = bus.copy(alloc)?;
            let seen = see_plain_event(
                alloc,
                tables.set(),
                bus.as_str(),
                &event,
                Some(name.as_str()),
            )?;
            let ready = step(alloc, tables, MOMENT, (bus, event, name), seen)?;
            meet_step(alloc, over.as_str(), ready.batch(), wanted)?;
            add(alloc, file, ready.batch())
        }
        None if wanted == "none" => Ok(()),
        None => Err(Fail::new(wanted)),
    }
}

fn meet_step(alloc: Global, bus: &str, batch: &Batch, wanted: &str) -> Result<(), Fail> {
    match batch.entries.as_slice() {
        [Entry::ReplayStepped(step)] if said(alloc, bus, step)?.as_str() == wanted => Ok(()),
        _ => Err(Fail::new(wanted)),
    }
}

fn meet_row(alloc: Global, file: &mut Vec<u8>, row: &str) -> Result<(), Fail> {
    let (word, parts) = two(row);
    match word {
        "next" => meet(alloc, &tables_of(alloc, file.as_slice())?, file, parts),
        "kept" => add(alloc, file, &kept(alloc, parts)?),
        _ => add(alloc, file, &batch(alloc, row)?),
    }
}

#[test]
fn replays_are_stepped_one_after_the_other(rt: HostRuntime) -> Result<(), Fail> {
    let alloc = rt.alloc();
    let mut file = b"EBJRNL1\n".to_vec(alloc)?;
    for row in ROWS.lines() {
        meet_row(alloc, &mut file, row)?;
    }
    let tables = tables_of(alloc, file.as_slice())?;
    assert_eq!(rt; tables.batches(), 28);
    Ok(())
}
