//! Tests of event_shape.
use crate::rows::{is_number, is_text, said};
use event_shape::{
    CheckFault, Checked, Event, EventEntry, OWNER, REGION, Unnumbered, archive_arn, bus_arn,
    bus_of, check, event_id, is_account, is_archive_name, is_bus_arn, is_bus_name, is_queue_arn,
    is_queue_name, is_replay_name, is_rule_name, is_target_id, iso, queue_arn, queue_name_in,
    queue_of, read_time, replay_arn, rule_arn, size,
};
use json_text::{Json, LAST_MOMENT, NoMemory, Text};
use std::alloc::{AllocError, Global};
use std::test::Fail;
use test_rows::{all_met, four, last, three, two};

/// A kind of JSON value, its spelling, and its moment: texts at both bounds of moments, one above the upper bound, and
/// two between, numbers, and a truth value.
const TIMES: &str = "text|1970-01-01T00:00:00Z|0
text|2023-11-14T22:13:20.75Z|1700000000
text|2023-11-14T22:13:60Z|none
text|9892-03-08T12:26:40Z|250000000000
text|9892-03-08T12:26:41Z|none
number|1700000000|1700000000
number|1700000000.9|1700000000
number|0|0
number|-0|0
number|-0.5|0
number|0.5|0
number|-1|none
number|-1.5|none
number|1.7e9|none
number|1e1|none
number|250000000000|250000000000
number|250000000000.5|250000000000
number|250000000001|none
number|99999999999999999999999|none
number|01|none
number|1.|none
truth||none
";

fn value_of(alloc: Global, kind: &str, spelling: &str) -> Result<Json, Fail> {
    match kind {
        "text" => Ok(Json::Str(Text::from_str(alloc, spelling)?)),
        "number" => Ok(Json::Num(Text::from_str(alloc, spelling)?)),
        "truth" => Ok(Json::Truth(true)),
        _ => Err(Fail::new("no such kind")),
    }
}

fn is_time_met(alloc: Global, row: &str) -> Result<bool, Fail> {
    let (kind, spelling, moment) = three(row);
    let value = value_of(alloc, kind, spelling)?;
    Ok(is_number(read_time(&value), moment))
}

#[test]
fn a_time_gives_its_moment_or_none(rt: HostRuntime) -> Result<(), Fail> {
    all_met(rt.alloc(), TIMES, 22, is_time_met)
}

#[test]
fn the_last_moment_has_its_text(rt: HostRuntime) -> Result<(), Fail> {
    assert!(rt; iso(rt.alloc(), LAST_MOMENT)?.as_str() == "9892-03-08T12:26:40Z");
    Ok(())
}

/// What has the ARN, its name, a rule's bus, and the ARN.
const ARNS: &str = "queue|q||arn:aws:sqs:us-east-1:111122223333:q
rule|r|default|arn:aws:events:us-east-1:111122223333:rule/r
rule|r|b|arn:aws:events:us-east-1:111122223333:rule/b/r
bus|b||arn:aws:events:us-east-1:111122223333:event-bus/b
archive|a||arn:aws:events:us-east-1:111122223333:archive/a
replay|p||arn:aws:events:us-east-1:111122223333:replay/p
";

fn arn_of(alloc: Global, kind: &str, name: &str, bus: &str) -> Result<Text, NoMemory> {
    match kind {
        "queue" => queue_arn(alloc, name),
        "rule" => rule_arn(alloc, bus, name),
        "bus" => bus_arn(alloc, name),
        "archive" => archive_arn(alloc, name),
        "replay" => replay_arn(alloc, name),
        _ => Ok(Text::new(alloc)),
    }
}

fn is_arn_met(alloc: Global, row: &str) -> Result<bool, Fail> {
    let (kind, name, bus, arn) = four(row);
    Ok(arn_of(alloc, kind, name, bus)?.as_str() == arn)
}

#[test]
fn arns_are_as_they_are_spelled(rt: HostRuntime) -> Result<(), Fail> {
    all_met(rt.alloc(), ARNS, 6, is_arn_met)
}

/// A text; the name of the queue whose ARN it is; the text in the place of that name; the bus whose name or ARN it is.
const SHOWN: &str = "arn:aws:sqs:us-east-1:111122223333:q|q|q|none
arn:aws:sqs:us-east-1:111122223333:q.r|none|q.r|none
arn:aws:sqs:us-east-1:111122223334:q|none|none|none
arn:aws:events:us-east-1:111122223333:event-bus/b|none|none|b
b|none|none|b
a/b|none|none|none
|none|none|none
";

fn is_shown(_: Global, row: &str) -> Result<bool, Fail> {
    let (text, queue, name, bus) = four(row);
    let is_queue = is_text(queue_of(text), queue) & is_text(queue_name_in(text), name);
    Ok(is_queue & is_text(bus_of(text), bus))
}

#[test]
fn an_arn_shows_its_name(rt: HostRuntime) -> Result<(), Fail> {
    let queue = "arn:aws:sqs:us-east-1:111122223333:q";
    assert!(rt; is_queue_arn(queue, "q") && !is_queue_arn(queue, "qq"));
    assert!(rt; is_bus_arn("arn:aws:events:us-east-1:111122223333:event-bus/b", "b"));
    assert!(rt; !is_bus_arn("arn:aws:events:us-east-1:111122223333:archive/b", "b"));
    all_met(rt.alloc(), SHOWN, 7, is_shown)
}

/// A number and the id of the event with this number.
const IDS: &str = "1|00000000-0000-8000-8000-000000000001
171|00000000-0000-8000-8000-0000000000ab
255|00000000-0000-8000-8000-0000000000ff
281474976710656|00000000-0000-8000-8001-000000000000
4611686018427387904|00000000-0000-8000-c000-000000000000
18446744073709551615|00000000-0000-8001-7fff-ffffffffffff
";

fn is_id_met(alloc: Global, row: &str) -> Result<bool, Fail> {
    let (number, id) = two(row);
    Ok(event_id(alloc, number.parse::<u64>()?)?.as_str() == id)
}

#[test]
fn ids_are_as_they_are_spelled(rt: HostRuntime) -> Result<(), Fail> {
    all_met(rt.alloc(), IDS, 6, is_id_met)
}

/// A number of letters; whether they are the name of a bus, of a rule (or target or replay), of an archive and of a queue.
const LENGTHS: &str = "0|false|false|false|false
1|true|true|true|true
48|true|true|true|true
49|true|true|false|true
64|true|true|false|true
65|true|false|false|true
80|true|false|false|true
81|true|false|false|false
257|false|false|false|false
";

fn is_named(name: &str, wants: &str) -> bool {
    let (bus, rule, archive, queue) = four(wants);
    let is_bus = (said(is_bus_name(name)) == bus) & (said(is_archive_name(name)) == archive);
    is_bus & is_rule_named(name, rule) & (said(is_queue_name(name)) == queue)
}

fn is_rule_named(name: &str, want: &str) -> bool {
    let is_rule = said(is_rule_name(name)) == want;
    is_rule & (said(is_target_id(name)) == want) & (said(is_replay_name(name)) == want)
}

fn is_length_met(alloc: Global, row: &str) -> Result<bool, Fail> {
    let (count, wants) = two(row);
    let name = "x".repeat(alloc, count.parse::<usize>()?)?;
    Ok(is_named(name.as_str(), wants))
}

#[test]
fn a_name_has_its_length(rt: HostRuntime) -> Result<(), Fail> {
    all_met(rt.alloc(), LENGTHS, 9, is_length_met)
}

/// A text, and whether it is the name of a rule, the name of a queue, and an account.
const LETTERS: &str = "a.B-0_|true|false|false
aB-0_|true|true|false
a/b|false|false|false
é|false|false|false
q.r|true|false|false
111122223333|true|true|true
11112222333|true|true|false
11112222333a|true|true|false
";

fn is_lettered(_: Global, row: &str) -> Result<bool, Fail> {
    let (text, rule, queue, account) = four(row);
    let is_rule = said(is_rule_name(text)) == rule;
    Ok(is_rule & (said(is_queue_name(text)) == queue) & (said(is_account(text)) == account))
}

#[test]
fn a_name_has_its_letters(rt: HostRuntime) -> Result<(), Fail> {
    assert!(rt; OWNER == "111122223333" && REGION == "us-east-1");
    all_met(rt.alloc(), LETTERS, 8, is_lettered)
}

/// The text, or nothing for `-`.
fn optional(alloc: Global, text: &str) -> Result<Option<Text>, NoMemory> {
    if text == "-" {
        return Ok(None);
    }
    Ok(Some(Text::from_str(alloc, text)?))
}

fn time_in(field: &str) -> Option<Json> {
    if field == "null" {
        Some(Json::Null)
    } else {
        None
    }
}

/// The entry with this source, detail type, detail, bus and time, each `-` if it is absent. A time is `null`, which is no
/// moment.
fn entry(alloc: Global, fields: &str) -> Result<EventEntry, Fail> {
    let (source, detail_type, detail, rest) = four(fields);
    let (bus, time) = two(rest);
    Ok(EventEntry {
        time: time_in(time),
        source: optional(alloc, source)?,
        resources: Vec::new(alloc),
        detail_type: optional(alloc, detail_type)?,
        detail: optional(alloc, detail)?,
        bus: optional(alloc, bus)?,
    })
}

/// The entry's first fault, or `none`.
fn fault_of(alloc: Global, entry: &EventEntry) -> Result<String, AllocError> {
    match check(alloc, entry) {
        Ok(_) => String::from_str(alloc, "none"),
        Err(CheckFault::Entry(fault)) => format!(in alloc; "{fault:?}"),
        Err(CheckFault::NoMemory) => String::from_str(alloc, "out of memory"),
    }
}

/// An entry, and its first fault.
const FAULTS: &str = r#"|||-|-|Source
a|||-|-|DetailType
a|b||-|-|Malformed
a|b|[1]|-|-|Malformed
aws.x|b|[1]|-|-|Malformed
aws.x|b|{}|-|-|NotAuthorized
aws.|b|{}|-|-|NotAuthorized
aws|b|{}|-|-|none
a|b|{"total":12.50}|-|-|none
"#;

/// An entry with several faults, and the first of them.
const ORDER: &str = "aws.x|b|[1]|a/b|-|Bus
aws.x|b|[1]|a/b|null|Time
aws.x|b|-|-|null|Detail
";

fn is_fault_met(alloc: Global, row: &str) -> Result<bool, Fail> {
    let (fields, fault) = last(row);
    let entry = entry(alloc, fields)?;
    Ok(fault_of(alloc, &entry)?.as_str() == fault)
}

#[test]
fn the_first_fault_is_reported(rt: HostRuntime) -> Result<(), Fail> {
    all_met(rt.alloc(), FAULTS, 9, is_fault_met)
}

#[test]
fn faults_have_their_order(rt: HostRuntime) -> Result<(), Fail> {
    all_met(rt.alloc(), ORDER, 3, is_fault_met)
}

/// An entry and its size. A time counts 14 bytes, and a bus none.
const SIZES: &str = "a|b|{}|-|-|4
a|b|{}|-|null|18
a|b|{}|shop|null|18
";

fn is_size_met(alloc: Global, row: &str) -> Result<bool, Fail> {
    let (fields, sum) = last(row);
    Ok(is_number(Some(size(&entry(alloc, fields)?)), sum))
}

#[test]
fn a_size_is_the_sum_of_its_bytes(rt: HostRuntime) -> Result<(), Fail> {
    all_met(rt.alloc(), SIZES, 3, is_size_met)
}

/// The row of an entry whose detail has this number of letters.
fn long_row(alloc: Global, letters: usize, want: &str) -> Result<String, Fail> {
    let letters = "x".repeat(alloc, letters)?;
    Ok(format!(in alloc; "a|b|{{\"p\":\"{letters}\"}}|-|-|{want}")?)
}

/// Whether an entry with this number of letters has this size and no fault.
fn has_size(alloc: Global, letters: usize, sum: &str) -> Result<bool, Fail> {
    let sized = long_row(alloc, letters, sum)?;
    let faultless = long_row(alloc, letters, "none")?;
    Ok(is_size_met(alloc, sized.as_str())? && is_fault_met(alloc, faultless.as_str())?)
}

#[test]
fn a_long_entry_is_measured(rt: HostRuntime) -> Result<(), Fail> {
    assert!(rt; has_size(rt.alloc(), 262_134, "262144")?);
    assert!(rt; has_size(rt.alloc(), 262_135, "262145")?);
    Ok(())
}

// An object with lists in it, with `levels` levels in all.
fn nested(alloc: Global, levels: usize) -> Result<String, AllocError> {
    let opened = "[".repeat(alloc, levels.saturating_sub(1))?;
    let closed = "]".repeat(alloc, levels.saturating_sub(1))?;
    format!(in alloc; "{{\"a\":{opened}{closed}}}")
}

/// Whether an entry with a detail of this number of levels has this fault.
fn has_nested_fault(alloc: Global, levels: usize, fault: &str) -> Result<bool, Fail> {
    let detail = nested(alloc, levels)?;
    let row = format!(in alloc; "a|b|{detail}|-|-|{fault}")?;
    is_fault_met(alloc, row.as_str())
}

#[test]
fn a_detail_has_at_most_99_levels(rt: HostRuntime) -> Result<(), Fail> {
    assert!(rt; has_nested_fault(rt.alloc(), 99, "none")?);
    assert!(rt; has_nested_fault(rt.alloc(), 100, "Malformed")?);
    Ok(())
}

fn checked_entry(alloc: Global, entry: &EventEntry) -> Result<Checked, Fail> {
    Ok(check(alloc, entry)?)
}

fn checked(alloc: Global, fields: &str) -> Result<Checked, Fail> {
    checked_entry(alloc, &entry(alloc, fields)?)
}

#[test]
fn an_entry_has_its_bus(rt: HostRuntime) -> Result<(), Fail> {
    assert!(rt; checked(rt.alloc(), "a|b|{}|-|-")?.bus() == "default");
    Ok(())
}

/// The first run's entry.
const FIRST_ENTRY: &str = r#"shop.orders|Order|{"total":12.50}|-|-"#;

/// The text of the first run's event.
const FIRST: &str =
    r#"{"version":"0","id":"00000000-0000-8000-8000-000000000001","detail-type":"Order","source":"shop.orders","account":"111122223333","time":"2023-11-14T22:13:20Z","region":"us-east-1","resources":[],"detail":{"total":12.50}}"#;

fn first_event(alloc: Global, number: u64) -> Result<Event, Fail> {
    let checked = checked(alloc, FIRST_ENTRY)?;
    Ok(Event::make(alloc, checked, number, 1_700_000_000, OWNER)?)
}

fn first_text(alloc: Global, number: u64, replay: Option<&str>) -> Result<Text, Fail> {
    let event = first_event(alloc, number)?;
    Ok(event.text(alloc, replay)?)
}

#[test]
fn an_event_has_its_exact_text(rt: HostRuntime) -> Result<(), Fail> {
    assert!(rt; first_text(rt.alloc(), 1, None)?.as_str() == FIRST);
    Ok(())
}

#[test]
fn an_event_has_its_moment(rt: HostRuntime) -> Result<(), Fail> {
    assert!(rt; first_event(rt.alloc(), 1)?.moment() == 1_700_000_000);
    Ok(())
}

/// The end of its text as a replay named `nightly` sends it.
const REPLAYED: &str = r#""detail":{"total":12.50},"replay-name":"nightly"}"#;

#[test]
fn a_replayed_event_ends_in_the_replays_name(rt: HostRuntime) -> Result<(), Fail> {
    let replayed = first_text(rt.alloc(), 1, Some("nightly"))?;
    assert!(rt; replayed.as_str().ends_with(REPLAYED));
    assert!(rt; !is_read(rt.alloc(), replayed.as_str())?);
    Ok(())
}

fn has_text(alloc: Global, event: &Event, text: &str) -> Result<bool, NoMemory> {
    Ok(event.text(alloc, None)?.as_str() == text)
}

/// Whether the text is an event's, and the event has this text.
fn is_read(alloc: Global, text: &str) -> Result<bool, NoMemory> {
    match Event::read(alloc, text.as_bytes())? {
        Some(event) => has_text(alloc, &event, text),
        None => Ok(false),
    }
}

/// A part of the first run's text, its replacement, and whether the result is an event's text too.
const CHANGES: &str = r#"Order|Ordér \"|true
[]|["a\"b","c"]|true
111122223333||true
000000000001|0000000000ab|true
8000-000000000001|c000-000000000000|true
8000-8000-000000000001|8001-7fff-ffffffffffff|true
8000-8000-000000000001|8001-8000-000000000000|false
000000000001|0000000000AB|false
00000000-0000-8000-8000-000000000001|-0|false
"version":|"version": |false
"detail-type":"Order","source":"shop.orders"|"source":"shop.orders","detail-type":"Order"|false
:20Z|:60Z|false
:20Z|:20.5Z|false
us-east-1|us-east-2|false
shop.orders||false
shop.orders|aws.orders|false
shop.orders|shop\u002eorders|false
Order"|"|false
[]|[1]|false
{"total":12.50}|[12.50]|false
"total":12.50|"total":1,"total":12.50|false
12.50|12.|false
"#;

/// Whether the first run's text with this part replaced is an event's.
fn is_changed_read(alloc: Global, part: &str, other: &str) -> Result<bool, Fail> {
    let text = FIRST.replacen(alloc, part, other, 1)?;
    Ok(is_read(alloc, text.as_str())?)
}

fn is_change_met(alloc: Global, row: &str) -> Result<bool, Fail> {
    let (part, other, want) = three(row);
    Ok(said(is_changed_read(alloc, part, other)?) == want)
}

#[test]
fn an_event_is_read_from_its_text_alone(rt: HostRuntime) -> Result<(), Fail> {
    assert!(rt; is_read(rt.alloc(), FIRST)?);
    all_met(rt.alloc(), CHANGES, 22, is_change_met)
}

/// Whether the text with a detail of this number of levels is an event's.
fn is_nested_read(alloc: Global, levels: usize) -> Result<bool, Fail> {
    let detail = nested(alloc, levels)?;
    is_changed_read(alloc, r#"{"total":12.50}"#, detail.as_str())
}

#[test]
fn an_event_of_100_levels_is_read(rt: HostRuntime) -> Result<(), Fail> {
    assert!(rt; is_nested_read(rt.alloc(), 99)?);
    assert!(rt; !is_nested_read(rt.alloc(), 100)?);
    Ok(())
}

fn first_open(alloc: Global) -> Result<Unnumbered, Fail> {
    let checked = checked(alloc, FIRST_ENTRY)?;
    Ok(Unnumbered::make(alloc, checked, 1_700_000_000, OWNER)?)
}

fn numbered_text(alloc: Global, number: u64) -> Result<Text, Fail> {
    let event = first_open(alloc)?;
    Ok(event.numbered(alloc, number)?)
}

/// Whether the text of the event with this number has this id, if the number is known when the event is made, and if not.
fn has_its_id(alloc: Global, number: u64, id: &str) -> Result<bool, Fail> {
    let want = FIRST.replacen(alloc, "00000000-0000-8000-8000-000000000001", id, 1)?;
    let made = first_text(alloc, number, None)?;
    let numbered = numbered_text(alloc, number)?;
    Ok(made.as_str() == want.as_str() && numbered.as_str() == want.as_str())
}

fn is_numbered(alloc: Global, row: &str) -> Result<bool, Fail> {
    let (number, id) = two(row);
    has_its_id(alloc, number.parse::<u64>()?, id)
}

#[test]
fn an_event_gets_its_number_last(rt: HostRuntime) -> Result<(), Fail> {
    all_met(rt.alloc(), IDS, 6, is_numbered)
}

fn has_first_members(event: &Unnumbered) -> bool {
    let is_sent = (event.bus() == "default") & (event.source() == "shop.orders");
    is_sent & (event.detail_type() == "Order") & (event.moment() == 1_700_000_000)
}

#[test]
fn an_event_without_a_number_has_its_members(rt: HostRuntime) -> Result<(), Fail> {
    let event = first_open(rt.alloc())?;
    assert!(rt; has_first_members(&event));
    Ok(())
}
