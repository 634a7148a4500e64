//! Tests of event_text.
use event_text::{is_numbered_in_one_pass, is_numbered_text};
use std::alloc::Global;
use std::test::Fail;
use test_rows::{all_met, three};

/// The text of the first run's event.
const FIRST: &str =
    r#"{"version":"0","id":"00000000-0000-8000-8000-000000000001","detail-type":"Order","source":"shop.orders","account":"111122223333","time":"2023-11-14T22:13:20Z","region":"us-east-1","resources":[],"detail":{"total":12.50}}"#;

/// A part of the first run's text, its replacement, and how the result is decided: `shown` in one pass or `read` to be the text
/// of an event with a number and an account, or `false`. Worked by hand.
const CHANGES: &str = r#"Order|Order|shown
Order|Ordér \"\\\n|shown
[]|["a\"b","c"]|shown
{"total":12.50}|{}|shown
{"total":12.50}|{"a":[true,null,[],{}],"b":{"a":false},"c":"é","d":-0.50e+7}|shown
000000000001|0000000000ab|shown
8000-000000000001|8000-ffffffffffff|shown
8000-000000000001|8001-000000000000|read
8000-8000-000000000001|8001-7fff-ffffffffffff|read
Order|Or\u0000der|read
Order|Or\u001fder|read
"total"|"fbvfgsfy":1,"rkeikopn"|read
111122223333|012345678901|shown
000000000001|000000000000|false
111122223333|11112222333|false
111122223333|1111222233334|false
111122223333|11112222333x|false
111122223333||false
000000000001|0000000000AB|false
00000000-0000-8000-8000-000000000001|00000000-0000-8000-7fff-ffffffffffff|false
8000-8000-000000000001|8001-8000-000000000000|false
00000000-0000-8000-8000-000000000001|-0|false
Order|Or\u000ader|false
Order|Or\u0041der|false
Order|Or\/der|false
"version":|"version": |false
"detail-type":"Order","source":"shop.orders"|"source":"shop.orders","detail-type":"Order"|false
:20Z|:60Z|false
:20Z|:20.5Z|false
2023-11-14T22:13:20Z|9892-03-08T12:26:40Z|shown
2023-11-14T22:13:20Z|9892-03-08T12:26:41Z|false
us-east-1|us-east-2|false
"Order"|""|false
shop.orders||false
shop.orders|aws.orders|false
shop.orders|aws|shown
shop.orders|shop\u002eorders|false
Order|\b\f\r\t|shown
[]|[1]|false
[]|["a",]|false
{"total":12.50}|[12.50]|false
{"total":12.50}|{"total":12.50,}|false
"total":12.50|"total":1,"total":12.50|false
"total":12.50|"a":{"total":1,"total":12.50}|false
12.50|12.|false
12.50|012|false
12.50|1e|false
12.50|-|false
12.50|[1,]|false
12.50|nul|false
12.50}}|12.50}} |false
12.50}}|12.50}|false
"#;

fn way(shown: bool, is_one: bool) -> &'static str {
    match (shown, is_one) {
        (true, true) => "shown",
        (false, true) => "read",
        (false, false) => "false",
        (true, false) => "shown, and false",
    }
}

/// Whether the first run's text with this part replaced is decided so.
fn is_decided(alloc: Global, part: &str, other: &str, want: &str) -> Result<bool, Fail> {
    let text = FIRST.replacen(alloc, part, other, 1)?;
    let text = text.as_str().as_bytes();
    Ok(
        way(
            is_numbered_in_one_pass(text),
            is_numbered_text(alloc, text)?,
        ) == want,
    )
}

fn is_change_met(alloc: Global, row: &str) -> Result<bool, Fail> {
    let (part, other, want) = three(row);
    is_decided(alloc, part, other, want)
}

#[test]
fn texts_are_decided_as_marked(rt: HostRuntime) -> Result<(), Fail> {
    all_met(rt.alloc(), CHANGES, 52, is_change_met)
}

/// A detail whose values have this number of levels, lists and objects in turn.
fn nested(alloc: Global, levels: u32) -> Result<String, Fail> {
    let mut detail = String::from_str(alloc, "1")?;
    for level in 0..levels {
        detail = if level % 2 == 0 {
            format!(in alloc; "[{detail}]")?
        } else {
            format!(in alloc; "{{\"a\":{detail}}}")?
        };
    }
    Ok(detail)
}

#[test]
fn a_text_has_at_most_100_levels(rt: HostRuntime) -> Result<(), Fail> {
    assert!(rt;
        is_decided(
            rt.alloc(),
            "12.50",
            nested(rt.alloc(), 98)?.as_str(),
            "shown"
        )?
    );
    assert!(rt;
        is_decided(
            rt.alloc(),
            "12.50",
            nested(rt.alloc(), 99)?.as_str(),
            "false"
        )?
    );
    Ok(())
}

/// This number of members whose keys are numbers, and the key of the total.
fn many(alloc: Global, count: u32) -> Result<String, Fail> {
    let mut members = String::new(alloc);
    for number in 0..count {
        members.push_str(format!(in alloc; "\"{number}\":0,")?.as_str())?;
    }
    members.push_str("\"total\"")?;
    Ok(members)
}

/// One pass keeps the hashes of 64 keys.
#[test]
fn an_object_may_have_many_keys(rt: HostRuntime) -> Result<(), Fail> {
    assert!(rt;
        is_decided(
            rt.alloc(),
            "\"total\"",
            many(rt.alloc(), 63)?.as_str(),
            "shown"
        )?
    );
    assert!(rt;
        is_decided(
            rt.alloc(),
            "\"total\"",
            many(rt.alloc(), 64)?.as_str(),
            "read"
        )?
    );
    assert!(rt;
        is_decided(
            rt.alloc(),
            "\"total\"",
            many(rt.alloc(), 300)?.as_str(),
            "read"
        )?
    );
    Ok(())
}
