//! Tests of input_transform: what no clause says. Calls succeed if memory is available. Paths and templates are this project's own
//! forms; a template is JSON (RFC 8259) with names as values.
use input_transform::{FillFault, Input, JsonPath, PathFault, Template, TemplateFault, fill_tree};
use json_text::{Bytes, Json, Text, read, write};
use std::alloc::Global;
use std::sync::Arc;
use std::test::Fail;
use test_rows::{all_met, four, three, two};

/// A text, and whether it is a path.
const PATHS: &str = r#"$|yes
$.detail-type|yes
$.a[2147483647]|yes
$.a.b_c-9[0][10]|yes
$[0]|yes
$.0|yes
|no
a|no
$.|no
$a|no
$ |no
 $|no
$.a |no
$.a[01]|no
$.a[00]|no
$.a[2147483648]|no
$.a[4294967296]|no
$.a[99999999999999999999]|no
$.a[*]|no
$.a[]|no
$.a[-1]|no
$.a[+1]|no
$.a[1|no
$.a1]|no
$['a']|no
$..a|no
$.a.|no
$.é|no
$.a b|no
"#;

fn path_mark(alloc: Global, text: &str) -> &'static str {
    match JsonPath::read(alloc, text) {
        Ok(_) => "yes",
        Err(PathFault::NotPath) => "no",
        Err(PathFault::NoMemory) => "no memory",
    }
}

fn is_path_as_said(alloc: Global, row: &str) -> Result<bool, Fail> {
    let (text, want) = two(row);
    Ok(path_mark(alloc, text) == want)
}

/// A path, a value, and what the path finds in it.
const FOUND: &str = r#"$|7|7
$.a|{"a":[1,2]}|[1,2]
$.a[1]|{"a":[1,2]}|2
$.a[2]|{"a":[1,2]}|missing
$.a.b|{"a":[1,2]}|missing
$[0]|{"0":1}|missing
$.0|{"0":1}|1
$.0|[1]|missing
$.a|"a"|missing
$[0]|"a"|missing
$.a.a|{"a":{"a":null}}|null
$.a|{"A":1}|missing
$.a[0][1]|{"a":[[1,2]]}|2
"#;

/// Whether the value's text is `want`, or nothing was found and `want` is `missing`.
fn is_value(alloc: Global, found: Option<&Json>, want: &str) -> Result<bool, Fail> {
    let Some(found) = found else {
        return Ok(want == "missing");
    };
    let mut out = Bytes::new(alloc);
    write(found, &mut out)?;
    Ok(out.as_slice() == want.as_bytes())
}

fn is_found(alloc: Global, row: &str) -> Result<bool, Fail> {
    let (path, value, want) = three(row);
    let path = JsonPath::read(alloc, path)?;
    let value = read(alloc, value.as_bytes(), 100)?;
    is_value(alloc, path.at(&value), want)
}

#[test]
fn paths(rt: HostRuntime) -> Result<(), Fail> {
    all_met(rt.alloc(), PATHS, 29, is_path_as_said)?;
    all_met(rt.alloc(), FOUND, 13, is_found)
}

/// The names that the templates below may use, with their paths. Of two equal names the first counts, and none hides a name that
/// every template has. `a b` and `A>` are no names.
const NAMES: &str = r#"x|$.x
n|$.n
t|$.t
m|$.m
id|$.detail.id
who|$.detail.who
n|$.x
aws.events.rule-name|$.x
a.b|$
a b|$
A>|$
"#;

fn names(alloc: Global) -> Result<Vec<(Text, JsonPath)>, Fail> {
    let mut names = Vec::new(alloc);
    for row in NAMES.lines() {
        let (name, path) = two(row);
        names.push((Text::from_str(alloc, name)?, JsonPath::read(alloc, path)?))?;
    }
    Ok(names)
}

/// A text, and whether it is a template.
const TEMPLATES: &str = r#"<x>|yes
"<x>"|yes
 <x> |yes
[<x>,<n>]|yes
{"a":<n>}|yes
{"a":<aws.events.event>}|yes
<aws.events.rule-arn>|yes
<aws.events.rule-name>|yes
<aws.events.event.ingestion-time>|yes
<aws.events.event.json>|yes
<a.b>|yes
<a b>|no
<A>>|no
<k>|no
< n>|no
<n >|no
<N>|no
<>|no
<n|no
n>|no
<n><n>|no
<n>1|no
{<n>:1}|no
{ <n> : 1 }|no
{"a":{<n>:1},"a":2}|no
{"a":<k>,"a":2}|no
{"a":<n>,}|no
{"a" <n>}|no
{"a":<n>}}|no
["a"<n>]|no
"<n>|no
"a\"<n>|no
"\ud800<n>"|no
"\u003ck>"|yes
"a\\"|yes
|no
plain text|no
'<n>'|no
"#;

fn template_mark(alloc: Global, text: &str, names: &[(Text, JsonPath)]) -> &'static str {
    match Template::read(alloc, text, names) {
        Ok(_) => "yes",
        Err(TemplateFault::NotTemplate) => "no",
        Err(TemplateFault::NoMemory) => "no memory",
    }
}

fn is_template_as_said(alloc: Global, row: &str) -> Result<bool, Fail> {
    let (text, want) = two(row);
    Ok(template_mark(alloc, text, &names(alloc)?) == want)
}

/// Whether a name within this number of lists is a template.
fn nested_mark(alloc: Global, levels: usize) -> Result<&'static str, Fail> {
    let mut text = "[".repeat(alloc, levels)?;
    text.push_str("<n>")?;
    text.push_str("]".repeat(alloc, levels)?.as_str())?;
    Ok(template_mark(alloc, text.as_str(), &names(alloc)?))
}

#[test]
fn templates(rt: HostRuntime) -> Result<(), Fail> {
    all_met(rt.alloc(), TEMPLATES, 38, is_template_as_said)?;
    assert!(rt; nested_mark(rt.alloc(), 100)? == "yes");
    assert!(rt; nested_mark(rt.alloc(), 101)? == "no");
    Ok(())
}

/// The event of the tables below, the rule's ARN, and the moment 2023-11-14T22:13:20Z.
const EVENT: &str =
    r#"{"x":{"n":1},"n":1,"t":"<n>","b":true,"detail":{"id":"a\"b","items":[{"sku":7}]}}"#;

const RULE: &str = "arn:aws:events:us-east-1:111122223333:rule/r";

const MOMENT: u64 = 1_700_000_000;

/// A template, and the text that it becomes.
const TEXTS: &str = r#"<x>|{"n":1}
"<x>"|"{\"n\":1}"
{"<n>":"<<n>>"}|{"<n>":"<1>"}
"\u003cn>"|"1"
{"a":0,"b":2,"a":<n>}|{"a":1,"b":2}
[<aws.events.event>]|[{"x":{"n":1},"n":1,"t":"<n>","b":true}]
"<t>"|"<n>"
<t>|"<n>"
"<k>"|"<k>"
<m>|""
"<m>"|""
"a<m>b"|"ab"
"<n><n>"|"11"
"<n"|"<n"
"n>"|"n>"
"<n <n>"|"<n 1"
"<<<n>"|"<<1"
"<>"|"<>"
"< n>"|"< n>"
"\n<n>\u0001é\/"|"\n1\u0001é/"
{"a":{"b":<n>},"a":{"c":<m>}}|{"a":{"c":""}}
{"":<n>}|{"":1}
[ 1.50 , -0e1,null , true,false, {} ,[ ] ]|[1.50,-0e1,null,true,false,{},[]]
{"id":<id>, "note":"order <id> by <who>", "rule":<aws.events.rule-name>, "at":"<aws.events.event.ingestion-time>"}|{"id":"a\"b","note":"order a\"b by ","rule":"r","at":"2023-11-14T22:13:20Z"}
{"id":<id>, "w":<who>, "t":"order <id> by <who>"}|{"id":"a\"b","w":"","t":"order a\"b by "}
{"r":<aws.events.rule-name>,"at":"<aws.events.event.ingestion-time>"}|{"r":"r","at":"2023-11-14T22:13:20Z"}
<aws.events.rule-arn>|"arn:aws:events:us-east-1:111122223333:rule/r"
"<aws.events.rule-arn>"|"arn:aws:events:us-east-1:111122223333:rule/r"
<aws.events.event.json>|{"x":{"n":1},"n":1,"t":"<n>","b":true,"detail":{"id":"a\"b","items":[{"sku":7}]}}
"<aws.events.event>"|"{\"x\":{\"n\":1},\"n\":1,\"t\":\"<n>\",\"b\":true}"
"#;

/// An event, the ARN of a rule, a template, and the text that it becomes.
const EVENTS: &str = r#"7|arn:aws:events:us-east-1:111122223333:rule/r|[<aws.events.event>]|[7]
{"detail":1,"a":{"detail":2},"detail-type":"d"}|arn:aws:events:us-east-1:111122223333:rule/r|<aws.events.event>|{"a":{"detail":2},"detail-type":"d"}
{}|arn:aws:events:us-east-1:111122223333:rule/bus/r2|<aws.events.rule-name>|"r2"
{}|abc|<aws.events.rule-name>|"abc"
{}|a/|"<aws.events.rule-name>"|""
{}||<aws.events.rule-arn>|""
{"n":null}||[<n>,"<n>"]|[null,"null"]
{"n":[1.50]}||{"a":"<n>","b":<n>}|{"a":"[1.50]","b":[1.50]}
"#;

/// A kind of input, how it is given, and the text that it becomes.
const INPUTS: &str =
    r#"whole||{"x":{"n":1},"n":1,"t":"<n>","b":true,"detail":{"id":"a\"b","items":[{"sku":7}]}}
fixed|{"job":"nightly"}|{"job":"nightly"}
path|$.detail.items[0]|{"sku":7}
path|$.detail.no|null
path|$.t|"<n>"
path|$|{"x":{"n":1},"n":1,"t":"<n>","b":true,"detail":{"id":"a\"b","items":[{"sku":7}]}}
"#;

fn template(alloc: Global, text: &str) -> Result<Input, Fail> {
    let template = Template::read(alloc, text, &names(alloc)?)?;
    Ok(Input::Transform(template))
}

fn fixed(alloc: Global, text: &str) -> Result<Input, Fail> {
    let text = Text::from_str(alloc, text)?;
    Ok(Input::Fixed(Arc::new(alloc, text)?))
}

fn input(alloc: Global, kind: &str, given: &str) -> Result<Input, Fail> {
    match kind {
        "fixed" => fixed(alloc, given),
        "path" => Ok(Input::Path(JsonPath::read(alloc, given)?)),
        "template" => template(alloc, given),
        _ => Ok(Input::Whole),
    }
}

/// The text that a target with this input gets; `too long` if there is none for its length.
fn filled(alloc: Global, input: &Input, event: &str, rule: &str) -> Result<Text, Fail> {
    let event = read(alloc, event.as_bytes(), 100)?;
    match fill_tree(alloc, input, &event, rule, MOMENT) {
        Ok(text) => Ok(text),
        Err(FillFault::TooLong) => Ok(Text::from_str(alloc, "too long")?),
        Err(FillFault::NoMemory) => Err(Fail::new("out of memory")),
    }
}

fn is_filled(alloc: Global, row: &str) -> Result<bool, Fail> {
    let (given, want) = two(row);
    let text = filled(alloc, &template(alloc, given)?, EVENT, RULE)?;
    Ok(text.as_str() == want)
}

fn is_filled_from(alloc: Global, row: &str) -> Result<bool, Fail> {
    let (event, rule, given, want) = four(row);
    let text = filled(alloc, &template(alloc, given)?, event, rule)?;
    Ok(text.as_str() == want)
}

fn is_input_filled(alloc: Global, row: &str) -> Result<bool, Fail> {
    let (kind, given, want) = three(row);
    let text = filled(alloc, &input(alloc, kind, given)?, EVENT, RULE)?;
    Ok(text.as_str() == want)
}

#[test]
fn filled_texts(rt: HostRuntime) -> Result<(), Fail> {
    all_met(rt.alloc(), TEXTS, 30, is_filled)?;
    all_met(rt.alloc(), EVENTS, 8, is_filled_from)?;
    all_met(rt.alloc(), INPUTS, 6, is_input_filled)
}

/// A kind of input, how it is given, how many bytes the event has, and how many the text has; `too long` over 1,048,576. The event is
/// a string, and a fixed text is the event.
const LONG: &str = r#"whole||1048576|1048576
whole||1048577|too long
fixed||1048576|1048576
fixed||1048577|too long
path|$|1048576|1048576
path|$|1048577|too long
template|"<aws.events.event.json>"|1048576|1048576
template|"<aws.events.event.json>"|1048577|too long
template|[<aws.events.event.json>]|1048574|1048576
template|[<aws.events.event.json>]|1048575|too long
template|[<aws.events.event.json>,<aws.events.event.json>]|524287|too long
"#;

/// A JSON string of this number of bytes.
fn string_of(alloc: Global, bytes: usize) -> Result<String, Fail> {
    let mut text = String::new(alloc);
    text.push_str("\"")?;
    text.push_str("a".repeat(alloc, bytes.saturating_sub(2))?.as_str())?;
    text.push_str("\"")?;
    Ok(text)
}

fn long_input(alloc: Global, kind: &str, given: &str, event: &str) -> Result<Input, Fail> {
    match kind {
        "fixed" => fixed(alloc, event),
        _ => input(alloc, kind, given),
    }
}

/// Whether the text has as many bytes as the field says.
fn has_length(text: &str, field: &str) -> bool {
    match field.parse::<usize>() {
        Ok(bytes) => text.len() == bytes,
        Err(_) => text == field,
    }
}

fn is_within_limit(alloc: Global, row: &str) -> Result<bool, Fail> {
    let (kind, given, bytes, want) = four(row);
    let event = string_of(alloc, bytes.parse::<usize>()?)?;
    let input = long_input(alloc, kind, given, event.as_str())?;
    let text = filled(alloc, &input, event.as_str(), RULE)?;
    Ok(has_length(text.as_str(), want))
}

#[test]
fn a_text_has_its_limit(rt: HostRuntime) -> Result<(), Fail> {
    all_met(rt.alloc(), LONG, 11, is_within_limit)
}
