//! Tests of json_text: what no clause says. Calls succeed if memory is available, and the definitions are those of RFC 8259.
use crate::rows::bytes_of;
use json_text::{
    Bytes, Json, JsonFault, NoMemory, Text, copy, member_at, push_member, push_text, read,
    read_once, write,
};
use std::alloc::Global;
use std::test::Fail;
use test_rows::{all_met, four, three, two};

/// A text and its compact text. Worked by hand from RFC 8259. The last two rows are this project's own rule for a repeated key.
const COMPACT: &str = r#" null |null
~09[ true ,~0a false ]~0d|[true,false]
-0.50e+07|-0.50e+07
[]|[]
{ }|{}
{"a" : [ { } , 1 ] }|{"a":[{},1]}
"\u0041\u00e9\u20AC"|"Aé€"
"\ud83d\uDE00"|"😀"
"\/\b\f\n\r\t\"\\"|"/\b\f\n\r\t\"\\"
"\u0000\u001f"|"\u0000\u001f"
"~7fé€😀"|"~7fé€😀"
[[[1]],[2.50]]|[[[1]],[2.50]]
{"a":1, "b":2,"a":3}|{"a":3,"b":2}
{"\u0061":1,"a":{"b":1,"b":2}}|{"a":{"b":2}}
"#;

fn write_twin(alloc: Global, json: &Json, out: &mut Bytes) -> Result<(), Fail> {
    let twin = copy(alloc, json)?;
    Ok(write(&twin, out)?)
}

/// The text of the value that a text spells.
fn compact(alloc: Global, text: &[u8]) -> Result<Bytes, Fail> {
    let mut out = Bytes::new(alloc);
    let json = read(alloc, text, 100)?;
    write_twin(alloc, &json, &mut out)?;
    Ok(out)
}

fn is_compacted(alloc: Global, row: &str) -> Result<bool, Fail> {
    let (text, want) = two(row);
    let written = compact(alloc, &bytes_of(alloc, text)?)?;
    Ok(written.as_slice() == bytes_of(alloc, want)?.as_slice())
}

#[test]
fn values_are_written_compactly(rt: HostRuntime) -> Result<(), Fail> {
    all_met(rt.alloc(), COMPACT, 14, is_compacted)
}

/// A text, the levels allowed, and its fault. The place is the length of the longest front that some JSON text begins with.
const FAULTS: &str = r#"|100|not JSON|0
  |100|not JSON|2
[1,]|100|not JSON|3
[1 2]|100|not JSON|3
[1|100|not JSON|2
{"a"}|100|not JSON|4
{"a":1,}|100|not JSON|7
{1:2}|100|not JSON|1
01|100|not JSON|1
-|100|not JSON|1
1.|100|not JSON|2
1e+|100|not JSON|3
.5|100|not JSON|0
+1|100|not JSON|0
nul|100|not JSON|3
nuLl|100|not JSON|2
1 2|100|not JSON|2
~ef~bb~bf1|100|not JSON|0
"\ud800"|100|not JSON|7
"\ud800\u0|100|not JSON|9
"\udc00"|100|not JSON|4
"~e0~80"|100|not JSON|2
"~ed~a0~80"|100|not JSON|2
"~f4~90~80~80"|100|not JSON|2
"~c0~af"|100|not JSON|1
"a~0ab"|100|not JSON|2
"\x"|100|not JSON|2
[|0|too deep|0
{"a":[1]}|1|too deep|5
[[1],[[2]]]|2|too deep|6
"#;

/// A text with what `read_once` returns. Worked by hand. The two keys of the last row have one hash.
const REPEATED: &str = r#"{"a":1,"b":2,"a":3}|key twice|13
{"a":{"b":1,"b":2},"a":3}|key twice|12
{"a":1,"\u0061":{"b":1,"b":2}}|key twice|7
[{"a":1},{"a":1}]|a value|0
{"a":{"a":{"a":1}}}|a value|0
{"a":1,"a":2|not JSON|12
{"":1, "" :2}|key twice|7
{"a":1,"A":2,"a ":3}|a value|0
{"ja":1,"af":2,"b":3,"af":4}|key twice|21
"#;

/// The kind of the fault, and its place.
fn fault_parts(fault: &JsonFault) -> (&'static str, usize) {
    match fault {
        JsonFault::NotJson { at } => ("not JSON", *at),
        JsonFault::TooDeep { at } => ("too deep", *at),
        JsonFault::KeyTwice { at } => ("key twice", *at),
        JsonFault::NoMemory => ("out of memory", 0),
    }
}

/// Whether a call returned a value, for the kind `a value` and place 0, or the fault.
fn is_as_said(found: &Result<Json, JsonFault>, kind: &str, place: usize) -> bool {
    let (its_kind, at) = match found {
        Ok(_) => ("a value", 0),
        Err(fault) => fault_parts(fault),
    };
    its_kind == kind && at == place
}

fn reads_as(alloc: Global, text: &[u8], levels: u8, kind: &str, place: usize) -> bool {
    is_as_said(&read(alloc, text, u32::from(levels)), kind, place)
}

fn reads_once_as(alloc: Global, text: &[u8], levels: u8, kind: &str, place: usize) -> bool {
    is_as_said(&read_once(alloc, text, u32::from(levels)), kind, place)
}

fn is_reported(alloc: Global, row: &str) -> Result<bool, Fail> {
    let (text, levels, kind, place) = four(row);
    let (levels, place) = (levels.parse::<u8>()?, place.parse::<usize>()?);
    let text = bytes_of(alloc, text)?;
    Ok(
        reads_as(alloc, &text, levels, kind, place)
            && reads_once_as(alloc, &text, levels, kind, place),
    )
}

#[test]
fn faults_are_reported_at_their_places(rt: HostRuntime) -> Result<(), Fail> {
    all_met(rt.alloc(), FAULTS, 30, is_reported)
}

fn is_repeated(alloc: Global, row: &str) -> Result<bool, Fail> {
    let (text, kind, place) = three(row);
    let place = place.parse::<usize>()?;
    let text = bytes_of(alloc, text)?;
    Ok(reads_once_as(alloc, &text, 100, kind, place))
}

#[test]
fn the_first_repeated_key_is_reported(rt: HostRuntime) -> Result<(), Fail> {
    all_met(rt.alloc(), REPEATED, 9, is_repeated)
}

/// Texts to accept and texts to refuse, in the manner of the public suites of JSON parsers.
const MARKED: &str = r#"[null, 1, "1", {}]|accepted
[1,null,null,null,2]|accepted
[123e45]|accepted
[123.456e78]|accepted
[0.4e669999999999]|accepted
{"asd":"sdf", "dfg":"fgh"}|accepted
{"":0}|accepted
{"foo\u0000bar": 42}|accepted
{"a":[]}|accepted
["\uDBFF\uDFFF"]|accepted
["\u0012"]|accepted
["\uFFFF"]|accepted
["\u2028"]|accepted
["~e2~80~a8"]|accepted
[[]   ]|accepted
[""]|accepted
[]|accepted
["a"]|accepted
[false]|accepted
[null]|accepted
[1~0a]|accepted
 [1]|accepted
[2] |accepted
[0e+1]|accepted
[0e1]|accepted
[ 4]|accepted
[-0]|accepted
[-123]|accepted
[1E22]|accepted
[1E-2]|accepted
" "|accepted
[1 true]|refused
["": 1]|refused
["x"]]|refused
["a",~0a4~0a,1,|refused
["a\f"~0c]|refused
[++1234]|refused
[Infinity]|refused
{"a":"b"}/**/|refused
{"a" b}|refused
["\uD800\"]|refused
["\uqqqq"]|refused
["~09"]|refused
[a~e5]|refused
[""],|refused
[,1]|refused
[1,,2]|refused
[3[4]]|refused
[,]|refused
[-]|refused
[,""]|refused
[1,}|refused
[*]|refused
[1,|refused
[fals]|refused
[nul]|refused
[tru]|refused
[-01]|refused
[-2.]|refused
[.-1]|refused
[0.1.2]|refused
[0.3e+]|refused
[0E]|refused
[1.0e]|refused
[1eE2]|refused
[0x1]|refused
[NaN]|refused
{'a':0}|refused
"#;

/// How `read` takes a text. A fault other than that the text is no JSON is neither mark.
fn mark(alloc: Global, text: &[u8]) -> &'static str {
    match read(alloc, text, 100) {
        Ok(_) => "accepted",
        Err(JsonFault::NotJson { at: _ }) => "refused",
        Err(_) => "another fault",
    }
}

fn is_marked(alloc: Global, row: &str) -> Result<bool, Fail> {
    let (text, want) = two(row);
    let text = bytes_of(alloc, text)?;
    Ok(mark(alloc, &text) == want)
}

#[test]
fn outside_cases_go_as_marked(rt: HostRuntime) -> Result<(), Fail> {
    all_met(rt.alloc(), MARKED, 68, is_marked)
}

/// Whether this number of nested arrays is read as said.
fn nested_as(alloc: Global, levels: u8, kind: &str, place: usize) -> Result<bool, Fail> {
    let mut text = vec![in alloc; b'['; usize::from(levels)]?;
    text.resize(2 * usize::from(levels), b']')?;
    Ok(reads_as(alloc, &text, 100, kind, place))
}

#[test]
fn a_hundred_levels_are_read_and_one_more_is_not(rt: HostRuntime) -> Result<(), Fail> {
    assert!(rt; nested_as(rt.alloc(), 100, "a value", 0)?);
    assert!(rt; nested_as(rt.alloc(), 101, "too deep", 100)?);
    Ok(())
}

#[test]
fn a_text_keeps_what_it_is_given(rt: HostRuntime) -> Result<(), Fail> {
    let text = Text::from_str(rt.alloc(), "\u{e9}")?;
    assert!(rt; text.copy(rt.alloc())?.as_str() == "\u{e9}");
    assert!(rt; Text::new(rt.alloc()).as_str().is_empty());
    Ok(())
}

#[test]
fn bytes_keep_what_they_are_given(rt: HostRuntime) -> Result<(), Fail> {
    let mut bytes = Bytes::new(rt.alloc());
    bytes.extend(b"abc")?;
    bytes.truncate(2);
    assert!(rt; bytes.as_slice() == b"ab".as_slice());
    assert!(rt; bytes.len() == 2);
    Ok(())
}

fn is_text(json: Option<&Json>, want: &str) -> bool {
    match json {
        Some(json) => json.as_text() == Some(want),
        None => false,
    }
}

/// Adds the members `a`, `a` and the empty key, in this order.
fn push_three(alloc: Global, members: &mut Vec<(Text, Json)>) -> Result<(), NoMemory> {
    push_text(alloc, members, "a", "one")?;
    push_text(alloc, members, "a", "two")?;
    push_member(alloc, members, "", Json::Null)
}

// Members are found by key, the first of a repeated key first, and are added at the end.
#[test]
fn members_are_found_and_added(rt: HostRuntime) -> Result<(), Fail> {
    let mut members = Vec::new(rt.alloc());
    push_three(rt.alloc(), &mut members)?;
    assert!(rt; is_text(member_at(&members, "a"), "one"));
    let json = Json::Obj(members);
    assert!(rt; json.is_object());
    assert!(rt; matches!(json.member(""), Some(Json::Null)));
    assert!(rt; json.member("b").is_none());
    assert!(rt; json.as_text().is_none());
    Ok(())
}
