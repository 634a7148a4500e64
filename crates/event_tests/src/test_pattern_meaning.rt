//! Tests of pattern_meaning: a pattern that no text is. Patterns that are read are rows of examples/tables.
use crate::rows::said;
use json_text::read;
use pattern_meaning::{Pattern, plain_holds};
use pattern_read::read_pattern;
use std::alloc::Global;
use std::test::Fail;
use test_rows::{all_met, two};

/// Whether the pattern holds of the event as the row says.
fn is_held(alloc: Global, pattern: &Pattern, row: &str) -> Result<bool, Fail> {
    let (event, want) = two(row);
    let tree = read(alloc, event.as_bytes(), 100)?;
    Ok(said(plain_holds(pattern, &tree)) == want)
}

/// An event, and whether the pattern with a key twice holds of it.
const KEY_TWICE: &str = r#"{"a":[{"b":1},{"c":2}]}|false
{"a":[{"b":1},{"b":1,"c":2}]}|true
{"a":{"b":1,"c":2}}|true
{"a":{"b":1}}|false
"#;

/// A pattern made by hand may have a key twice. Both fields are about one member of the list.
fn a_twice(alloc: Global) -> Result<Pattern, Fail> {
    let mut pattern = read_pattern(alloc, br#"{"a":{"b":[1]}}"#)?;
    let other = read_pattern(alloc, br#"{"a":{"c":[2]}}"#)?;
    for field in other.fields {
        pattern.fields.push(field)?;
    }
    Ok(pattern)
}

#[test]
fn a_key_twice_needs_one_member_of_a_list(rt: HostRuntime) -> Result<(), Fail> {
    let pattern = a_twice(rt.alloc())?;
    all_met(
        rt.alloc(),
        KEY_TWICE,
        4,
        |alloc, row| is_held(alloc, &pattern, row),
    )
}
