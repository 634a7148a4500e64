//! Tests of value_index: scalars worked by hand.
ghost use Rattle.std.specs.Prelude.{◌≡◌, ◌<◌, [], All, Some, IsTrue};
ghost use Rattle.json_text.specs.View.{tree_of};
ghost use Rattle.pattern_meaning.specs.View.{leaf_at};
ghost use Rattle.value_index.specs.Index.{entered};

use json_text::{Bytes, Json, read};
use numeric_keys::Marks;
use pattern_meaning::{Field, LeafTest, LeafTests, Pattern};
use pattern_read::read_pattern;
use std::alloc::Global;
use std::sync::Arc;
use std::test::Fail;
use test_rows::{all_met, three};
use value_index::PathIndex;

/// How many places the marks have.
const PLACES: u32 = 16;

/// The tests of an array, as a pattern writes them.
fn tests_of(alloc: Global, array: &str) -> Result<LeafTests, Fail> {
    let pattern = read_pattern(alloc, format!(in alloc; "{{\"x\":{array}}}")?.as_bytes())?;
    let Pattern { mut fields, .. } = pattern;
    let (_, field) = fields.pop().ok_or("no field")?;
    match field {
        Field::Tests(tests) => Ok(tests),
        Field::Below(_) => Err(Fail::new("no tests")),
    }
}

/// Each test with its place in the array.
fn numbered(alloc: Global, tests: LeafTests) -> Result<Vec<(Arc<LeafTest>, u32)>, Fail> {
    let mut numbered = Vec::new(alloc);
    let mut marks = 0..PLACES;
    for test in tests {
        let mark = marks.next().ok_or("too many tests")?;
        numbered.push((Arc::new(alloc, test)?, mark))?;
    }
    Ok(numbered)
}

/// The places that are marked.
fn shown(alloc: Global, marks: &Marks) -> Result<Bytes, Fail> {
    let mut text = Bytes::new(alloc);
    for place in 0..marks.places() {
        if marks.has(place) {
            if text.len() > 0 {
                text.extend(b" ")?;
            }
            text.extend(format!(in alloc; "{place}")?.as_bytes())?;
        }
    }
    Ok(text)
}

fn is_scalar(value: &Json) -> bool
    ensures { IsTrue result → leaf_at [] (tree_of value.now) ≡ Some (tree_of value.now) }
{
    match value {
        Json::List(_) | Json::Obj(_) => false,
        Json::Null | Json::Truth(_) | Json::Num(_) | Json::Str(_) => true,
    }
}

fn have_places(tests: &[(Arc<LeafTest>, u32)], places: u32) -> bool
    ensures { IsTrue result → All (λ entry. entry.1 < places) (entered tests.now) }
{
    tests.iter().all(|test| test.1 < places)
}

/// Adds the marks of the tests that the scalar meets. Fails if it is no scalar, or if a mark has no place.
fn add_marks(
    alloc: Global,
    index: &PathIndex,
    scalar: &Json,
    marks: &mut Marks,
) -> Result<(), Fail> {
    let tests = index.tests(alloc)?;
    if is_scalar(scalar) {
        if have_places(&tests, marks.places()) {
            index.hits(scalar, marks);
            return Ok(());
        }
    }
    Err(Fail::new("no scalar, or a mark without a place"))
}

/// Tests, a scalar, and the places of the tests that it meets.
fn are_met(alloc: Global, row: &str) -> Result<bool, Fail> {
    let (tests, scalar, want) = three(row);
    let index = PathIndex::of(alloc, numbered(alloc, tests_of(alloc, tests)?)?)?;
    let scalar = read(alloc, scalar.as_bytes(), 100)?;
    let mut marks = Marks::of(alloc, PLACES)?;
    add_marks(alloc, &index, &scalar, &mut marks)?;
    Ok(shown(alloc, &marks)?.as_slice() == want.as_bytes())
}

/// An array of tests, a scalar, and the places of those tests that it meets.
const MET: &str = r#"[2,{"numeric":["<",3]}]|1|1
[2,{"numeric":["<",3]}]|2|0 1
[{"prefix":""},{"suffix":""},{"wildcard":"*"},""]|""|0 1 2 3
[{"prefix":""},{"suffix":""},{"wildcard":"*"},""]|"x"|0 1 2
[{"prefix":""},{"suffix":""},{"wildcard":"*"},""]|1|
[{"prefix":"É"},{"prefix":{"equals-ignore-case":"É"}},{"equals-ignore-case":"É"}]|"é"|
[{"prefix":"É"},{"prefix":{"equals-ignore-case":"É"}},{"equals-ignore-case":"É"}]|"É"|0 1 2
[{"numeric":[">",5,"<",3]},{"numeric":["=",12.5]},12.5]|12.50|1
[{"numeric":[">",5,"<",3]},{"numeric":["=",12.5]},12.5]|12.5|1 2
[{"numeric":[">",5,"<",3]},{"numeric":["=",12.5]},12.5]|"12.5"|
[{"anything-but":["a"]},{"anything-but":{"prefix":"a"}}]|1|0 1
[{"anything-but":["a"]},{"anything-but":{"prefix":"a"}}]|"a"|
[{"anything-but":["a"]},{"anything-but":{"prefix":"a"}}]|"ab"|0
[null,true,false,0,"0",{"exists":true}]|null|0 5
[null,true,false,0,"0",{"exists":true}]|true|1 5
[null,true,false,0,"0",{"exists":true}]|false|2 5
[null,true,false,0,"0",{"exists":true}]|0|3 5
[null,true,false,0,"0",{"exists":true}]|"0"|4 5
[null,true,false,0,"0",{"exists":true}]|-0|5
[1e2,100,1E2]|1e2|0
["ab","AB",{"equals-ignore-case":"aB"},{"prefix":"ab"},{"prefix":{"equals-ignore-case":"AB"}}]|"AB"|1 2 4
["ab","AB",{"equals-ignore-case":"aB"},{"prefix":"ab"},{"prefix":{"equals-ignore-case":"AB"}}]|"ab"|0 2 3 4
["ab","AB",{"equals-ignore-case":"aB"},{"prefix":"ab"},{"prefix":{"equals-ignore-case":"AB"}}]|"abc"|3 4
["ab","AB",{"equals-ignore-case":"aB"},{"prefix":"ab"},{"prefix":{"equals-ignore-case":"AB"}}]|"a"|
[{"prefix":"a"},{"prefix":"ab"},{"prefix":"abc"},{"prefix":"b"},{"suffix":"c"},{"suffix":"bc"},{"suffix":"abc"}]|"abc"|0 1 2 4 5 6
[{"prefix":"a"},{"prefix":"ab"},{"prefix":"abc"},{"prefix":"b"},{"suffix":"c"},{"suffix":"bc"},{"suffix":"abc"}]|"abbc"|0 1 4 5
[{"prefix":"a"},{"prefix":"ab"},{"prefix":"abc"},{"prefix":"b"},{"suffix":"c"},{"suffix":"bc"},{"suffix":"abc"}]|"bc"|3 4 5
[{"prefix":"a"},{"prefix":"ab"},{"prefix":"abc"},{"prefix":"b"},{"suffix":"c"},{"suffix":"bc"},{"suffix":"abc"}]|"cba"|
[{"suffix":{"equals-ignore-case":".PNG"}},{"suffix":".png"},{"suffix":".PNG"}]|"a.png"|0 1
[{"wildcard":"a*c"},{"wildcard":"*c"},{"wildcard":"a*"},{"wildcard":"*b*"},{"wildcard":"abc"},{"wildcard":"a\\*c"}]|"abc"|0 1 2 3 4
[{"wildcard":"a*c"},{"wildcard":"*c"},{"wildcard":"a*"},{"wildcard":"*b*"},{"wildcard":"abc"},{"wildcard":"a\\*c"}]|"a*c"|0 1 2 5
[{"wildcard":"a*c"},{"wildcard":"*c"},{"wildcard":"a*"},{"wildcard":"*b*"},{"wildcard":"abc"},{"wildcard":"a\\*c"}]|"ac"|0 1 2
[{"wildcard":"a*c"},{"wildcard":"*c"},{"wildcard":"a*"},{"wildcard":"*b*"},{"wildcard":"abc"},{"wildcard":"a\\*c"}]|"Abc"|1 3
[{"cidr":"10.0.0.0/8"},{"cidr":"10.1.0.0/16"},{"cidr":"0.0.0.0/0"},{"cidr":"10.1.2.3/32"},{"cidr":"::/0"}]|"10.1.2.3"|0 1 2 3
[{"cidr":"10.0.0.0/8"},{"cidr":"10.1.0.0/16"},{"cidr":"0.0.0.0/0"},{"cidr":"10.1.2.3/32"},{"cidr":"::/0"}]|"11.0.0.0"|2
[{"cidr":"10.0.0.0/8"},{"cidr":"10.1.0.0/16"},{"cidr":"0.0.0.0/0"},{"cidr":"10.1.2.3/32"},{"cidr":"::/0"}]|"::1"|4
[{"cidr":"10.0.0.0/8"},{"cidr":"10.1.0.0/16"},{"cidr":"0.0.0.0/0"},{"cidr":"10.1.2.3/32"},{"cidr":"::/0"}]|"10.1.2"|
[{"cidr":"2001:db8::/32"},{"cidr":"2001:db8::1/128"},{"cidr":"2001:db9::/32"}]|"2001:db8::1"|0 1
[{"cidr":"2001:db8::/32"},{"cidr":"2001:db8::1/128"},{"cidr":"2001:db9::/32"}]|"::ffff:1.2.3.4"|
[{"numeric":[">=",-5000000000,"<=",5000000000]},{"numeric":[">",5000000000]},{"numeric":["<",-5000000000]}]|5000000000|0
[{"numeric":[">=",-5000000000,"<=",5000000000]},{"numeric":[">",5000000000]},{"numeric":["<",-5000000000]}]|-5e9|0
[{"numeric":[">=",-5000000000,"<=",5000000000]},{"numeric":[">",5000000000]},{"numeric":["<",-5000000000]}]|5000000001|
[{"numeric":[">",0,"<=",5]},{"numeric":[">=",0,"<",5]}]|0|1
[{"numeric":[">",0,"<=",5]},{"numeric":[">=",0,"<",5]}]|5.0|0
[{"numeric":[">",0,"<=",5]},{"numeric":[">=",0,"<",5]}]|1e-6|0 1
[{"numeric":[">",0,"<=",5]},{"numeric":[">=",0,"<",5]}]|1e-7|
["a","a",{"prefix":"a"}]|"a"|0 1 2
[{"exists":false},"a"]|"a"|1
"#;

#[test]
fn marks_are_added(rt: HostRuntime) -> Result<(), Fail> {
    all_met(rt.alloc(), MET, 48, are_met)
}
