//! Tests of rule_automaton: rules and events worked by hand, matched by an automaton and each rule by itself.
ghost use Rattle.std.specs.Prelude.{◌<◌, All, IfOk, IsTrue};
ghost use Rattle.json_text.specs.Compact.{IsValue};
ghost use Rattle.json_text.specs.View.{tree_of};
ghost use Rattle.rule_automaton.specs.View.{rules_of};

use event_flatten::Fields;
use json_text::{Bytes, Json, Text, read, write};
use numeric_keys::Marks;
use pattern_meaning::plain_holds;
use pattern_read::SharedPattern;
use rule_automaton::Automaton;
use std::alloc::Global;
use std::test::Fail;
use test_rows::{all_met, four, three, two};

/// How many places the marks have.
const PLACES: u32 = 16;

/// The patterns of a list, each with its place as the number of its rule.
fn rules_in(alloc: Global, list: &str) -> Result<Vec<(u32, SharedPattern)>, Fail> {
    let mut rules = Vec::new(alloc);
    let mut numbers = 0..PLACES;
    if let Json::List(patterns) = read(alloc, list.as_bytes(), 100)? {
        for pattern in &patterns {
            let number = numbers.next().ok_or("too many rules")?;
            rules.push((number, shared(alloc, pattern)?))?;
        }
    }
    Ok(rules)
}

fn shared(alloc: Global, pattern: &Json) -> Result<SharedPattern, Fail> {
    let mut text = Bytes::new(alloc);
    write(pattern, &mut text)?;
    let text = Text::from_str(alloc, str::from_utf8(text.as_slice())?)?;
    match SharedPattern::read(alloc, text) {
        Ok(pattern) => Ok(pattern),
        Err(_) => Err(Fail::new("no pattern")),
    }
}

/// Whether each rule has a place.
fn have_places(rules: &[(u32, SharedPattern)], places: u32) -> bool
    ensures { IsTrue result → All (λ rule. rule.0 < places) rules.now }
{
    rules.iter().all(|rule| rule.0 < places)
}

/// The automaton of these rules. Fails if one of them has no place.
fn built(alloc: Global, rules: &[(u32, SharedPattern)]) -> Result<Automaton, Fail>
    ensures { IfOk result (λ automaton. All (λ rule. rule.0 < 16) (rules_of automaton)) }
{
    if have_places(rules, PLACES) {
        let automaton = Automaton::build(alloc, rules)?;
        return Ok(automaton);
    }
    Err(Fail::new("a rule without a place"))
}

/// The automaton without the rules with this number, and then with this rule. Fails if the rule has no place.
fn put_again(
    alloc: Global,
    automaton: &Automaton,
    number: u32,
    pattern: &SharedPattern,
) -> Result<Automaton, Fail>
    requires { All (λ rule. rule.0 < 16) (rules_of automaton.now) }
    ensures { IfOk result (λ changed. All (λ rule. rule.0 < 16) (rules_of changed)) }
{
    if number < PLACES {
        let without = automaton.without(alloc, number)?;
        let changed = without.with(alloc, number, pattern)?;
        return Ok(changed);
    }
    Err(Fail::new("a rule without a place"))
}

/// The marks of the automaton.
fn marks_of(alloc: Global, automaton: &Automaton, event: &Json) -> Result<Marks, Fail>
    requires places { All (λ rule. rule.0 < 16) (rules_of automaton.now) }
    requires value { IsValue (tree_of event.now) }
{
    let mut marks = Marks::of(alloc, PLACES)?;
    let fields = Fields::of(alloc, automaton.paths(), event)?;
    automaton.matches(event, &fields, &mut marks);
    Ok(marks)
}

/// The places that are marked.
fn shown(alloc: Global, marks: &Marks) -> Result<Bytes, Fail> {
    let mut text = Bytes::new(alloc);
    for place in 0..marks.places() {
        if marks.has(place) {
            if text.len() > 0 {
                text.extend(b" ")?;
            }
            text.extend(format!(in alloc; "{place}")?.as_bytes())?;
        }
    }
    Ok(text)
}

/// The numbers of the rules that hold, each decided by itself.
fn held(alloc: Global, rules: &[(u32, SharedPattern)], event: &Json) -> Result<Bytes, Fail>
    requires { IsValue (tree_of event.now) }
{
    let mut text = Bytes::new(alloc);
    for (number, pattern) in rules {
        if plain_holds(pattern.pattern().pattern(), event) {
            if text.len() > 0 {
                text.extend(b" ")?;
            }
            text.extend(format!(in alloc; "{number}")?.as_bytes())?;
        }
    }
    Ok(text)
}

/// Patterns, an event, and the places of those that hold of it, by an automaton and by themselves.
fn are_marked(alloc: Global, row: &str) -> Result<bool, Fail> {
    let (list, event, want) = three(row);
    let rules = rules_in(alloc, list)?;
    let event = read(alloc, event.as_bytes(), 100)?;
    let automaton = built(alloc, &rules)?;
    let marks = marks_of(alloc, &automaton, &event)?;
    let by_automaton = shown(alloc, &marks)?;
    let by_themselves = held(alloc, &rules, &event)?;
    Ok(by_automaton.as_slice() == want.as_bytes() && by_themselves.as_slice() == want.as_bytes())
}

/// Patterns, an event, and the numbers of the patterns that hold of it, counted from 0.
const MARKED: &str = r#"[{"a":{"b":[1],"c":[2]}},{"a":{"b":[1]}}]|{"a":[{"b":1},{"c":2}]}|1
[{"a":{"b":[1],"c":[2]}},{"a":{"b":[1]}},{"a":{"c":[2]}}]|{"a":[{"b":1,"c":2}]}|0 1 2
[{"a":{"b":[1],"c":[2]}},{"a":{"b":[1]}},{"a":{"c":[2]}}]|{"a":{"b":1,"c":3}}|1
[{"a":{"b":[1]},"$or":[{"a":{"c":[2]}},{"d":[3]}]},{"a":{"b":[1]}},{"d":[3]}]|{"a":[{"b":1},{"c":2}]}|1
[{"a":{"b":[1]},"$or":[{"a":{"c":[2]}},{"d":[3]}]},{"a":{"b":[1]}},{"d":[3]}]|{"a":[{"b":1},{"c":2}],"d":3}|0 1 2
[{"a":[{"prefix":""}]},{"a":[{"suffix":""}]},{"a":[{"wildcard":"*"}]},{"a":[""]}]|{"a":""}|0 1 2 3
[{"a":[{"prefix":""}]},{"a":[{"suffix":""}]},{"a":[{"wildcard":"*"}]},{"a":[""]}]|{"a":"x"}|0 1 2
[{"a":[{"prefix":""}]},{"a":[{"suffix":""}]},{"a":[{"wildcard":"*"}]},{"a":[""]}]|{"a":1}|
[{"a":{"b":[1]}},{"a.b":[1]}]|{"a.b":1}|1
[{"a":{"b":[1]}},{"a.b":[1]}]|{"a":{"b":1}}|0
[{"a":[1]},{"a":[{"exists":true}]},{"a":{"b":[1]}}]|{"a":[[],[[1]],{"b":2}]}|0 1
[{"a":[1]},{"a":[{"exists":true}]},{"a":{"b":[2]}}]|{"a":[[],[[3]],{"b":2}]}|1 2
[{"a":[1]},{"a":[{"exists":true}]},{"a":[{"exists":false}]}]|{"a":[[],[[]]]}|2
[{"a":[{"prefix":"É"}]},{"a":[{"prefix":{"equals-ignore-case":"É"}}]},{"a":["é"]}]|{"a":"é"}|2
[{"a":[{"numeric":[">",5,"<",3]}]},{"a":[{"numeric":["=",12.5]}]},{"a":[12.5]}]|{"a":12.50}|1
[{"a":[{"numeric":[">",5,"<",3]}]},{"a":[{"numeric":["=",12.5]}]},{"a":[12.5]}]|{"a":12.5}|1 2
[{"a":[{"numeric":[">",5,"<",3]}]},{"a":[{"numeric":[">=",3,"<=",5]}]},{"a":[4]}]|{"a":4}|1 2
[{"a":[{"anything-but":["a"]}]},{"a":[{"anything-but":{"prefix":"a"}}]}]|{"a":1}|0 1
[{"a":[{"anything-but":["a"]}]},{"a":[{"anything-but":{"prefix":"a"}}]}]|{}|
[{"a":[{"anything-but":["a"]}]},{"a":[{"anything-but":{"prefix":"a"}}]}]|{"a":"ab"}|0
[{"a":[{"anything-but":["a"]}]},{"a":[{"anything-but":{"prefix":"a"}}]}]|{"a":["a","b"]}|0 1
[{"$or":[{"a":[1]},{"b":[{"exists":false}]}]},{"b":[{"exists":false}]}]|{}|0 1
[{"$or":[{"a":[1]},{"b":[{"exists":false}]}]},{"b":[{"exists":false}]}]|{"b":2}|
[{"$or":[{"a":[1]},{"b":[{"exists":false}]}]},{"b":[{"exists":false}]}]|{"a":1,"b":2}|0
[{"a":{"b":[{"exists":false}]}},{"a":{"c":[1]}},{"a":{"b":[1]}}]|{"a":[{"c":1},{"b":1}]}|1 2
[{"a":{"b":[{"exists":false}]}},{"a":{"c":[1]}},{"a":{"b":[1]}}]|{"a":[{"c":1},{"c":2}]}|0 1
[{"a":{"b":[{"exists":false}],"c":[1]}},{"a":{"b":[{"exists":false},2],"c":[1]}}]|{"a":{"c":1}}|0 1
[{"a":{"b":[{"exists":false}],"c":[1]}},{"a":{"b":[{"exists":false},2],"c":[1]}}]|{"a":{"b":2,"c":1}}|1
[{"a":{"b":[{"exists":false}],"c":[1]}},{"a":{"b":[{"exists":false},2],"c":[1]}}]|{"a":{"b":3,"c":1}}|
[{"s":["x"],"k":[1]},{"s":["x"],"k":[2]},{"s":["x"],"k":[3]},{"s":["y"],"k":[2]}]|{"s":"x","k":2}|1
[{"s":["x"],"k":[1]},{"s":["x"],"k":[2]},{"s":["x"],"k":[3]},{"s":["y"],"k":[2]}]|{"s":["x","y"],"k":[1,2]}|0 1 3
[{"s":["x"],"k":[1]},{"s":["x"],"k":[2]},{"s":["x"],"k":[3]},{"s":["y"],"k":[2]}]|{"s":"z","k":2}|
[{"$or":[{"a":[1]},{"b":[1]}],"c":[1]},{"$or":[{"a":[2]},{"b":[2]}]},{"c":[1]}]|{"b":1,"c":1}|0 2
[{"$or":[{"a":[1]},{"b":[1]}],"c":[1]},{"$or":[{"a":[2]},{"b":[2]}]},{"c":[1]}]|{"a":2,"c":2}|1
[{"$or":[{"a":[1]},{"b":[1]}],"c":[1]},{"$or":[{"a":[2]},{"b":[2]}]},{"c":[1]}]|{"a":1,"b":2}|1
[{"$or":[{"$or":[{"a":[1]},{"b":[1]}]},{"c":{"$or":[{"d":[1]},{"e":[1]}]}}]},{"c":{"e":[1]}}]|{"c":{"e":1}}|0 1
[{"$or":[{"$or":[{"a":[1]},{"b":[1]}]},{"c":{"$or":[{"d":[1]},{"e":[1]}]}}]},{"c":{"e":[1]}}]|{"b":1}|0
[{"$or":[{"$or":[{"a":[1]},{"b":[1]}]},{"c":{"$or":[{"d":[1]},{"e":[1]}]}}]},{"c":{"e":[1]}}]|{"c":{"d":2,"e":2}}|
[{"a":[{"cidr":"10.0.0.0/8"}]},{"a":[{"cidr":"0.0.0.0/0"}]},{"a":[{"cidr":"::/0"}]}]|{"a":"10.1.2.3"}|0 1
[{"a":[{"cidr":"10.0.0.0/8"}]},{"a":[{"cidr":"0.0.0.0/0"}]},{"a":[{"cidr":"::/0"}]}]|{"a":"::1"}|2
[{"a":[{"equals-ignore-case":"Ab"}]},{"a":["ab"]},{"a":[{"suffix":{"equals-ignore-case":"B"}}]}]|{"a":"aB"}|0 2
[{"a":[{"wildcard":"a*c"}]},{"a":[{"wildcard":"*b*"}]},{"a":[{"wildcard":"x*"}]}]|{"a":"abc"}|0 1
[{"a":[null]},{"a":[true]},{"a":[false]},{"a":[0]},{"a":["0"]}]|{"a":null}|0
[{"a":[null]},{"a":[true]},{"a":[false]},{"a":[0]},{"a":["0"]}]|{"a":[false,"0"]}|2 4
[{"":[1]},{"a":{"":[1]}}]|{"":1,"a":{"":2}}|0
[{"":[1]},{"a":{"":[1]}}]|{"a":{"":1}}|1
[]|{"a":1}|
"#;

#[test]
fn rules_are_marked(rt: HostRuntime) -> Result<(), Fail> {
    all_met(rt.alloc(), MARKED, 47, are_marked)
}

/// Patterns, a number and a pattern that is put again under it, an event, and the places of those that hold of it.
fn are_put(alloc: Global, row: &str) -> Result<bool, Fail> {
    let (list, number, pattern, rest) = four(row);
    let (event, want) = two(rest);
    let number: u32 = number.parse()?;
    let pattern = shared(alloc, &read(alloc, pattern.as_bytes(), 100)?)?;
    let event = read(alloc, event.as_bytes(), 100)?;
    let automaton = built(alloc, &rules_in(alloc, list)?)?;
    let changed = put_again(alloc, &automaton, number, &pattern)?;
    let marks = marks_of(alloc, &changed, &event)?;
    Ok(shown(alloc, &marks)?.as_slice() == want.as_bytes())
}

/// Patterns, one of their numbers or another, the pattern that it has from then on, an event, and the numbers of those that hold of it.
const PUT: &str = r#"[{"a":[1]},{"a":[2]},{"b":[1]}]|1|{"a":[1]}|{"a":1}|0 1
[{"a":[1]},{"a":[2]},{"b":[1]}]|1|{"a":[1]}|{"a":2}|
[{"a":[1]},{"a":[2]},{"b":[1]}]|1|{"b":[1]}|{"a":2,"b":1}|1 2
[{"a":[1]},{"a":[2]},{"b":[1]}]|0|{"c":[{"exists":false}]}|{"a":1}|0
[{"a":[1]},{"a":[2]},{"b":[1]}]|0|{"c":[{"exists":false}]}|{"a":1,"c":1}|
[{"c":[{"exists":false}]}]|0|{"a":[1]}|{}|
[{"c":[{"exists":false}]}]|0|{"a":[1]}|{"a":1}|0
[{"$or":[{"a":[1]},{"b":[1]}]},{"b":[1]}]|0|{"$or":[{"c":[1]},{"d":[1]}]}|{"b":1}|1
[{"$or":[{"a":[1]},{"b":[1]}]},{"b":[1]}]|0|{"$or":[{"c":[1]},{"d":[1]}]}|{"b":1,"d":1}|0 1
[{"a":[1]}]|3|{"a":[1,2]}|{"a":1}|0 3
[{"a":[1]}]|3|{"a":[1,2]}|{"a":2}|3
[]|0|{"a":{"b":[1]}}|{"a":[{"b":1}]}|0
"#;

#[test]
fn rules_are_put_again(rt: HostRuntime) -> Result<(), Fail> {
    all_met(rt.alloc(), PUT, 12, are_put)
}
