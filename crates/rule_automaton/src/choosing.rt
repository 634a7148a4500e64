//! The anchors of a pattern: parts such that on each view on which the pattern holds, the leaf at the path of one of them meets one of its
//! tests.
ghost use Rattle.std.specs.Prelude.{◌≡◌, IfOk, IfSome, map};
ghost use Rattle.std.specs.List.{list_any};
ghost use Rattle.pattern_meaning.specs.Pattern.{branches_of, tests as among};
ghost use Rattle.pattern_meaning.specs.Holds.{HoldsOnView, FieldHolds, BranchesHold};
ghost use Rattle.pattern_meaning.specs.Meets as meets;
ghost use Rattle.pattern_meaning.specs.PatternView.{test_of, field_of, pattern_of};
ghost use Rattle.rule_automaton.specs.AnchorView.{parts_of};
ghost use Rattle.rule_automaton.specs.Anchors.{AreAnchors, Adds};
ghost use Rattle.rule_automaton.specs.Keys.{keys_of};

use crate::anchor::Anchor;
use crate::copying::copies;
use crate::keys::{Keys, path_of};
use crate::weights::{NONE, ROOT, Weights, below};
use json_text::{NoMemory, Text};
use pattern_meaning::{Field, LeafTest, Pattern};
use std::alloc::Global;

/// The anchors of least weight. `None` if the pattern has none.
pub(crate) fn anchors_of(
    alloc: Global,
    weights: &Weights,
    pattern: &Pattern,
) -> Result<Option<Vec<Anchor>>, NoMemory>
    ensures { IfOk result (λ chosen. IfSome chosen (λ anchors. AreAnchors (pattern_of pattern.now) (parts_of anchors.items))) }
{
    let mut anchors = Vec::new(alloc);
    let found = add_pattern(alloc, weights, pattern, &Keys::Root, ROOT, &mut anchors)?;
    if found { Ok(Some(anchors)) } else { Ok(None) }
}

/// Where the anchors of an object are.
#[derive(Clone, Copy)]
enum Place {
    Branches,
    Field(usize),
}

#[derive(Clone, Copy)]
struct Choice {
    weight: u64,
    place: Place,
}

/// The field of least weight, or the branches of the `$or`.
#[cycle(choose)]
fn lightest(weights: &Weights, pattern: &Pattern, at: u64) -> Choice {
    let mut best = Choice {
        weight: weigh_branches(weights, &pattern.branches, at),
        place: Place::Branches,
    };
    for (number, (key, field)) in pattern.fields.iter().enumerate() {
        let weight = weigh_field(weights, field, below(at, key.as_str()));
        if weight < best.weight {
            best = Choice {
                weight,
                place: Place::Field(number),
            };
        }
    }
    best
}

#[cycle(choose)]
fn weigh_field(weights: &Weights, field: &Field, at: u64) -> u64 {
    match field {
        Field::Tests(tests) => weights.of_tests(tests, at),
        Field::Below(pattern) => lightest(weights, pattern, at).weight,
    }
}

#[cycle(choose)]
fn weigh_branches(weights: &Weights, branches: &[Pattern], at: u64) -> u64 {
    if branches.is_empty() {
        return NONE;
    }
    let mut weight: u64 = 0;
    for branch in branches {
        weight = weight.saturating_add(lightest(weights, branch, at).weight);
    }
    weight
}

/// Adds the anchors of the pattern below the keys. `false` if it has none.
#[cycle(collect)]
fn add_pattern<'a>(
    alloc: Global,
    weights: &Weights,
    pattern: &'a Pattern,
    keys: &'a Keys<'a>,
    at: u64,
    anchors: &mut Vec<Anchor>,
) -> Result<bool, NoMemory>
    ensures { IfOk result (Adds (HoldsOnView (pattern_of pattern.now)) (keys_of keys.now) (parts_of anchors.old.items) (parts_of anchors.new.items)) }
{
    match lightest(weights, pattern, at).place {
        Place::Branches => add_branches(alloc, weights, &pattern.branches, keys, at, anchors),
        Place::Field(number) => match pattern.fields.get(number) {
            Some((key, field)) => add_field(
                alloc,
                weights,
                field,
                &Keys::Key {
                    key: key.as_str(),
                    up: keys,
                },
                below(at, key.as_str()),
                anchors,
            ),
            None => Ok(false),
        },
    }
}

#[cycle(collect)]
fn add_field<'a>(
    alloc: Global,
    weights: &Weights,
    field: &'a Field,
    keys: &'a Keys<'a>,
    at: u64,
    anchors: &mut Vec<Anchor>,
) -> Result<bool, NoMemory>
    ensures { IfOk result (Adds (FieldHolds (field_of field.now)) (keys_of keys.now) (parts_of anchors.old.items) (parts_of anchors.new.items)) }
{
    match field {
        Field::Tests(tests) => add_tests(alloc, tests, keys, anchors),
        Field::Below(pattern) => add_pattern(alloc, weights, pattern, keys, at, anchors),
    }
}

/// All branches together have anchors if each has.
#[cycle(collect)]
fn add_branches<'a>(
    alloc: Global,
    weights: &Weights,
    branches: &'a [Pattern],
    keys: &'a Keys<'a>,
    at: u64,
    anchors: &mut Vec<Anchor>,
) -> Result<bool, NoMemory>
    ensures { IfOk result (Adds (BranchesHold (branches_of (map pattern_of branches.now))) (keys_of keys.now) (parts_of anchors.old.items)
        (parts_of anchors.new.items)) }
{
    for branch in branches {
        if !add_pattern(alloc, weights, branch, keys, at, anchors)? {
            return Ok(false);
        }
    }
    Ok(!branches.is_empty())
}

/// Tests are an anchor, unless `exists: false` is among them.
fn add_tests(
    alloc: Global,
    tests: &[LeafTest],
    keys: &Keys<'_>,
    anchors: &mut Vec<Anchor>,
) -> Result<bool, NoMemory>
    ensures { IfOk result (Adds (FieldHolds (among (map test_of tests.now))) (keys_of keys.now) (parts_of anchors.old.items) (parts_of anchors.new.items)) }
{
    if have_missing(tests) {
        return Ok(false);
    }
    let path = path_of(alloc, keys)?;
    let tests = copies(alloc, tests)?;
    anchors.push(Anchor { path, tests })?;
    Ok(true)
}

/// Whether `exists: false` is among the tests.
fn have_missing(tests: &[LeafTest]) -> bool
    ensures { result ≡ list_any (λ test. meets.is_missing (test_of test)) tests.now }
{
    tests.iter().any(|test| is_missing(test))
}

fn is_missing(test: &LeafTest) -> bool
    ensures { result ≡ meets.is_missing (test_of test.now) }
{
    matches!(test, LeafTest::Missing)
}
