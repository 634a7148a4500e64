//! The usual way to decide whether a pattern holds: field by field, each at its member. It has no answer if it reaches a `$or`, an
//! `exists: false`, or a key that comes twice; the walk decides then. The hints on inlining save a third of its time.
ghost use Rattle.std.specs.Prelude.{◌≡◌, ◌↔◌, ◌⊎◌, Some, [], IsTrue, IfSome, MatchOption, map, option_map, option_copied};
ghost use Rattle.std.specs.List.{list_any};
ghost use Rattle.std.specs.Str.{bytes_eq};
ghost use Rattle.json_text.specs.Tree.{Tree, list, items_of};
ghost use Rattle.json_text.specs.Compact.{IsValue, AreItems};
ghost use Rattle.json_text.specs.View.{tree_of, trees_of};
ghost use Rattle.pattern_meaning.specs.Pattern.{LacksField};
ghost use Rattle.pattern_meaning.specs.View.{leaf_at};
ghost use Rattle.pattern_meaning.specs.Holds.{IsMet};
ghost use Rattle.pattern_meaning.specs.PatternView.{test_of, field_of, pattern_of, fields_view};
ghost use Rattle.pattern_meaning.specs.Frames.{value_of};
ghost use Rattle.pattern_meaning.specs.Meets as spec;

use crate::absent::is_missing;
use crate::leaf::{is_met, is_same};
use crate::pattern::{Field, LeafTest, Pattern};
use crate::walk::{leaf, member};
use json_text::{Json, Text};

/// Whether some view of the event satisfies the pattern. A list as the event gets no answer.
pub(crate) fn quickly_meets(pattern: &Pattern, event: &Json) -> Option<bool>
    requires value { IsValue (tree_of event.now) }
    ensures { IfSome result (λ met. spec.Decides met (λ absent at.
        spec.OnSome (tree_of event.now) (spec.PatternMet absent at (pattern_of pattern.now)))) }
{
    match event {
        Json::List(_) => None,
        _ => pattern_meets(pattern, Some(event)),
    }
}

/// Whether some view of the value, which is no list, satisfies the pattern.
#[cycle(quick)]
fn pattern_meets(pattern: &Pattern, value: Option<&Json>) -> Option<bool>
    requires node { spec.IsNode (value_of (option_copied value)) }
    ensures { IfSome result (λ met. spec.Decides met (λ absent at.
        spec.OnSome (value_of (option_copied value.entry)) (spec.PatternMet absent at (pattern_of pattern.now)))) }
{
    match pattern.branches.as_slice() {
        [] => fields_meet(&pattern.fields, value),
        _ => None,
    }
}

/// Whether some view of the value, which is no list, satisfies the fields.
#[cycle(quick)]
fn fields_meet(fields: &[(Text, Field)], value: Option<&Json>) -> Option<bool>
    requires node { spec.IsNode (value_of (option_copied value)) }
    ensures { IfSome result (λ met. spec.Decides met (λ absent at.
        spec.OnSome (value_of (option_copied value.entry)) (spec.FieldsMet absent at (fields_view fields.now)))) }
{
    let mut left = fields;
    while let [(key, field), rest @ ..] = left {
        let inside = member(value, key.as_str());
        if !field_meets(field, inside)? {
            return Some(false);
        }
        if !is_apart(inside, key.as_str(), rest) {
            return None;
        }
        left = rest;
    }
    Some(true)
}

/// Whether some view of the value satisfies the field. A missing value has no leaves.
#[cycle(quick)]
#[inline(always)]
fn field_meets(field: &Field, value: Option<&Json>) -> Option<bool>
    requires value { IsValue (value_of (option_copied value)) }
    ensures { IfSome result (λ met. spec.Decides met (λ absent at.
        spec.OnSome (value_of (option_copied value.entry)) (spec.FieldMet absent at (field_of field.now)))) }
{
    match items_in(value) {
        Some(items) => item_meets(field, items),
        None => match field {
            Field::Tests(tests) => tests_meet(tests, value),
            Field::Below(pattern) => pattern_meets(pattern, value),
        },
    }
}

/// Whether some view of one of the items satisfies the field.
#[cycle(quick)]
#[inline(never)]
fn item_meets(field: &Field, items: &[Json]) -> Option<bool>
    requires items { AreItems (items_of (trees_of items.now)) }
    ensures { IfSome result (λ met. spec.Decides met (λ absent at.
        spec.OnSome (list (items_of (trees_of items.now))) (spec.FieldMet absent at (field_of field.now)))) }
{
    for item in items {
        if field_meets(field, Some(item))? {
            return Some(true);
        }
    }
    Some(false)
}

/// Whether one of the tests holds at the value, which is no list.
#[inline(always)]
fn tests_meet(tests: &[LeafTest], value: Option<&Json>) -> Option<bool>
    requires node { spec.IsNode (value_of (option_copied value)) }
    ensures { IfSome result (λ met. spec.Decides met (λ absent at.
        spec.SomeMetOf (spec.TestMet absent at (value_of (option_copied value.entry))) (map test_of tests.now))) }
{
    for test in tests {
        if is_missing(test) {
            return None;
        }
        if leaf_meets(test, value) {
            return Some(true);
        }
    }
    Some(false)
}

/// Whether the value is a leaf that meets the test.
#[inline(always)]
fn leaf_meets(test: &LeafTest, value: Option<&Json>) -> bool
    requires node { spec.IsNode (value_of (option_copied value)) }
    ensures { IsTrue result ↔ ((x : Tree) × (leaf_at [] (value_of (option_copied value.entry)) ≡ Some x) × IsMet (test_of test.now) x) }
{
    match leaf(value) {
        // The usual test is not passed through `is_met`, which reserves room for all the others.
        Some(leaf) => match test {
            LeafTest::Same(scalar) => is_same(scalar, leaf),
            _ => is_met(test, leaf),
        },
        None => false,
    }
}

/// The items, if the value is a list.
fn items_in<'a>(value: Option<&'a Json>) -> Option<&'a [Json]>
    ensures { MatchOption result (spec.IsNoList (value_of (option_copied value.entry)))
        (λ items. value_of (option_copied value.entry) ≡ list (items_of (trees_of items.now))) }
{
    match value? {
        Json::List(items) => Some(items.as_slice()),
        _ => None,
    }
}

/// Whether the view of a member's value is a matter of one field alone: there is one view, or no other field has the key.
fn is_apart(value: Option<&Json>, key: &str, rest: &[(Text, Field)]) -> bool
    ensures { IsTrue result → spec.HasOneView (value_of (option_copied value.entry)) ⊎ LacksField key.now (fields_view rest.now) }
{
    match leaf(value) {
        Some(_) => true,
        None => !has_field(rest, key),
    }
}

/// Whether one of the fields has the key.
#[inline(never)]
fn has_field(fields: &[(Text, Field)], key: &str) -> bool
    ensures { result ≡ list_any (λ f. bytes_eq f.0 key.now) fields.now }
{
    fields.iter().any(|(name, _)| name.as_str() == key)
}
