//! JSON values to patterns.
ghost use Rattle.std.specs.Prelude.{◌≡◌, ◌++◌, List, map, flat_map, IsTrue};
ghost use Rattle.std.specs.List.{list_all};
ghost use Rattle.json_text.specs.Tree.{list, items_of, members_of};
ghost use Rattle.json_text.specs.View.{tree_of, trees_of, pairs_of};
ghost use Rattle.pattern_meaning.specs.PatternView.{test_of, field_of, pattern_of};
ghost use Rattle.pattern_read.specs.Test.{AreEach, IsTest};
ghost use Rattle.pattern_read.specs.Value as spec;
ghost use Rattle.pattern_read.specs.Value.{Makes, AreMembers, AreBranches, IsPatternOf, IsFieldOf, IsNamedField, IsOr};
ghost use Rattle.json_text.specs.Access.{is_object};
ghost use Rattle.pattern_read.specs.Check.{no_member_checks, members_checks, branches_checks, pattern_checks, field_checks, or_checks, id_checks, test_checks};
ghost use Rattle.pattern_read.specs.Reading.{Gives, Adds};

use crate::fault::{Fault, Why};
use crate::leaf::read_test;
use json_text::{Items, Json, Members};
use pattern_meaning::{Field, LeafTests, Pattern};
use std::alloc::Global;

/// The pattern that a value is. `root` is true of the root and of a branch of a root `$or`.
#[cycle(build)]
pub(crate) fn read_value(alloc: Global, root: bool, json: Json) -> Result<Pattern, Fault>
    ensures { Gives pattern_of (IsPatternOf root (tree_of json)) (pattern_checks root (tree_of json)) result }
{
    match json {
        Json::Obj(members) => read_members(alloc, root, members),
        Json::Null | Json::Truth(_) | Json::Num(_) | Json::Str(_) | Json::List(_) => {
            Err(Fault::of(Why::NotObject))
        }
    }
}

/// The pattern of an object: `$or` gives its branches, each other member a field.
#[cycle(build)]
fn read_members(alloc: Global, root: bool, members: Members) -> Result<Pattern, Fault>
    ensures { Gives pattern_of (Makes (members_of (pairs_of members.items)) (AreMembers root (members_of (pairs_of members.items))))
        (no_member_checks (members_of (pairs_of members.items)) ++ members_checks root (members_of (pairs_of members.items))) result }
{
    if members.is_empty() {
        return Err(Fault::of(Why::EmptyObject));
    }
    let mut fields = Vec::with_capacity(alloc, members.len())?;
    let mut branches = Vec::new(alloc);
    for (key, value) in members {
        if key.as_str() == "$or" {
            match read_or(alloc, root, value, branches) {
                Ok(more) => branches = more,
                Err(fault) => return Err(fault.under(alloc, key.as_str())),
            }
        } else {
            match read_named(alloc, root, key.as_str(), value) {
                Ok(field) => fields.push((key, field))?,
                Err(fault) => return Err(fault.under(alloc, key.as_str())),
            }
        }
    }
    Ok(Pattern { fields, branches })
}

/// A field, whose key is not `id` at the root.
#[cycle(build)]
fn read_named(alloc: Global, root: bool, key: &str, value: Json) -> Result<Field, Fault>
    ensures { Gives field_of (IsNamedField root key.now (tree_of value))
        (id_checks root key.now ++ field_checks (tree_of value)) result }
{
    if root && key == "id" {
        return Err(Fault::of(Why::BadId));
    }
    read_field(alloc, value)
}

/// A list is read as tests, an object as a pattern.
#[cycle(build)]
fn read_field(alloc: Global, value: Json) -> Result<Field, Fault>
    ensures { Gives field_of (IsFieldOf (tree_of value)) (field_checks (tree_of value)) result }
{
    match value {
        Json::List(items) => read_tests(alloc, items),
        Json::Obj(members) => Ok(Field::Below(read_members(alloc, false, members)?)),
        Json::Null | Json::Truth(_) | Json::Num(_) | Json::Str(_) => {
            Err(Fault::of(Why::NotObject))
        }
    }
}

/// The branches of `$or`, after those that are there.
#[cycle(build)]
fn read_or(
    alloc: Global,
    root: bool,
    value: Json,
    branches: Vec<Pattern>,
) -> Result<Vec<Pattern>, Fault>
    ensures { Gives (λ v. map pattern_of v.items) (Adds (map pattern_of branches.items) (IsOr root (tree_of value)))
        (or_checks root (tree_of value)) result }
{
    match value {
        Json::List(items) => {
            if are_branches(items.as_slice()) {
                read_branches(alloc, root, items, branches)
            } else {
                Err(Fault::of(Why::BadOr))
            }
        }
        Json::Null | Json::Truth(_) | Json::Num(_) | Json::Str(_) | Json::Obj(_) => {
            Err(Fault::of(Why::BadOr))
        }
    }
}

/// Each value as a pattern, after those that are there.
#[cycle(build)]
fn read_branches(
    alloc: Global,
    root: bool,
    items: Items,
    before: Vec<Pattern>,
) -> Result<Vec<Pattern>, Fault>
    ensures { Gives (λ v. map pattern_of v.items) (Adds (map pattern_of before.items) (AreBranches root (items_of (trees_of items.items))))
        (branches_checks root (items_of (trees_of items.items))) result }
{
    let mut branches = before;
    for item in items {
        let branch = read_value(alloc, root, item)?;
        branches.push(branch)?;
    }
    Ok(branches)
}

/// The tests of a list. An empty list is refused.
fn read_tests(alloc: Global, items: Items) -> Result<Field, Fault>
    ensures { Gives field_of (IsFieldOf (list (items_of (trees_of items.items)))) (field_checks (list (items_of (trees_of items.items)))) result }
{
    if items.is_empty() {
        return Err(Fault::of(Why::EmptyArray));
    }
    let tests = each_test(alloc, items)?;
    Ok(Field::Tests(tests))
}

fn each_test(alloc: Global, items: Items) -> Result<LeafTests, Fault>
    ensures { Gives (λ v. map test_of v.items) (AreEach IsTest (trees_of items.items)) (flat_map test_checks (trees_of items.items)) result }
{
    let mut tests = Vec::with_capacity(alloc, items.len())?;
    for item in items {
        let test = read_test(alloc, item)?;
        tests.push(test)?;
    }
    Ok(tests)
}

/// Whether the values are objects alone, and there are two at least.
fn are_branches(items: &[Json]) -> bool
    ensures { result ≡ spec.are_branches (trees_of items.now) }
{
    items.len() >= 2 && are_objects(items)
}

fn are_objects(items: &[Json]) -> bool
    ensures { result ≡ list_all is_object (trees_of items.now) }
{
    for item in items {
        if !is_object(item) {
            return false;
        }
    }
    true
}

fn is_object(json: &Json) -> bool
    ensures { result ≡ is_object (tree_of json.now) }
{
    match json {
        Json::Obj(_) => true,
        _ => false,
    }
}
