//! The operand of `anything-but`.
ghost use Rattle.std.specs.Prelude.{◌≡◌, [], ◌∷◌, Some, map, flat_map, MatchResult};
ghost use Rattle.json_text.specs.Tree.{members_of};
ghost use Rattle.json_text.specs.View.{tree_of, trees_of, pairs_of};
ghost use Rattle.pattern_meaning.specs.Pattern.{same, anything_but, tests_of};
ghost use Rattle.pattern_meaning.specs.PatternView.{test_of};
ghost use Rattle.pattern_read.specs.Kind.{named_in};
ghost use Rattle.pattern_read.specs.Test as spec;
ghost use Rattle.pattern_read.specs.Test.{IsOperand, IsTextTest, is_number};
ghost use Rattle.json_text.specs.Access.{is_text};
ghost use Rattle.std.specs.List.{list_all};
ghost use Rattle.pattern_read.specs.Check.{operand_checks, text_checks, excluded_checks};
ghost use Rattle.pattern_read.specs.Reading.{Gives, GivesSome, IsBut};
ghost use Rattle.pattern_read.specs.declared.kind.Kind.TheVariants as kinds;

use crate::fault::{Fault, Why};
use crate::kind::{Kind, named_in};
use crate::leaf::read_wild;
use json_text::{Items, Json, Members, NoMemory, Text};
use pattern_meaning::{LeafTest, LeafTests};
use std::alloc::Global;

/// Scalars that are excluded, or a test of texts.
pub(crate) fn read_anything_but(alloc: Global, operand: Json) -> Result<LeafTest, Fault>
    ensures { Gives test_of (IsOperand kinds.AnythingBut (tree_of operand)) (operand_checks kinds.AnythingBut (tree_of operand)) result }
{
    match operand {
        Json::Obj(members) => read_excluded(alloc, members),
        Json::List(items) => {
            if are_alike(items.as_slice()) {
                let tests = same_tests(alloc, items)?;
                Ok(LeafTest::AnythingBut(tests))
            } else {
                Err(Fault::of(Why::BadOperand))
            }
        }
        Json::Num(spelling) => read_scalar(alloc, Json::Num(spelling)),
        Json::Str(text) => read_scalar(alloc, Json::Str(text)),
        Json::Null | Json::Truth(_) => Err(Fault::of(Why::BadOperand)),
    }
}

/// A scalar that is excluded.
fn read_scalar(alloc: Global, scalar: Json) -> Result<LeafTest, Fault>
    ensures { Gives test_of (λ test. test ≡ anything_but (tests_of (same (tree_of scalar) ∷ []))) [] result }
{
    let mut tests = Vec::with_capacity(alloc, 1)?;
    tests.push(LeafTest::Same(scalar))?;
    Ok(LeafTest::AnythingBut(tests))
}

/// Whether the values are texts alone or numbers alone, and there is one at least.
fn are_alike(items: &[Json]) -> bool
    ensures { result ≡ spec.are_alike (trees_of items.now) }
{
    match items {
        [Json::Str(_), others @ ..] => are_texts(others),
        [Json::Num(_), others @ ..] => are_numbers(others),
        _ => false,
    }
}

fn are_texts(items: &[Json]) -> bool
    ensures { result ≡ list_all is_text (trees_of items.now) }
{
    for item in items {
        if !is_text(item) {
            return false;
        }
    }
    true
}

fn are_numbers(items: &[Json]) -> bool
    ensures { result ≡ list_all is_number (trees_of items.now) }
{
    for item in items {
        if !is_number(item) {
            return false;
        }
    }
    true
}

fn is_text(json: &Json) -> bool
    ensures { result ≡ is_text (tree_of json.now) }
{
    match json {
        Json::Str(_) => true,
        _ => false,
    }
}

fn is_number(json: &Json) -> bool
    ensures { result ≡ is_number (tree_of json.now) }
{
    match json {
        Json::Num(_) => true,
        _ => false,
    }
}

/// For each value the test that a leaf is the same.
fn same_tests(alloc: Global, items: Items) -> Result<LeafTests, NoMemory>
    ensures { MatchResult result
        (λ tests. map test_of tests.items ≡ map same (trees_of items.items))
        (λ _. Unit {0}) }
{
    let mut tests = Vec::with_capacity(alloc, items.len())?;
    for item in items {
        tests.push(LeafTest::Same(item))?;
    }
    Ok(tests)
}

/// The tests of an object: one for each text.
fn read_excluded(alloc: Global, members: Members) -> Result<LeafTest, Fault>
    ensures { Gives test_of (IsBut (named_in (members_of (pairs_of members.items))))
        (excluded_checks (named_in (members_of (pairs_of members.items)))) result }
{
    match named_in(members) {
        Some((kind, operand)) => read_texts(alloc, kind, operand),
        None => Err(Fault::of(Why::BadOperand)),
    }
}

fn read_texts(alloc: Global, kind: Kind, operand: Json) -> Result<LeafTest, Fault>
    ensures { Gives test_of (IsBut (Some (kind, tree_of operand))) (excluded_checks (Some (kind, tree_of operand))) result }
{
    match texts_in(alloc, operand) {
        Ok(Some(texts)) => {
            let tests = read_text_tests(alloc, kind, texts)?;
            Ok(LeafTest::AnythingBut(tests))
        }
        Ok(None) => Err(Fault::of(Why::BadOperand)),
        Err(NoMemory) => Err(Fault::NoMemory),
    }
}

/// A text, or the texts of a list.
fn texts_in(alloc: Global, operand: Json) -> Result<Option<Vec<Text>>, NoMemory>
    ensures { GivesSome (λ v. v.items) (spec.texts_in (tree_of operand)) result }
{
    match operand {
        Json::Str(text) => {
            let mut texts = Vec::with_capacity(alloc, 1)?;
            texts.push(text)?;
            Ok(Some(texts))
        }
        Json::List(items) => {
            if items.is_empty() {
                Ok(None)
            } else {
                all_texts(alloc, items)
            }
        }
        Json::Null | Json::Truth(_) | Json::Num(_) | Json::Obj(_) => Ok(None),
    }
}

fn all_texts(alloc: Global, items: Items) -> Result<Option<Vec<Text>>, NoMemory>
    ensures { GivesSome (λ v. v.items) (spec.all_texts (trees_of items.items)) result }
{
    let mut texts = Vec::with_capacity(alloc, items.len())?;
    for item in items {
        match item {
            Json::Str(text) => texts.push(text)?,
            _ => return Ok(None),
        }
    }
    Ok(Some(texts))
}

fn read_text_tests(alloc: Global, kind: Kind, texts: Vec<Text>) -> Result<LeafTests, Fault>
    ensures { Gives (λ tests. map test_of tests.items) (spec.AreEach (IsTextTest kind) texts.items)
        (flat_map (text_checks kind) texts.items) result }
{
    let mut tests = Vec::with_capacity(alloc, texts.len())?;
    for text in texts {
        let test = read_text_test(alloc, kind, text)?;
        tests.push(test)?;
    }
    Ok(tests)
}

fn read_text_test(alloc: Global, kind: Kind, text: Text) -> Result<LeafTest, Fault>
    ensures { Gives test_of (IsTextTest kind text) (text_checks kind text) result }
{
    match kind {
        Kind::Prefix => Ok(LeafTest::Prefix(text)),
        Kind::Suffix => Ok(LeafTest::Suffix(text)),
        Kind::EqualsIgnoreCase => Ok(LeafTest::EqualsIgnoringCase(text)),
        Kind::Wildcard => read_wild(alloc, text.as_str()),
        Kind::AnythingBut | Kind::Numeric | Kind::Cidr | Kind::Exists => {
            Err(Fault::of(Why::BadOperand))
        }
    }
}
