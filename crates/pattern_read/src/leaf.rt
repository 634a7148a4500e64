//! Values in an array of tests.
ghost use Rattle.std.specs.Prelude.{◌≡◌, option_map};
ghost use Rattle.json_text.specs.Tree.{object, members_of};
ghost use Rattle.json_text.specs.View.{tree_of, pairs_of};
ghost use Rattle.pattern_meaning.specs.PatternView.{test_of};
ghost use Rattle.pattern_read.specs.Test as spec;
ghost use Rattle.pattern_read.specs.Test.{plain_test, folded_in, IsOperand, IsTest, IsTextTest};
ghost use Rattle.pattern_read.specs.Check.{test_checks, text_checks, operand_checks};
ghost use Rattle.pattern_read.specs.Reading.{Gives, IsPlain};
ghost use Rattle.pattern_read.specs.declared.kind.Kind.{Kind as KindView};
ghost use Rattle.pattern_read.specs.declared.kind.Kind.TheVariants as kinds;
ghost use Rattle.json_text.specs.Tree.{Tree, text as spec_text};

use crate::excluded::read_anything_but;
use crate::fault::{Fault, Why};
use crate::kind::{Kind, named_in};
use crate::numeric::read_numeric;
use json_text::{Json, Members, Text};
use leaf_match::{Cidr, Wild, WildFault};
use pattern_meaning::LeafTest;
use std::alloc::Global;

/// The test that a value in an array is.
pub(crate) fn read_test(alloc: Global, json: Json) -> Result<LeafTest, Fault>
    ensures { Gives test_of (IsTest (tree_of json)) (test_checks (tree_of json)) result }
{
    match json {
        Json::Null | Json::Truth(_) | Json::Num(_) | Json::Str(_) => Ok(LeafTest::Same(json)),
        Json::List(_) => Err(Fault::of(Why::UnknownTest)),
        Json::Obj(members) => read_named(alloc, members),
    }
}

/// The test that an object in an array is.
fn read_named(alloc: Global, members: Members) -> Result<LeafTest, Fault>
    ensures { Gives test_of (IsTest (object (members_of (pairs_of members.items))))
        (test_checks (object (members_of (pairs_of members.items)))) result }
{
    match named_in(members) {
        Some((kind, operand)) => read_operand(alloc, kind, operand),
        None => Err(Fault::of(Why::UnknownTest)),
    }
}

/// The test of this kind with this operand.
fn read_operand(alloc: Global, kind: Kind, operand: Json) -> Result<LeafTest, Fault>
    ensures { Gives test_of (IsOperand kind (tree_of operand)) (operand_checks kind (tree_of operand)) result }
{
    match kind {
        Kind::Prefix => required(prefix_test(operand)),
        Kind::Suffix => required(suffix_test(operand)),
        Kind::EqualsIgnoreCase => required(equal_test(operand)),
        Kind::Wildcard => read_wildcard(alloc, operand),
        Kind::AnythingBut => read_anything_but(alloc, operand),
        Kind::Numeric => read_numeric(alloc, operand),
        Kind::Cidr => read_cidr(operand),
        Kind::Exists => required(exists_test(operand)),
    }
}

/// The test, if the operand is one of the table's.
fn required(test: Option<LeafTest>) -> Result<LeafTest, Fault>
    ensures { (kind : KindView) (operand : Tree) → IsPlain kind → option_map test_of test ≡ plain_test kind operand
        → Gives test_of (IsOperand kind operand) (operand_checks kind operand) result }
{
    match test {
        Some(test) => Ok(test),
        None => Err(Fault::of(Why::BadOperand)),
    }
}

fn prefix_test(operand: Json) -> Option<LeafTest>
    ensures { option_map test_of result ≡ plain_test kinds.Prefix (tree_of operand) }
{
    match operand {
        Json::Str(text) => Some(LeafTest::Prefix(text)),
        Json::Obj(members) => match folded_in(members) {
            Some(text) => Some(LeafTest::PrefixIgnoringCase(text)),
            None => None,
        },
        Json::Null | Json::Truth(_) | Json::Num(_) | Json::List(_) => None,
    }
}

fn suffix_test(operand: Json) -> Option<LeafTest>
    ensures { option_map test_of result ≡ plain_test kinds.Suffix (tree_of operand) }
{
    match operand {
        Json::Str(text) => Some(LeafTest::Suffix(text)),
        Json::Obj(members) => match folded_in(members) {
            Some(text) => Some(LeafTest::SuffixIgnoringCase(text)),
            None => None,
        },
        Json::Null | Json::Truth(_) | Json::Num(_) | Json::List(_) => None,
    }
}

/// The text of `{"equals-ignore-case": text}`.
fn folded_in(members: Members) -> Option<Text>
    ensures { result ≡ spec.folded_in (members_of (pairs_of members.items)) }
{
    match named_in(members) {
        Some((kind, operand)) => folded_text(kind, operand),
        None => None,
    }
}

fn folded_text(kind: Kind, operand: Json) -> Option<Text>
    ensures { result ≡ spec.folded_text kind (tree_of operand) }
{
    match kind {
        Kind::EqualsIgnoreCase => match operand {
            Json::Str(text) => Some(text),
            Json::Null | Json::Truth(_) | Json::Num(_) | Json::List(_) | Json::Obj(_) => None,
        },
        _ => None,
    }
}

fn equal_test(operand: Json) -> Option<LeafTest>
    ensures { option_map test_of result ≡ plain_test kinds.EqualsIgnoreCase (tree_of operand) }
{
    match operand {
        Json::Str(text) => Some(LeafTest::EqualsIgnoringCase(text)),
        Json::Null | Json::Truth(_) | Json::Num(_) | Json::List(_) | Json::Obj(_) => None,
    }
}

fn exists_test(operand: Json) -> Option<LeafTest>
    ensures { option_map test_of result ≡ plain_test kinds.Exists (tree_of operand) }
{
    match operand {
        Json::Truth(true) => Some(LeafTest::Exists),
        Json::Truth(false) => Some(LeafTest::Missing),
        Json::Null | Json::Num(_) | Json::Str(_) | Json::List(_) | Json::Obj(_) => None,
    }
}

fn read_wildcard(alloc: Global, operand: Json) -> Result<LeafTest, Fault>
    ensures { Gives test_of (IsOperand kinds.Wildcard (tree_of operand)) (operand_checks kinds.Wildcard (tree_of operand)) result }
{
    match operand {
        Json::Str(text) => read_wild(alloc, text.as_str()),
        Json::Null | Json::Truth(_) | Json::Num(_) | Json::List(_) | Json::Obj(_) => {
            Err(Fault::of(Why::BadOperand))
        }
    }
}

pub(crate) fn read_wild(alloc: Global, text: &str) -> Result<LeafTest, Fault>
    ensures { Gives test_of (IsTextTest kinds.Wildcard text.now) (text_checks kinds.Wildcard text.now) result }
{
    match Wild::read(alloc, text) {
        Ok(wild) => Ok(LeafTest::Wildcard(wild)),
        Err(WildFault::BadWild) => Err(Fault::of(Why::BadWildcard)),
        Err(WildFault::NoMemory) => Err(Fault::NoMemory),
    }
}

fn read_network(text: &str) -> Result<LeafTest, Fault>
    ensures { Gives test_of (IsOperand kinds.Cidr (spec_text text.now)) (operand_checks kinds.Cidr (spec_text text.now)) result }
{
    match Cidr::read(text) {
        Some(network) => Ok(LeafTest::Cidr(network)),
        None => Err(Fault::of(Why::BadCidr)),
    }
}

fn read_cidr(operand: Json) -> Result<LeafTest, Fault>
    ensures { Gives test_of (IsOperand kinds.Cidr (tree_of operand)) (operand_checks kinds.Cidr (tree_of operand)) result }
{
    match operand {
        Json::Str(text) => read_network(text.as_str()),
        Json::Null | Json::Truth(_) | Json::Num(_) | Json::List(_) | Json::Obj(_) => {
            Err(Fault::of(Why::BadCidr))
        }
    }
}
