//! Whether a leaf meets a test. pattern_meaning decides it so too, for whole patterns alone.
ghost use Rattle.std.specs.Prelude.{◌≡◌, ◌↔◌, IsTrue, IsSomeAnd, All, Some, [], map};
ghost use Rattle.json_text.specs.Tree.{number};
ghost use Rattle.json_text.specs.View.{tree_of};
ghost use Rattle.pattern_meaning.specs.Pattern.{tests_of, numeric};
ghost use Rattle.pattern_meaning.specs.View.{leaf_at};
ghost use Rattle.pattern_meaning.specs.Holds.{IsSame, IsMet, IsMetBySome, Compares};
ghost use Rattle.pattern_meaning.specs.PatternView.{test_of};

use json_text::Json;
use leaf_match::{ends_ci, equal_ci, starts_ci, wild};
use numeric_keys::millionths;
use pattern_meaning::{Comparison, LeafTest, Operator};

/// Whether the scalar meets the test.
#[cycle(met)]
pub(crate) fn is_met(test: &LeafTest, leaf: &Json) -> bool
    requires leaf { leaf_at [] (tree_of leaf.now) ≡ Some (tree_of leaf.now) }
    ensures { IsTrue result ↔ IsMet (test_of test.now) (tree_of leaf.now) }
{
    match (test, leaf) {
        (LeafTest::Same(scalar), _) => is_same(scalar, leaf),
        (LeafTest::AnythingBut(tests), _) => !is_met_by_some(tests, leaf),
        (LeafTest::Exists, _) => true,
        (LeafTest::Numeric(comparisons), Json::Num(spelling)) => is_within(
            comparisons,
            spelling.as_str(),
        ),
        (LeafTest::Prefix(front), Json::Str(text)) => text.as_str().starts_with(front.as_str()),
        (LeafTest::PrefixIgnoringCase(front), Json::Str(text)) => starts_ci(
            text.as_str(),
            front.as_str(),
        ),
        (LeafTest::Suffix(end), Json::Str(text)) => text.as_str().ends_with(end.as_str()),
        (LeafTest::SuffixIgnoringCase(end), Json::Str(text)) => ends_ci(
            text.as_str(),
            end.as_str(),
        ),
        (LeafTest::EqualsIgnoringCase(other), Json::Str(text)) => equal_ci(
            text.as_str(),
            other.as_str(),
        ),
        (LeafTest::Wildcard(pieces), Json::Str(text)) => wild(pieces, text.as_str()),
        (LeafTest::Cidr(network), Json::Str(text)) => network.holds(text.as_str()),
        _ => false,
    }
}

/// Whether the scalar meets one of the tests.
#[cycle(met)]
fn is_met_by_some(tests: &[LeafTest], leaf: &Json) -> bool
    requires leaf { leaf_at [] (tree_of leaf.now) ≡ Some (tree_of leaf.now) }
    ensures { IsTrue result ↔ IsMetBySome (tests_of (map test_of tests.now)) (tree_of leaf.now) }
{
    for test in tests {
        if is_met(test, leaf) {
            return true;
        }
    }
    false
}

/// Whether two scalars are the same.
#[inline(always)]
fn is_same(scalar: &Json, leaf: &Json) -> bool
    requires leaf { leaf_at [] (tree_of leaf.now) ≡ Some (tree_of leaf.now) }
    ensures { IsTrue result ↔ IsSame (tree_of scalar.now) (tree_of leaf.now) }
{
    match (scalar, leaf) {
        (Json::Null, Json::Null) => true,
        (Json::Truth(want), Json::Truth(have)) => want == have,
        (Json::Num(want), Json::Num(have)) => want.as_str() == have.as_str(),
        (Json::Str(want), Json::Str(have)) => want.as_str() == have.as_str(),
        _ => false,
    }
}

/// Whether the number has millionths that meet each comparison.
fn is_within(comparisons: &[Comparison], spelling: &str) -> bool
    ensures { IsTrue result ↔ IsMet (numeric comparisons.now) (number spelling.now) }
{
    all_compare(comparisons, millionths(spelling))
}

fn all_compare(comparisons: &[Comparison], number: Option<i64>) -> bool
    ensures { IsTrue result ↔ IsSomeAnd number (λ n. All (λ c. Compares c.operator n c.bound) comparisons.now) }
{
    match number {
        Some(number) => comparisons
            .iter()
            .all(|comparison| compares(comparison, number)),
        None => false,
    }
}

fn compares(comparison: &Comparison, number: i64) -> bool
    ensures { IsTrue result ↔ Compares comparison.now.operator number comparison.now.bound }
{
    match comparison.operator {
        Operator::Equal => number == comparison.bound,
        Operator::Less => number < comparison.bound,
        Operator::AtMost => number <= comparison.bound,
        Operator::Greater => number > comparison.bound,
        Operator::AtLeast => number >= comparison.bound,
    }
}
