//! The operand of `numeric`.
ghost use Rattle.std.specs.Prelude.{◌≡◌, [], MatchOption};
ghost use Rattle.json_text.specs.Tree.{text, number, list, items_of};
ghost use Rattle.json_text.specs.View.{tree_of, trees_of};
ghost use Rattle.pattern_meaning.specs.PatternView.{test_of};
ghost use Rattle.pattern_meaning.specs.Pattern.{numeric};
ghost use Rattle.pattern_meaning.specs.declared.comparison.Comparison.{Comparison as View};
ghost use Rattle.pattern_read.specs.Test as spec;
ghost use Rattle.pattern_read.specs.Test.{IsOperand, IsComparison};
ghost use Rattle.pattern_read.specs.Check.{operand_checks};
ghost use Rattle.pattern_read.specs.Reading.{Gives};
ghost use Rattle.pattern_read.specs.declared.kind.Kind.TheVariants as kinds;

use crate::fault::{Fault, Why};
use json_text::Json;
use numeric_keys::millionths;
use pattern_meaning::{Comparison, LeafTest, Operator};
use std::alloc::Global;

/// One comparison or two.
pub(crate) fn read_numeric(alloc: Global, operand: Json) -> Result<LeafTest, Fault>
    ensures { Gives test_of (IsOperand kinds.Numeric (tree_of operand)) (operand_checks kinds.Numeric (tree_of operand)) result }
{
    match operand {
        Json::List(items) => read_comparisons(alloc, items.as_slice()),
        Json::Null | Json::Truth(_) | Json::Num(_) | Json::Str(_) | Json::Obj(_) => {
            Err(Fault::of(Why::BadNumeric))
        }
    }
}

fn read_comparisons(alloc: Global, items: &[Json]) -> Result<LeafTest, Fault>
    ensures { Gives test_of (IsOperand kinds.Numeric (list (items_of (trees_of items.now))))
        (operand_checks kinds.Numeric (list (items_of (trees_of items.now)))) result }
{
    match items {
        [a, b] => match read_comparison(a, b) {
            Some(x) => numeric_test(alloc, &[x]),
            None => Err(Fault::of(Why::BadNumeric)),
        },
        [a, b, c, d] => match read_comparison(a, b) {
            Some(x) => match read_comparison(c, d) {
                Some(y) => numeric_test(alloc, &[x, y]),
                None => Err(Fault::of(Why::BadNumeric)),
            },
            None => Err(Fault::of(Why::BadNumeric)),
        },
        [] => Err(Fault::of(Why::BadNumeric)),
        [_] => Err(Fault::of(Why::BadNumeric)),
        [_, _, _] => Err(Fault::of(Why::BadNumeric)),
        [_, _, _, _, _, ..] => Err(Fault::of(Why::BadNumeric)),
    }
}

fn numeric_test(alloc: Global, comparisons: &[Comparison]) -> Result<LeafTest, Fault>
    ensures { Gives test_of (λ test. test ≡ numeric comparisons.now) [] result }
{
    Ok(LeafTest::Numeric(Vec::from_slice(alloc, comparisons)?))
}

fn read_comparison(operator: &Json, number: &Json) -> Option<Comparison>
    ensures { MatchOption result
        ((c : View) → ¬ IsComparison (tree_of operator.now) (tree_of number.now) c)
        (IsComparison (tree_of operator.now) (tree_of number.now)) }
{
    match (operator, number) {
        (Json::Str(name), Json::Num(spelling)) => comparison(name.as_str(), spelling.as_str()),
        _ => None,
    }
}

fn comparison(name: &str, spelling: &str) -> Option<Comparison>
    ensures { MatchOption result
        ((c : View) → ¬ IsComparison (text name.now) (number spelling.now) c)
        (IsComparison (text name.now) (number spelling.now)) }
{
    match operator_of(name) {
        Some(operator) => match millionths(spelling) {
            Some(bound) => Some(Comparison { operator, bound }),
            None => None,
        },
        None => None,
    }
}

fn operator_of(name: &str) -> Option<Operator>
    ensures { result ≡ spec.operator_of name.now }
{
    match name {
        "=" => Some(Operator::Equal),
        "<" => Some(Operator::Less),
        "<=" => Some(Operator::AtMost),
        ">" => Some(Operator::Greater),
        ">=" => Some(Operator::AtLeast),
        _ => None,
    }
}
