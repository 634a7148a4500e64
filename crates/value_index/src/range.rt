//! The comparisons of `numeric` as one range of millionths.
ghost use Rattle.std.specs.Prelude.{◌≡◌};
ghost use Rattle.value_index.specs.Range as spec;

use pattern_meaning::{Comparison, Operator};

const LARGEST: i64 = 5_000_000_000_000_000;

/// The least and the greatest number of millionths that meet all comparisons. The first is above the second if there is none.
pub(crate) fn range_of(comparisons: &[Comparison]) -> (i64, i64)
    ensures { result ≡ spec.range_of comparisons.now }
{
    comparisons.iter().fold(
        (-LARGEST, LARGEST),
        |range, comparison| narrowed(range, comparison),
    )
}

/// The numbers of the range that meet the comparison too.
fn narrowed(range: (i64, i64), comparison: &Comparison) -> (i64, i64)
    ensures { result ≡ spec.narrowed range comparison.now }
{
    let (low, high) = range;
    let bound = comparison.bound;
    match comparison.operator {
        Operator::Equal => (low.max(bound), high.min(bound)),
        Operator::Less => (low, high.min(bound.max(-LARGEST) - 1)),
        Operator::AtMost => (low, high.min(bound)),
        Operator::Greater => (low.max(bound.min(LARGEST) + 1), high),
        Operator::AtLeast => (low.max(bound), high),
    }
}
