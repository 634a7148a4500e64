//! The tests of an index by their signatures.
ghost use Rattle.std.specs.Prelude.{◌≡◌, ◌==◌, filter};
ghost use Rattle.std.specs.List.Sorted.{IsNonDecreasingBy, IsPermutation};
ghost use Rattle.value_index.specs.Rows.{range_in};

use crate::range::range_of;
use pattern_meaning::LeafTest;
use std::sync::Arc;

/// A test with its mark, and the signature by which it is found.
#[derive(Drop)]
pub(crate) struct Row {
    pub(crate) signature: u64,
    pub(crate) mark: u32,
    pub(crate) test: Arc<LeafTest>,
}

impl Row {
    /// The range of the test with the mark, if the test is `numeric`.
    pub(crate) fn range(&self) -> Option<(i64, i64, u32)>
        ensures { result ≡ range_in self.now }
    {
        match &*self.test {
            LeafTest::Numeric(comparisons) => {
                let (low, high) = range_of(comparisons);
                Some((low, high, self.mark))
            }
            _ => None,
        }
    }
}

/// In the order of their signatures. Takes no memory.
pub(crate) fn sort(rows: &mut Vec<Row>)
    ensures moved { IsPermutation rows.old.items rows.new.items }
    ensures sorted { IsNonDecreasingBy (λ row. row.signature) rows.new.items }
{
    rows.sort_unstable_by_key(|row| row.signature);
}

/// The rows with this signature.
pub(crate) fn with(rows: &[Row], signature: u64) -> &[Row]
    requires { IsNonDecreasingBy (λ row. row.signature) rows.now }
    ensures { result.now ≡ filter (λ row. row.signature == signature) rows.now }
{
    let from = rows.partition_point(|row| row.signature < signature);
    let rest = &rows[from..];
    let count = rest.partition_point(|row| row.signature <= signature);
    &rest[..count]
}
