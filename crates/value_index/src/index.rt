//! The tests entered at one path.
ghost use Rattle.std.specs.Prelude.{◌≡◌, All, IsTrue};
ghost use Rattle.std.specs.List.{filter_map};
ghost use Rattle.std.specs.List.Sorted.{IsNonDecreasingBy};
ghost use Rattle.value_index.specs.Lengths.{is_listed};
ghost use Rattle.value_index.specs.Rows.{key_in, range_in};

use crate::lengths::Lengths;
use crate::row::Row;
use numeric_keys::Ranges;

/// Tests with marks. Those that a scalar may meet are found by its value.
#[derive(Drop)]
pub struct PathIndex {
    pub(crate) rows: Vec<Row>,
    pub(crate) lengths: Lengths,
    pub(crate) ranges: Ranges,
    ghost sorted: { IsNonDecreasingBy (λ row. row.signature) rows.items },
    ghost signed: { All (λ row. row.signature ≡ (key_in row).signature) rows.items },
    ghost listed: { All (λ row. IsTrue (is_listed lengths (key_in row).length)) rows.items },
    ghost ranged: { ranges ≡ filter_map range_in rows.items },
}
