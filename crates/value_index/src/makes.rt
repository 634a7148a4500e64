//! An index is made of tests with marks.
ghost use Rattle.std.specs.Prelude.{◌≡◌, ◌++◌, All, IfOk, OnOk, map};
ghost use Rattle.std.specs.List.{filter_map};
ghost use Rattle.std.specs.Option.{option_to_list};
ghost use Rattle.std.specs.List.Sorted.{IsPermutation};
ghost use Rattle.value_index.specs.Index.{entries_of, entered};
ghost use Rattle.value_index.specs.Lengths.{IsListed};
ghost use Rattle.value_index.specs.Rows.{entry_in, key_in, range_in, row_of};

use crate::index::PathIndex;
use crate::key::key_of;
use crate::lengths::Lengths;
use crate::row::{Row, sort};
use json_text::NoMemory;
use numeric_keys::Ranges;
use pattern_meaning::LeafTest;
use std::alloc::{AllocError, Global};
use std::sync::Arc;

impl PathIndex {
    /// The index of these tests, each with its mark, which may be any.
    pub fn of(alloc: Global, tests: Vec<(Arc<LeafTest>, u32)>) -> Result<PathIndex, NoMemory>
        ensures { IfOk result (λ index. IsPermutation (entered tests.items) (entries_of index)) }
    {
        let mut rows = rows_of(alloc, tests)?;
        let lengths = lengths_of(alloc, &rows)?;
        sort(&mut rows);
        let ranges = ranges_of(alloc, &rows)?;
        Ok(PathIndex {
            rows,
            lengths,
            ranges,
        })
    }
}

impl PathIndex {
    /// The tests with their marks, to make another index of them. They are shared, and not copied.
    pub fn tests(&self, alloc: Global) -> Result<Vec<(Arc<LeafTest>, u32)>, NoMemory>
        ensures { IfOk result (λ tests. entered tests.items ≡ entries_of self.now) }
    {
        shared(alloc, &self.rows)
    }
}

fn shared(alloc: Global, rows: &[Row]) -> Result<Vec<(Arc<LeafTest>, u32)>, NoMemory>
    ensures { IfOk result (λ tests. entered tests.items ≡ map entry_in rows.now) }
{
    let mut tests = Vec::new(alloc);
    for row in rows {
        let test = Arc::try_clone(&row.test)?;
        tests.push((test, row.mark))?;
    }
    Ok(tests)
}

fn rows_of(alloc: Global, tests: Vec<(Arc<LeafTest>, u32)>) -> Result<Vec<Row>, AllocError>
    ensures { IfOk result (λ rows. rows.items ≡ map row_of tests.items) }
{
    tests
        .into_iter()
        .map(|(test, mark)| row_of(test, mark))
        .collect(alloc)
}

fn row_of(test: Arc<LeafTest>, mark: u32) -> Row
    ensures { result ≡ row_of (test, mark) }
{
    let signature = key_of(&test).signature;
    Row {
        signature,
        mark,
        test,
    }
}

fn lengths_of(alloc: Global, rows: &[Row]) -> Result<Lengths, NoMemory>
    ensures { IfOk result (λ lengths. All (λ row. IsListed lengths (key_in row).length) rows.now) }
{
    let mut lengths = Lengths::none(alloc);
    for row in rows {
        lengths.add(key_of(&row.test).length)?;
    }
    Ok(lengths)
}

fn ranges_of(alloc: Global, rows: &[Row]) -> Result<Ranges, NoMemory>
    ensures { IfOk result (λ ranges. ranges ≡ filter_map range_in rows.now) }
{
    match Ranges::of(alloc, &ranges_in(alloc, rows)?) {
        Ok(ranges) => Ok(ranges),
        Err(_refused) => Err(NoMemory),
    }
}

fn ranges_in(alloc: Global, rows: &[Row]) -> Result<Vec<(i64, i64, u32)>, AllocError>
    ensures { IfOk result (λ ranges. ranges.items ≡ filter_map range_in rows.now) }
{
    let mut ranges = Vec::new(alloc);
    for row in rows {
        add_range(row, &mut ranges)?;
    }
    Ok(ranges)
}

fn add_range(row: &Row, ranges: &mut Vec<(i64, i64, u32)>) -> Result<(), AllocError>
    ensures { OnOk result (ranges.new.items ≡ ranges.old.items ++ option_to_list (range_in row.now)) }
{
    match row.range() {
        Some(range) => ranges.push(range)?,
        None => {}
    }
    Ok(())
}
