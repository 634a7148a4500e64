//! Lists of blocks: the row of a name, one row more, and one row less.
ghost use Rattle.std.specs.Prelude.{◌≡◌, ◌↔◌, ◌≤◌, ◌<◌, ◌+◌, ◌++◌, ◌∷◌, [], List, None, Some, length, take, drop, map, All, IfOk, OnOk, IsTrue, MatchOption, slice_index_or};
ghost use Rattle.std.specs.Arc.{arc_value};
ghost use Rattle.name_rows.specs.Rows.{AreSorted, named, from_name, placed, replacing, without};
ghost use Rattle.name_rows.specs.Place.{StartsGreater};
ghost use Rattle.name_rows.specs.Blocks.{AreBlocks, Cuts, IsFull, rows_in};

use crate::block::{Block, push_shared};
use crate::iter::RowsFrom;
use crate::place::{Place, block_of, place_of};
use crate::row::Row;
use json_text::NoMemory;
use std::alloc::Global;
use std::sync::Arc;

/// The greatest number of rows of a block.
const MOST_ROWS: usize = 32;

/// The number of rows of the first part of a block that is cut.
const HALF: usize = 16;

/// Neighbours with at most this many rows are joined.
const FEW_ROWS: usize = 16;

/// The row with this name.
pub(crate) fn find_in<'a, R: Row>(blocks: &'a [Arc<Block<R>>], name: &str) -> Option<&'a R>
    requires { AreBlocks R.name_of (map arc_value blocks.now) }
    ensures { MatchOption result
        (named R.name_of name.now (rows_in (map arc_value blocks.now)) ≡ None)
        (λ row. named R.name_of name.now (rows_in (map arc_value blocks.now)) ≡ Some row.now) }
{
    let rows = rows_at(blocks, block_of(blocks, name));
    match place_of(rows, name) {
        Place::Here(at) => Some(row_at(rows, at)),
        Place::Before(_) => None,
    }
}

/// The rows from this name on.
pub(crate) fn from_in<'a, R: Row>(blocks: &'a [Arc<Block<R>>], name: &str) -> RowsFrom<'a, R>
    requires { AreBlocks R.name_of (map arc_value blocks.now) }
    ensures { result ≡ from_name R.name_of name.now (rows_in (map arc_value blocks.now)) }
{
    let at = block_of(blocks, name);
    RowsFrom {
        rows: since(rows_at(blocks, at), name),
        blocks: blocks_after(blocks, at),
    }
}

/// The rows of one block from this name on; after them come rows with greater names.
fn since<'a, R: Row>(rows: &'a [Arc<R>], name: &str) -> &'a [Arc<R>]
    requires { AreSorted R.name_of (map arc_value rows.now) }
    ensures { (rest : List R) → StartsGreater R.name_of name.now rest
        → from_name R.name_of name.now (map arc_value rows.now ++ rest) ≡ map arc_value result.now ++ rest }
{
    match place_of(rows, name) {
        Place::Here(at) => &rows[at..],
        Place::Before(at) => &rows[at..],
    }
}

/// The blocks after this index.
fn blocks_after<R>(blocks: &[Arc<Block<R>>], at: usize) -> &[Arc<Block<R>>]
    ensures { map arc_value result.now ≡ drop (at + 1) (map arc_value blocks.now) }
{
    &blocks[after(blocks, at)..]
}

/// Whether the blocks have at least this many rows.
pub(crate) fn reach<R>(blocks: &[Arc<Block<R>>], count: usize) -> bool
    ensures { IsTrue result ↔ (count ≤ length (rows_in (map arc_value blocks.now))) }
{
    let mut left = count;
    for block in blocks {
        let rows = block.rows().len();
        if left <= rows {
            return true;
        }
        left -= rows;
    }
    left == 0
}

/// The blocks with this row in its place.
pub(crate) fn with_in<R: Row + Drop>(
    alloc: Global,
    blocks: &[Arc<Block<R>>],
    row: R,
) -> Result<Vec<Arc<Block<R>>>, NoMemory>
    requires { AreBlocks R.name_of (map arc_value blocks.now) }
    ensures rows { IfOk result (λ new. rows_in (map arc_value new.items) ≡ placed R.name_of replacing row (rows_in (map arc_value blocks.now))) }
    ensures blocks { IfOk result (λ new. AreBlocks R.name_of (map arc_value new.items)) }
{
    let at = block_of(blocks, row.row_name());
    let rows = with_row(alloc, rows_at(blocks, at), row)?;
    let new = spliced(alloc, blocks, at, after(blocks, at), rows)?;
    Ok(new)
}

/// The blocks without the row of this name.
pub(crate) fn without_in<R: Row + Drop>(
    alloc: Global,
    blocks: &[Arc<Block<R>>],
    name: &str,
) -> Result<Vec<Arc<Block<R>>>, NoMemory>
    requires { AreBlocks R.name_of (map arc_value blocks.now) }
    ensures rows { IfOk result (λ new. rows_in (map arc_value new.items) ≡ without R.name_of name.now (rows_in (map arc_value blocks.now))) }
    ensures blocks { IfOk result (λ new. AreBlocks R.name_of (map arc_value new.items)) }
{
    let at = block_of(blocks, name);
    let (front, back) = around(rows_at(blocks, at), name);
    let next = after(blocks, at);
    let left = front.len().saturating_add(back.len());
    let from = first_joined(blocks, at, left);
    let to = last_joined(blocks, next, left);
    let mut rows = Vec::new(alloc);
    push_rows(&mut rows, &blocks[from..at])?;
    push_shared(&mut rows, front)?;
    push_shared(&mut rows, back)?;
    push_rows(&mut rows, &blocks[next..to])?;
    let new = spliced(alloc, blocks, from, to, rows)?;
    Ok(new)
}

/// The rows of the block at this index; none if there is no such block.
fn rows_at<'a, R>(blocks: &'a [Arc<Block<R>>], at: usize) -> &'a [Arc<R>]
    ensures { map arc_value result.now ≡ slice_index_or (map arc_value blocks.now) at [] }
{
    match blocks.get(at) {
        Some(block) => block.rows(),
        None => &[],
    }
}

fn row_at<T>(rows: &[Arc<T>], at: usize) -> &T
    requires { at < length rows.now }
    ensures { result.now ≡ slice_index_or (map arc_value rows.now) at result.now }
{
    &rows[at]
}

/// The index after this one, but at most the number of blocks.
fn after<R>(blocks: &[Arc<Block<R>>], at: usize) -> usize
    ensures same { drop result (map arc_value blocks.now) ≡ drop (at + 1) (map arc_value blocks.now) }
    ensures bound { result ≤ length blocks.now }
{
    at.saturating_add(1).min(blocks.len())
}

/// The index of the first block to be joined with the one at this index, of which this number of rows is left.
fn first_joined<R>(blocks: &[Arc<Block<R>>], at: usize, left: usize) -> usize
    requires { at ≤ length blocks.now }
    ensures { result ≤ at }
{
    if at > 0 && rows_at(blocks, at - 1).len().saturating_add(left) <= FEW_ROWS {
        at - 1
    } else {
        at
    }
}

/// The index after the last block to be joined with the one before the next, of which this number of rows is left.
fn last_joined<R>(blocks: &[Arc<Block<R>>], next: usize, left: usize) -> usize
    requires { next ≤ length blocks.now }
    ensures from { next ≤ result }
    ensures to { result ≤ length blocks.now }
{
    if next < blocks.len() && rows_at(blocks, next).len().saturating_add(left) <= FEW_ROWS {
        next + 1
    } else {
        next
    }
}

/// The rows with smaller names, and those with greater ones.
fn around<'a, R: Row>(rows: &'a [Arc<R>], name: &str) -> (&'a [Arc<R>], &'a [Arc<R>])
    requires { AreSorted R.name_of (map arc_value rows.now) }
    ensures with { (row : R) → R.name_of row ≡ name.now
        → placed R.name_of replacing row (map arc_value rows.now) ≡ map arc_value result.0.now ++ row ∷ map arc_value result.1.now }
    ensures without { without R.name_of name.now (map arc_value rows.now) ≡ map arc_value result.0.now ++ map arc_value result.1.now }
{
    match place_of(rows, name) {
        Place::Here(at) => (&rows[..at], &rows[at + 1..]),
        Place::Before(at) => (&rows[..at], &rows[at..]),
    }
}

/// The rows of one block, with this row in its place.
fn with_row<R: Row + Drop>(alloc: Global, rows: &[Arc<R>], row: R) -> Result<Vec<Arc<R>>, NoMemory>
    requires { AreSorted R.name_of (map arc_value rows.now) }
    ensures { IfOk result (λ new. map arc_value new.items ≡ placed R.name_of replacing row (map arc_value rows.now)) }
{
    let (front, back) = around(rows, row.row_name());
    let mut new = Vec::new(alloc);
    push_shared(&mut new, front)?;
    new.push(Arc::new(alloc, row)?)?;
    push_shared(&mut new, back)?;
    Ok(new)
}

/// Appends pointers to the rows of these blocks.
fn push_rows<R: Drop>(rows: &mut Vec<Arc<R>>, blocks: &[Arc<Block<R>>]) -> Result<(), NoMemory>
    ensures { OnOk result (map arc_value rows.new.items ≡ map arc_value rows.old.items ++ rows_in (map arc_value blocks.now)) }
{
    for block in blocks {
        push_shared(rows, block.rows())?;
    }
    Ok(())
}

/// The blocks with these rows in place of the blocks from one index up to another.
fn spliced<R: Row + Drop>(
    alloc: Global,
    blocks: &[Arc<Block<R>>],
    from: usize,
    to: usize,
    rows: Vec<Arc<R>>,
) -> Result<Vec<Arc<Block<R>>>, NoMemory>
    requires from { from ≤ length blocks.now }
    requires to { to ≤ length blocks.now }
    requires full { All IsFull (map arc_value blocks.now) }
    ensures rows { IfOk result (λ new. rows_in (map arc_value new.items)
        ≡ rows_in (take from (map arc_value blocks.now)) ++ (map arc_value rows.items ++ rows_in (drop to (map arc_value blocks.now)))) }
    ensures full { IfOk result (λ new. All IsFull (map arc_value new.items)) }
{
    let mut new = Vec::new(alloc);
    push_shared(&mut new, &blocks[..from])?;
    push_cut(alloc, &mut new, rows)?;
    push_shared(&mut new, &blocks[to..])?;
    Ok(new)
}

/// Appends the rows: as one block, or as two if they are too many for one; nothing if there is no row.
fn push_cut<R: Drop>(
    alloc: Global,
    blocks: &mut Vec<Arc<Block<R>>>,
    mut rows: Vec<Arc<R>>,
) -> Result<(), NoMemory>
    ensures { OnOk result (Cuts (map arc_value rows.items) (map arc_value blocks.old.items) (map arc_value blocks.new.items)) }
{
    if rows.len() > MOST_ROWS {
        let back = rows.split_off(HALF)?;
        push_block(alloc, blocks, rows)?;
        push_block(alloc, blocks, back)?;
    } else if !rows.is_empty() {
        push_block(alloc, blocks, rows)?;
    }
    Ok(())
}

fn push_block<R: Drop>(
    alloc: Global,
    blocks: &mut Vec<Arc<Block<R>>>,
    rows: Vec<Arc<R>>,
) -> Result<(), NoMemory>
    ensures { OnOk result (map arc_value blocks.new.items ≡ map arc_value blocks.old.items ++ map arc_value rows.items ∷ []) }
{
    Ok(blocks.push(Arc::new(alloc, Block { rows })?)?)
}
