//! The places of a name.
ghost use Rattle.std.specs.Prelude.{◌≡◌, ◌≤◌, ◌+◌, length, drop, take, map, All};
ghost use Rattle.std.specs.Arc.{arc_value};
ghost use Rattle.name_rows.specs.Rows.{AreSorted};
ghost use Rattle.name_rows.specs.Blocks.{AreBlocks, rows_in, starts_by};
ghost use Rattle.name_rows.specs.Place.{IsPlace, IsSmaller, StartsGreater};

use crate::block::Block;
use crate::row::Row;
use std::sync::Arc;

/// The place of a name in a list of rows.
#[derive(Clone, Copy)]
pub enum Place {
    /// The index of the row with this name.
    Here(usize),
    /// No row has this name; a new one belongs at this index.
    Before(usize),
}

/// The place of the name in the rows.
pub(crate) fn place_of<R: Row>(rows: &[Arc<R>], name: &str) -> Place
    requires { AreSorted R.name_of (map arc_value rows.now) }
    ensures { IsPlace R.name_of name.now (map arc_value rows.now) result }
{
    let found = rows.binary_search_by(|row| row.row_name().cmp(name));
    match found {
        Ok(at) => Place::Here(at),
        Err(at) => Place::Before(at),
    }
}

/// The index of the block that has the place of the name; 0 if there is no block.
pub(crate) fn block_of<R: Row>(blocks: &[Arc<Block<R>>], name: &str) -> usize
    requires { AreBlocks R.name_of (map arc_value blocks.now) }
    ensures smaller { All (IsSmaller R.name_of name.now) (rows_in (take result (map arc_value blocks.now))) }
    ensures greater { StartsGreater R.name_of name.now (rows_in (drop (result + 1) (map arc_value blocks.now))) }
    ensures bound { result ≤ length blocks.now }
{
    let count = blocks.partition_point(|block| block.starts_by(name));
    count.saturating_sub(1)
}
