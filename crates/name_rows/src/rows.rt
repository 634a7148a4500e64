//! Rows in the byte order of their names.
ghost use Rattle.std.specs.Prelude.{◌≡◌, ◌↔◌, ◌≤◌, ◌++◌, ◌+◌, [], None, Some, length, take, drop, map, IfOk, OnOk, IsTrue, MatchOption, slice_index_or};
ghost use Rattle.std.specs.Arc.{arc_value};
ghost use Rattle.name_rows.specs.Rows as spec;
ghost use Rattle.name_rows.specs.Blocks.{AreBlocks, rows_in};

use crate::block::Block;
use crate::blocks::{find_in, from_in, reach, with_in, without_in};
use crate::iter::RowsFrom;
use crate::row::Row;
use json_text::NoMemory;
use std::alloc::Global;
use std::marker::Model;
use std::sync::Arc;

/// Rows with distinct names, in the byte order of the names. They never change: one row more or less makes new rows, which
/// share the others with the old ones.
#[derive(Debug, Drop)]
pub struct Rows<R: Row> {
    blocks: Arc<Vec<Arc<Block<R>>>>,
}

impl<R: Row> Model for Rows<R> {
    ghost use Rattle.std.specs.Prelude.{List, map};
    ghost use Rattle.std.specs.Arc.{arc_value};
    ghost use Rattle.name_rows.specs.Blocks.{AreBlocks, rows_in};

    ghost Value = { List R };

    ghost view = { λ r. rows_in (map arc_value (arc_value r.blocks).items) };

    ghost invariant = { λ r. AreBlocks R.name_of (map arc_value (arc_value r.blocks).items) };
}

impl<R: Row + Drop> Rows<R> {
    /// No rows.
    pub fn new(alloc: Global) -> Result<Rows<R>, NoMemory>
        ensures { IfOk result (λ rows. rows ≡ []) }
    {
        Ok(Rows {
            blocks: Arc::new(alloc, Vec::new(alloc))?,
        })
    }

    /// The same rows.
    pub fn share(&self) -> Result<Rows<R>, NoMemory>
        ensures { IfOk result (λ rows. rows ≡ self.now) }
    {
        Ok(Rows {
            blocks: Arc::try_clone(&self.blocks)?,
        })
    }

    /// The row with this name.
    pub fn find(&self, name: &str) -> Option<&R>
        ensures found { MatchOption result
            (spec.named R.name_of name.now self.now ≡ None)
            (λ row. spec.named R.name_of name.now self.now ≡ Some row.now) }
        ensures sorted { spec.AreSorted R.name_of self.now }
    {
        find_in(&self.blocks, name)
    }

    /// All rows, in the byte order of their names.
    pub fn iter(&self) -> RowsFrom<'_, R>
        ensures { result ≡ self.now }
    {
        RowsFrom {
            rows: &[],
            blocks: &self.blocks,
        }
    }

    /// The rows from the first one whose name is not smaller than this name.
    pub fn from(&self, name: &str) -> RowsFrom<'_, R>
        ensures { result ≡ spec.from_name R.name_of name.now self.now }
    {
        from_in(&self.blocks, name)
    }

    /// Whether there are at least this many rows.
    pub fn reach(&self, count: usize) -> bool
        ensures { IsTrue result ↔ (count ≤ length self.now) }
    {
        reach(&self.blocks, count)
    }

    /// The rows with this row in its place; it replaces the row with its name. After an error the old rows are as they were.
    pub fn with(&self, alloc: Global, row: R) -> Result<Rows<R>, NoMemory>
        ensures { IfOk result (λ rows. rows ≡ spec.placed R.name_of spec.replacing row self.now) }
    {
        Ok(Rows {
            blocks: Arc::new(alloc, with_in(alloc, &self.blocks, row)?)?,
        })
    }

    /// The rows without the row of this name; the same rows if there is none. After an error the old rows are as they were.
    pub fn without(&self, alloc: Global, name: &str) -> Result<Rows<R>, NoMemory>
        ensures { IfOk result (λ rows. rows ≡ spec.without R.name_of name.now self.now) }
    {
        Ok(Rows {
            blocks: Arc::new(alloc, without_in(alloc, &self.blocks, name)?)?,
        })
    }
}
