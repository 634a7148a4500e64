//! Reading rows in their order.
ghost use Rattle.std.specs.Iterator.{YieldsFirstRef, item_count};

use crate::block::Block;
use std::marker::Model;
use std::sync::Arc;

/// The rows from a name on, in the byte order of their names. Contracts see the rows that are left.
#[derive(Drop)]
pub struct RowsFrom<'a, R> {
    pub(crate) rows: &'a [Arc<R>],
    pub(crate) blocks: &'a [Arc<Block<R>>],
}

impl<'a, R> Model for RowsFrom<'a, R> {
    ghost use Rattle.std.specs.Prelude.{List, ◌++◌, map, All};
    ghost use Rattle.std.specs.Arc.{arc_value};
    ghost use Rattle.name_rows.specs.Blocks.{IsFull, rows_in};

    ghost Value = { List R };

    ghost view = { λ r. map arc_value r.rows.now ++ rows_in (map arc_value r.blocks.now) };

    ghost invariant = { λ r. All IsFull (map arc_value r.blocks.now) };
}

impl<'a, R> Iterator for RowsFrom<'a, R> {
    type Item = &'a R;

    ghost next_gives = { YieldsFirstRef (λ s. s) };

    ghost remaining = { item_count (λ s. s) };

    fn next(&mut self) -> Option<&'a R> {
        match self.rows.split_first() {
            Some((row, rows)) => {
                self.rows = rows;
                Some(row)
            }
            None => {
                let (block, blocks) = self.blocks.split_first()?;
                let (row, rows) = block.rows().split_first()?;
                self.rows = rows;
                self.blocks = blocks;
                Some(row)
            }
        }
    }
}
