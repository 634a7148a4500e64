//! Blocks of rows, and the places of a name.
ghost use Rattle.std.specs.Prelude.{◌≡◌, ◌++◌, map, IfOk, OnOk};
ghost use Rattle.std.specs.Arc.{arc_value};
ghost use Rattle.name_rows.specs.Blocks.{starts_by};

use crate::row::Row;
use json_text::NoMemory;
use std::marker::Model;
use std::sync::Arc;

/// Rows that follow one another. A block never changes; new blocks share its rows.
#[derive(Debug, Drop)]
pub(crate) struct Block<R> {
    pub(crate) rows: Vec<Arc<R>>,
}

impl<R> Model for Block<R> {
    ghost use Rattle.std.specs.Prelude.{List, map};
    ghost use Rattle.std.specs.Arc.{arc_value};

    ghost Value = { List R };

    ghost view = { λ b. map arc_value b.rows.items };
}

impl<R> Block<R> {
    pub(crate) fn rows(&self) -> &[Arc<R>]
        ensures { map arc_value result.now ≡ self.now }
    {
        self.rows.as_slice()
    }
}

impl<R: Row> Block<R> {
    /// Whether the name of the first row is at most this name.
    pub(crate) fn starts_by(&self, name: &str) -> bool
        ensures { result ≡ starts_by R.name_of name.now self.now }
    {
        match self.rows.first() {
            Some(row) => row.row_name().cmp(name).is_le(),
            None => true,
        }
    }
}

/// Appends pointers to these values.
pub(crate) fn push_shared<T: Drop>(
    copies: &mut Vec<Arc<T>>,
    values: &[Arc<T>],
) -> Result<(), NoMemory>
    ensures { OnOk result (map arc_value copies.new.items ≡ map arc_value copies.old.items ++ map arc_value values.now) }
{
    for value in values {
        copies.push(Arc::try_clone(value)?)?;
    }
    Ok(())
}
