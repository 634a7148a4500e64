//! The indexes of a table of anchors.
ghost use Rattle.std.specs.Prelude.{◌≡◌, length, vec_len};

use event_flatten::Paths;
use std::sync::Arc;
use value_index::PathIndex;

/// Paths, and the index of the tests at each.
#[derive(Drop)]
pub(crate) struct Table {
    pub(crate) paths: Paths,
    pub(crate) indexes: Vec<Arc<PathIndex>>,
    ghost same_length: { vec_len indexes ≡ length paths },
}
