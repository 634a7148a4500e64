//! A part of a pattern by which its rule is found.
use event_flatten::Path;
use pattern_meaning::LeafTest;
use std::sync::Arc;

/// A path, and tests of the leaf there.
#[derive(Drop)]
pub(crate) struct Anchor {
    pub(crate) path: Path,
    pub(crate) tests: Vec<Arc<LeafTest>>,
}
