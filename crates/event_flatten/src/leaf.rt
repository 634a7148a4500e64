//! One scalar of an event.
ghost use Rattle.std.specs.Prelude.{IsTrue};
ghost use Rattle.json_text.specs.View.{tree_of};
ghost use Rattle.event_flatten.specs.Leaves.{is_scalar};

use json_text::Json;

/// A scalar of an event, and the number of its path among the wanted paths, counted from 0. It lends the event's value.
#[derive(Clone, Copy)]
pub struct Leaf<'e> {
    pub number: usize,
    pub value: &'e Json,
    /// How many leaves come before it in the order of the text.
    pub(crate) order: usize,
    pub ghost scalar: { IsTrue (is_scalar (tree_of value.now)) },
}
