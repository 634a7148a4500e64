//! What is known of a text between two of its tokens.
ghost use Rattle.std.specs.Prelude.{◌<◌, ◌+◌, ◌^◌, length};

use super::object::ObjectBuilder;
use super::{Items, Json};

/// The rest of a text, and the number of bytes before it.
#[derive(Clone, Copy)]
pub(crate) struct Place<'a> {
    pub(crate) rest: &'a [u8],
    pub(crate) at: usize,
    ghost fits: { at + length rest.now < 2 ^ 64 },
}

/// A list or an object that waits for a value inside it.
#[derive(Drop)]
pub(crate) enum Kept {
    List(Items),
    Object(KeptObject),
}

/// An object that is not closed.
pub(crate) type Open = Box<ObjectBuilder>;

/// An object, and the index of its member whose value comes next.
#[derive(Drop)]
pub(crate) struct KeptObject {
    pub(crate) object: Open,
    pub(crate) slot: usize,
    ghost within: { slot < length object.value.members.items },
}

/// What comes next.
#[derive(Drop)]
pub(crate) enum Next {
    Value,
    FirstItem,
    AfterItem(Items),
    FirstKey,
    NextKey(Open),
    AfterMember(Open),
    /// Only white space, after the text's own value.
    End(Json),
}
