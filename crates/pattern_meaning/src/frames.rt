//! Lists whose cells are stack frames: a function makes a cell and passes a reference to it on, so they take no memory.
use crate::pattern::{Field, LeafTests, Pattern};
use json_text::{Json, Text};

/// What is wanted of a value.
#[derive(Clone, Copy)]
pub(crate) enum Need<'a> {
    Tests(&'a LeafTests),
    Pattern(&'a Pattern),
}

/// Needs, each with the key of the member that has to satisfy it.
#[derive(Drop)]
pub(crate) enum Wanted<'a> {
    End,
    More {
        key: &'a str,
        need: Need<'a>,
        rest: &'a Wanted<'a>,
    },
}

/// A path from its last key.
#[derive(Drop)]
pub(crate) enum Path<'a> {
    Root,
    Key { key: &'a str, up: &'a Path<'a> },
}

/// A path from its first key.
#[derive(Drop)]
pub(crate) enum Route<'a> {
    End,
    Key { key: &'a str, rest: &'a Route<'a> },
}

/// Paths, each without a leaf in any view of the event.
#[derive(Drop)]
pub(crate) enum Known<'a> {
    End,
    More {
        at: &'a Path<'a>,
        rest: &'a Known<'a>,
    },
}

/// Fields and branches that are still to be looked through, with their paths.
#[derive(Drop)]
pub(crate) enum Todo<'a> {
    End,
    Fields {
        fields: &'a [(Text, Field)],
        at: &'a Path<'a>,
        rest: &'a Todo<'a>,
    },
    Branches {
        branches: &'a [Pattern],
        at: &'a Path<'a>,
        rest: &'a Todo<'a>,
    },
}

/// A value of the event that is no list, or `None` for a missing member, and its path; and the paths that are known to be absent.
#[derive(Clone, Copy)]
pub(crate) struct Site<'a> {
    pub known: &'a Known<'a>,
    pub value: Option<&'a Json>,
    pub at: &'a Path<'a>,
}
