//! Nodes: room for the values of a tree.
ghost use Rattle.std.specs.Prelude.{◌≡◌, MatchResult};

use crate::subtree::{Fork, Subtree};
use std::alloc::{AllocFailed, Global};
use std::marker::Model;

/// Room for one value of a tree, made before it is needed.
#[derive(Drop)]
pub struct Node<V> {
    pub(crate) leaf: Box<Fork<V>>,
}

impl<V> Model for Node<V> {
    ghost use Rattle.key_tree.specs.Subtree.{IsLeaf};

    ghost Value = { V };

    ghost view = { λ n. n.leaf.value.value };

    ghost invariant = { λ n. IsLeaf n.leaf.value };
}

impl<V: Drop> Node<V> {
    ghost use Rattle.std.specs.Borrow.{Lends, sem};
    ghost use Rattle.key_tree.specs.contracts.node.Node.{the_row};

    /// A node with this value. If there is no memory, the error has the value.
    pub fn new(alloc: Global, value: V) -> Result<Node<V>, AllocFailed<V>>
        ensures { MatchResult result (λ node. node ≡ value) (λ failed. failed.value ≡ value) }
    {
        let leaf = Fork {
            key: 0,
            value,
            height: 1,
            lower: Subtree::Empty,
            upper: Subtree::Empty,
        };
        match Box::new(alloc, leaf) {
            Ok(leaf) => Ok(Node { leaf }),
            Err(failed) => Err(AllocFailed {
                value: value_of(failed.value),
            }),
        }
    }

    /// The value.
    pub fn value(&self) -> &V
        ensures { result.now ≡ self.now }
    {
        &self.leaf.value
    }

    /// The value, for writing.
    pub fn value_mut(&mut self) -> &mut V
        ensures* writes_back { sem 𝓛 (Lends (the_row V.row) V.row self.entry result (λ w. w)) }
        ensures value { result.now ≡ self.old }
    {
        let leaf = &mut self.leaf;
        &mut leaf.value
    }

    /// The value of the node, whose memory is released.
    pub fn into_value(self) -> V
        ensures { result ≡ self }
    {
        value_of(Box::into_inner(self.leaf))
    }
}

fn value_of<V: Drop>(leaf: Fork<V>) -> V
    ensures { result ≡ leaf.value }
{
    let Fork {
        key: _,
        value,
        height: _,
        lower: _,
        upper: _,
    } = leaf;
    value
}
