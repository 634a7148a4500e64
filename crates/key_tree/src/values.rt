//! Values by key.
ghost use Rattle.std.specs.Prelude.{◌≡◌, ◌∷◌, [], ◌↔◌, List, ℕ, IsTrue, None, Some, IfNone, MatchOption};
ghost use Rattle.key_tree.specs.Entries as spec;

use crate::node::Node;
use crate::subtree::{Subtree, first_from, first_in, put, take_out, value_in};
use std::marker::Model;

/// Values by key, in the order of the keys. No call allocates. A call, and the drop, goes down at most as many levels as an AVL tree
/// has: 28 with 1,000,000 values.
#[derive(Drop)]
pub struct KeyTree<V> {
    all: Subtree<V>,
    /// The number of insertions so far. It stops at its type's end.
    insertions: u64,
}

impl<V> Model for KeyTree<V> {
    ghost use Rattle.std.specs.Prelude.{ℕ, List};

    ghost Value = { List (ℕ × V) };

    ghost use Rattle.key_tree.specs.Entries.{AreSorted};
    ghost use Rattle.key_tree.specs.Balance.{IsBalanced};
    ghost use Rattle.key_tree.specs.Subtree.{entries};

    ghost view = { λ t. entries t.all };

    ghost invariant = { λ t. AreSorted (entries t.all) × IsBalanced t.insertions t.all };
}

impl<V: Drop> KeyTree<V> {
    /// No values.
    pub fn new() -> KeyTree<V>
        ensures { result ≡ [] }
    {
        KeyTree {
            all: Subtree::Empty,
            insertions: 0,
        }
    }

    pub fn is_empty(&self) -> bool
        ensures { IsTrue result ↔ (self.now ≡ []) }
    {
        match &self.all {
            Subtree::Empty => true,
            Subtree::Full(_) => false,
        }
    }

    /// The value of this key.
    pub fn get(&self, key: u128) -> Option<&V>
        ensures { MatchOption result
            (spec.value_at key self.now ≡ None)
            (λ value. spec.value_at key self.now ≡ Some value.now) }
    {
        value_in(&self.all, key)
    }

    /// The smallest key, with its value.
    pub fn first(&self) -> Option<(u128, &V)>
        ensures found { MatchOption result
            (self.now ≡ [])
            (λ entry. (rest : List (ℕ × V)) × (self.now ≡ (entry.0, entry.1.now) ∷ rest)) }
        ensures sorted { spec.AreSorted self.now }
    {
        match first_in(&self.all) {
            None => None,
            Some(fork) => Some((fork.key, &fork.value)),
        }
    }

    /// The first entry whose key is at least this one: with one more than the last key, the next entry.
    pub fn first_from(&self, key: u128) -> Option<(u128, &V)>
        ensures { MatchOption result
            (spec.from_key key self.now ≡ [])
            (λ entry. (rest : List (ℕ × V)) × (spec.from_key key self.now ≡ (entry.0, entry.1.now) ∷ rest)) }
    {
        match first_from(&self.all, key) {
            None => None,
            Some(fork) => Some((fork.key, &fork.value)),
        }
    }

    /// Adds the value of the node.
    pub fn insert(&mut self, key: u128, node: Node<V>)
        requires new_key { spec.value_at key self.old ≡ None }
        ensures { self.new ≡ spec.placed (key, node) self.old }
    {
        let mut leaf = node.leaf;
        leaf.key = key;
        put(&mut self.all, leaf);
        self.insertions = self.insertions.saturating_add(1);
    }

    /// Removes the value of this key.
    pub fn remove(&mut self, key: u128) -> Option<Node<V>>
        ensures found { MatchOption result
            (spec.value_at key self.old ≡ None)
            (λ node. spec.value_at key self.old ≡ Some node) }
        ensures left { self.new ≡ spec.without key self.old }
        ensures unchanged { IfNone result (self.new ≡ self.old) }
    {
        let leaf = take_out(&mut self.all, key)?;
        Some(Node { leaf })
    }
}
