//! Leaves in the order of the text.
ghost use Rattle.std.specs.Prelude.{◌≡◌, ℕ, List, [], ◌∷◌, ◌++◌, ◌==◌, IsTrue, OnOk, filter, map};
ghost use Rattle.std.specs.List.Sorted.{IsNonDecreasingBy};
ghost use Rattle.json_text.specs.View.{tree_of};
ghost use Rattle.event_flatten.specs.Leaves.{is_scalar, numbered};
ghost use Rattle.event_flatten.specs.LeafView.{leaf_of, IsInOrder};

use crate::leaf::Leaf;
use json_text::{Json, NoMemory};
use std::alloc::Global;
use std::marker::Model;

/// The leaves that were found so far, in the order of the text.
#[derive(Drop)]
pub(crate) struct Found<'e> {
    leaves: Vec<Leaf<'e>>,
}

impl<'e> Model for Found<'e> {
    ghost use Rattle.std.specs.Prelude.{ℕ, List, map};
    ghost use Rattle.std.specs.Coded.{coded_list, coded×, coded_ℕ};
    ghost use Rattle.json_text.specs.Code.{tree_code};
    ghost use Rattle.json_text.specs.Tree.{Tree};
    ghost use Rattle.event_flatten.specs.LeafView.{leaf_of, IsInOrder};

    ghost Value = { List (ℕ × Tree) };

    ghost coded = { coded_list (coded× coded_ℕ tree_code) };

    ghost view = { λ found. map leaf_of found.leaves.items };

    ghost invariant = { λ found. IsInOrder found.leaves.items };
}

impl<'e> Found<'e> {
    /// No leaves, without memory.
    pub(crate) fn new(alloc: Global) -> Found<'e>
        ensures { result ≡ [] }
    {
        Found {
            leaves: Vec::new(alloc),
        }
    }

    /// Adds a scalar at the end, which is a leaf at the path with this number.
    pub(crate) fn push(&mut self, number: usize, value: &'e Json) -> Result<(), NoMemory>
        requires { IsTrue (is_scalar (tree_of value.now)) }
        ensures { OnOk result (self.new ≡ self.old ++ (number, tree_of value.now) ∷ []) }
    {
        let order = self.leaves.len();
        self.leaves.push(Leaf {
            number,
            value,
            order,
        })?;
        Ok(())
    }

    /// The leaves path after path, and those of one path in the order of the text.
    pub(crate) fn by_path(self) -> Vec<Leaf<'e>>
        ensures sorted { IsNonDecreasingBy (λ leaf. leaf.number) result.items }
        ensures same { (n : ℕ) → numbered n (map leaf_of result.items) ≡ numbered n self.entry }
    {
        let mut leaves = self.leaves;
        sort(&mut leaves);
        leaves
    }
}

/// Sorts leaves by their paths' numbers, and the leaves of one path by their order.
fn sort(leaves: &mut Vec<Leaf<'_>>)
    requires { IsInOrder leaves.old.items }
    ensures sorted { IsNonDecreasingBy (λ leaf. leaf.number) leaves.new.items }
    ensures same { (n : ℕ) → filter (λ leaf. leaf.number == n) leaves.new.items ≡ filter (λ leaf. leaf.number == n) leaves.old.items }
{
    leaves.sort_unstable_by_key(|leaf| (leaf.number, leaf.order));
}
