//! The leaves of an event at the wanted paths.
ghost use Rattle.std.specs.Prelude.{◌≡◌, ◌<◌, ◌==◌, ℕ, List, IfOk, filter, length, map, slice_index_or};
ghost use Rattle.std.specs.List.Sorted.{IsNonDecreasingBy};
ghost use Rattle.json_text.specs.Compact.{IsValue};
ghost use Rattle.json_text.specs.View.{tree_of};
ghost use Rattle.event_flatten.specs.Leaves.{has_number, leaves_at, leaves_of, numbered};
ghost use Rattle.event_flatten.specs.LeafView.{leaf_of};

use crate::found::Found;
use crate::leaf::Leaf;
use crate::paths::Paths;
use crate::walk::walk;
use crate::wanted::Wanted;
use json_text::{Json, NoMemory};
use std::alloc::Global;
use std::marker::Model;

/// The leaves of an event at the wanted paths: path after path, and those of one path in the order of the text. Contracts see
/// each leaf as the number of its path and its value.
#[derive(Drop)]
pub struct Fields<'e> {
    leaves: Vec<Leaf<'e>>,
}

impl<'e> Model for Fields<'e> {
    ghost use Rattle.std.specs.Prelude.{ℕ, List, map};
    ghost use Rattle.std.specs.List.Sorted.{IsNonDecreasingBy};
    ghost use Rattle.std.specs.Coded.{coded_list, coded×, coded_ℕ};
    ghost use Rattle.json_text.specs.Code.{tree_code};
    ghost use Rattle.json_text.specs.Tree.{Tree};
    ghost use Rattle.event_flatten.specs.LeafView.{leaf_of};

    ghost Value = { List (ℕ × Tree) };

    ghost coded = { coded_list (coded× coded_ℕ tree_code) };

    ghost view = { λ fields. map leaf_of fields.leaves.items };

    ghost invariant = { λ fields. IsNonDecreasingBy (λ leaf. leaf.number) fields.leaves.items };
}

impl<'e> Fields<'e> {
    /// Walks the event once. The time is that of the members and list items on the way to the paths, with the logarithm of the number of paths
    /// for each, and of sorting the leaves. The leaves are all the memory that is taken.
    pub fn of(alloc: Global, paths: &Paths, event: &'e Json) -> Result<Fields<'e>, NoMemory>
        requires value { IsValue (tree_of event.now) }
        ensures all { IfOk result (λ fields. fields ≡ leaves_of paths.now (tree_of event.now)) }
        ensures each { IfOk result (λ fields. (number : ℕ) → (d : List (List ℕ)) → number < length paths.now
            → numbered number fields ≡ leaves_at (slice_index_or paths.now number d) (tree_of event.now)) }
    {
        let mut found = Found::new(alloc);
        walk(Wanted::all(paths), event, &mut found)?;
        let leaves = found.by_path();
        Ok(Fields { leaves })
    }

    /// All leaves.
    pub fn leaves(&self) -> &[Leaf<'e>]
        ensures { map leaf_of result.now ≡ self.now }
    {
        &self.leaves
    }

    /// The leaves at the path with this number.
    pub fn at(&self, number: usize) -> &[Leaf<'e>]
        ensures { map leaf_of result.now ≡ filter (has_number number) self.now }
    {
        with_number(&self.leaves, number)
    }
}

/// The leaves with this number.
fn with_number<'a, 'e>(leaves: &'a [Leaf<'e>], number: usize) -> &'a [Leaf<'e>]
    requires { IsNonDecreasingBy (λ leaf. leaf.number) leaves.now }
    ensures { result.now ≡ filter (λ leaf. leaf.number == number) leaves.now }
{
    let from = leaves.partition_point(|leaf| leaf.number < number);
    let rest = &leaves[from..];
    let count = rest.partition_point(|leaf| leaf.number <= number);
    &rest[..count]
}
