//! What `Fields` has to do with views.
ghost use Rattle.std.specs.Prelude.{◌≡◌, ◌↔◌, ℕ, List, Some, Contains};
ghost use Rattle.json_text.specs.Tree.{Tree};
ghost use Rattle.json_text.specs.Compact.{IsValue};
ghost use Rattle.pattern_meaning.specs.View.{IsView, leaf_at};
ghost use Rattle.event_flatten.specs.Leaves.{leaves_at};

/// The leaves of an event at a path are exactly those that some view of it has there.
pub fn leaves_of_views()
    ensures { (event leaf : Tree) (path : List (List ℕ)) → IsValue event
        → Contains (leaves_at path event) leaf ↔ ((view : Tree) × IsView event view × (leaf_at path view ≡ Some leaf)) }
{}
