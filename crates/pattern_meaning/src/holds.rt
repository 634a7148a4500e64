//! Whether a pattern holds of a value.
ghost use Rattle.std.specs.Prelude.{◌≡◌, ◌↔◌, ℕ, List, [], ◌∷◌, ◌++◌, length, IsTrue};
ghost use Rattle.json_text.specs.Tree.{Tree, text, object, members_of};
ghost use Rattle.json_text.specs.Compact.{IsValue};
ghost use Rattle.json_text.specs.View.{tree_of};
ghost use Rattle.pattern_meaning.specs.Pattern.{Pattern as View, LacksRoot};
ghost use Rattle.pattern_meaning.specs.View.{IsView};
ghost use Rattle.pattern_meaning.specs.Holds.{PatternHolds};
ghost use Rattle.pattern_meaning.specs.Alternatives.{alternatives, alternative_count, AlternativeHolds};
ghost use Rattle.pattern_meaning.specs.PatternView.{pattern_of};

use crate::absent::gathered;
use crate::frames::{Known, Path, Todo};
use crate::pattern::Pattern;
use crate::quick::quickly_meets;
use json_text::Json;

/// Whether the pattern holds of the event's tree. It takes no memory.
pub fn plain_holds(pattern: &Pattern, event: &Json) -> bool
    requires value { IsValue (tree_of event.now) }
    ensures { IsTrue result ↔ PatternHolds (pattern_of pattern.now) (tree_of event.now) }
{
    match quickly_meets(pattern, event) {
        Some(met) => met,
        None => walk_holds(pattern, event),
    }
}

/// The same by the walk, which decides every pattern.
fn walk_holds(pattern: &Pattern, event: &Json) -> bool
    requires value { IsValue (tree_of event.now) }
    ensures { IsTrue result ↔ PatternHolds (pattern_of pattern.now) (tree_of event.now) }
{
    let branches = Todo::Branches {
        branches: &pattern.branches,
        at: &Path::Root,
        rest: &Todo::End,
    };
    gathered(
        pattern,
        event,
        &Todo::Fields {
            fields: &pattern.fields,
            at: &Path::Root,
            rest: &branches,
        },
        &Known::End,
    )
}

/// A member of the root for which the pattern has no field does not matter.
pub fn unseen_member()
    ensures { (p : View) (key : List ℕ) (front back : List (List ℕ × Tree)) (a b : List ℕ) → LacksRoot key p
        → PatternHolds p (object (members_of (front ++ (key, text a) ∷ back)))
        → PatternHolds p (object (members_of (front ++ (key, text b) ∷ back))) }
{}

/// A pattern holds of an event exactly when, on some view of the event, all parts of one of its alternatives hold, and it has as many
/// alternatives as are counted.
pub fn alternatives_decide()
    ensures holds { (p : View) (event : Tree) → PatternHolds p event ↔ ((v : Tree) × IsView event v × AlternativeHolds p event v) }
    ensures count { (p : View) → length (alternatives p []) ≡ alternative_count p }
{}
