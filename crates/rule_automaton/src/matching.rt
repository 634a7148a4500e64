//! Which rules hold of an event.
ghost use Rattle.std.specs.Prelude.{◌≡◌, ◌↔◌, ◌⊎◌, ◌<◌, ℕ, All, Contains, IsTrue, MatchOption, length, map};
ghost use Rattle.json_text.specs.Compact.{IsValue};
ghost use Rattle.json_text.specs.Tree.{Tree};
ghost use Rattle.json_text.specs.View.{tree_of};
ghost use Rattle.event_flatten.specs.Leaves.{leaves_of};
ghost use Rattle.event_flatten.specs.LeafView.{leaf_of};
ghost use Rattle.rule_automaton.specs.Rules.{AreMarked, TextHolds};
ghost use Rattle.rule_automaton.specs.Matching.{AreBelow, AreDecided, AreFound, CanHold, IsDecided};
ghost use Rattle.rule_automaton.specs.View.{paths_of, rules_of};

use crate::automaton::Automaton;
use crate::rule::Rule;
use crate::table::Table;
use event_flatten::{Fields, Leaf};
use json_text::Json;
use numeric_keys::Marks;

impl Automaton {
    /// Marks exactly the rules whose patterns hold of the event, each at the place of its number, and removes all other marks. `fields` are the
    /// event's leaves at `paths`. It takes no memory. Its depth of calls is the number of rules that hold.
    pub fn matches(&self, event: &Json, fields: &Fields<'_>, marks: &mut Marks)
        requires value { IsValue (tree_of event.now) }
        requires fields { fields.now ≡ leaves_of (paths_of self.now) (tree_of event.now) }
        requires marks { All (λ rule. rule.0 < length marks.old) (rules_of self.now) }
        ensures { AreMarked (rules_of self.now) (tree_of event.now) marks.old marks.new }
    {
        marks.clear();
        find(&self.table, fields.leaves(), marks);
        decide(&self.rules, event, marks);
    }
}

/// Marks each rule of which a test is met. Some of them may not hold.
fn find(table: &Table, leaves: &[Leaf<'_>], marks: &mut Marks)
    requires places { (leaf : ℕ × Tree) → Contains (map leaf_of leaves.now) leaf → leaf.0 < length table.now.paths }
    requires marks { AreBelow (length marks.old) table.now }
    ensures { AreFound table.now (map leaf_of leaves.now) marks.old marks.new }
{
    for leaf in leaves {
        table.indexes[leaf.number].hits(leaf.value, marks);
    }
}

/// Leaves the marks of the rules that are marked, or have no anchors, and hold. The marks are removed as a whole, since no call removes one.
fn decide(rules: &[Rule], event: &Json, marks: &mut Marks)
    requires value { IsValue (tree_of event.now) }
    requires marks { All (λ rule. rule.number < length marks.old) rules.now }
    ensures { AreDecided rules.now (tree_of event.now) marks.old marks.new }
{
    match first_held(rules, event, marks) {
        Some((rule, rest)) => {
            let number = rule.number;
            decide(rest, event, marks);
            marks.set(number);
        }
        None => marks.clear(),
    }
}

/// The first of the rules that can hold and does, and those after it.
fn first_held<'a>(rules: &'a [Rule], event: &Json, marks: &Marks) -> Option<(&'a Rule, &'a [Rule])>
    requires value { IsValue (tree_of event.now) }
    requires marks { All (λ rule. rule.number < length marks.now) rules.now }
    ensures { MatchOption result
        ((number : ℕ) → ¬ (IsDecided rules.now (tree_of event.now) marks.now number))
        (λ held. (length held.1.now < length rules.now) × All (λ rule. rule.number < length marks.now) held.1.now × (held.0.now.number < length marks.now)
        × ((number : ℕ) → IsDecided rules.now (tree_of event.now) marks.now number
        ↔ ((held.0.now.number ≡ number) ⊎ IsDecided held.1.now (tree_of event.now) marks.now number))) }
{
    let mut left = rules;
    while let [rule, rest @ ..] = left {
        if can_hold(rule, marks) && rule.holds(event) {
            return Some((rule, rest));
        }
        left = rest;
    }
    None
}

fn can_hold(rule: &Rule, marks: &Marks) -> bool
    requires { rule.now.number < length marks.now }
    ensures { IsTrue result ↔ CanHold marks.now rule.now }
{
    !rule.anchored || marks.has(rule.number)
}
