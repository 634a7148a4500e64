//! A rule with its anchors.
ghost use Rattle.std.specs.Prelude.{IsTrue};
ghost use Rattle.std.specs.Arc.{arc_value};
ghost use Rattle.rule_automaton.specs.AnchorView.{parts_of};
ghost use Rattle.rule_automaton.specs.Anchors.{AreAnchorsOf};

use crate::anchor::Anchor;
use pattern_read::SharedPattern;
use std::sync::Arc;

/// A rule's number, its pattern, and the anchors of the pattern. If it has none it is decided for every event.
#[derive(Drop)]
pub(crate) struct Rule {
    pub(crate) number: u32,
    pub(crate) pattern: SharedPattern,
    pub(crate) anchored: bool,
    pub(crate) anchors: Arc<Vec<Anchor>>,
    ghost covered: { ∥ (IsTrue anchored → AreAnchorsOf pattern (parts_of (arc_value anchors).items)) ∥₁ },
}
