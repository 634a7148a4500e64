//! Rules are made of patterns, and shared.
ghost use Rattle.std.specs.Prelude.{◌≡◌, ◌↔◌, ◌==◌, IfOk, IsTrue, filter, map, not};
ghost use Rattle.std.specs.Arc.{arc_value};
ghost use Rattle.json_text.specs.Compact.{IsValue};
ghost use Rattle.json_text.specs.View.{tree_of};
ghost use Rattle.rule_automaton.specs.AnchorView.{parts_of};
ghost use Rattle.rule_automaton.specs.Anchors.{AreAnchorsOf};
ghost use Rattle.rule_automaton.specs.RuleView.{rule_in};
ghost use Rattle.rule_automaton.specs.Rules.{TextHolds};
ghost use Rattle.rule_automaton.specs.Table.{AreSame};

use crate::anchor::Anchor;
use crate::choosing::anchors_of;
use crate::rule::Rule;
use crate::weights::Weights;
use json_text::{Json, NoMemory};
use pattern_meaning::{Pattern, plain_holds};
use pattern_read::SharedPattern;
use std::alloc::Global;
use std::sync::Arc;

impl Rule {
    pub(crate) fn of(
        alloc: Global,
        weights: &Weights,
        number: u32,
        pattern: SharedPattern,
    ) -> Result<Rule, NoMemory>
        ensures { IfOk result (λ rule. rule_in rule ≡ (number, pattern)) }
    {
        let read = pattern.pattern();
        let meaning = read.pattern();
        let chosen = anchors_of(alloc, weights, meaning)?;
        match chosen {
            Some(anchors) => Rule::anchored(alloc, number, pattern, anchors),
            None => Rule::not_anchored(alloc, number, pattern),
        }
    }

    fn anchored(
        alloc: Global,
        number: u32,
        pattern: SharedPattern,
        anchors: Vec<Anchor>,
    ) -> Result<Rule, NoMemory>
        requires { AreAnchorsOf pattern (parts_of anchors.items) }
        ensures { IfOk result (λ rule. rule_in rule ≡ (number, pattern)) }
    {
        let anchors = Arc::new(alloc, anchors)?;
        Ok(Rule {
            number,
            pattern,
            anchored: true,
            anchors,
        })
    }

    fn not_anchored(alloc: Global, number: u32, pattern: SharedPattern) -> Result<Rule, NoMemory>
        ensures { IfOk result (λ rule. rule_in rule ≡ (number, pattern)) }
    {
        let anchors = Arc::new(alloc, Vec::new(alloc))?;
        Ok(Rule {
            number,
            pattern,
            anchored: false,
            anchors,
        })
    }

    /// The same rule. Its pattern and its anchors are shared.
    pub(crate) fn share(&self) -> Result<Rule, NoMemory>
        ensures rule { IfOk result (λ rule. rule_in rule ≡ rule_in self.now) }
        ensures anchors { IfOk result (λ rule. (rule.anchored ≡ self.now.anchored) × (arc_value rule.anchors ≡ arc_value self.now.anchors)) }
    {
        let pattern = self.pattern.share()?;
        let anchors = Arc::try_clone(&self.anchors)?;
        Ok(Rule {
            number: self.number,
            pattern,
            anchored: self.anchored,
            anchors,
        })
    }

    pub(crate) fn pattern(&self) -> &Pattern {
        self.pattern.pattern().pattern()
    }

    /// Whether the rule's pattern holds of the event. It takes no memory.
    pub(crate) fn holds(&self, event: &Json) -> bool
        requires { IsValue (tree_of event.now) }
        ensures { IsTrue result ↔ TextHolds self.now.pattern (tree_of event.now) }
    {
        plain_holds(self.pattern.pattern().pattern(), event)
    }
}

/// The rules with these patterns, each with its anchors.
pub(crate) fn rules_with(
    alloc: Global,
    weights: &Weights,
    patterns: &[(u32, SharedPattern)],
) -> Result<Vec<Rule>, NoMemory>
    ensures { IfOk result (λ rules. map rule_in rules.items ≡ patterns.now) }
{
    let mut rules = Vec::with_capacity(alloc, patterns.len())?;
    for (number, pattern) in patterns {
        let pattern = pattern.share()?;
        let rule = Rule::of(alloc, weights, *number, pattern)?;
        rules.push(rule)?;
    }
    Ok(rules)
}

/// The same rules, with room for one more.
pub(crate) fn shared(alloc: Global, rules: &[Rule]) -> Result<Vec<Rule>, NoMemory>
    ensures { IfOk result (λ copies. AreSame rules.now copies.items) }
{
    let mut copies = Vec::new(alloc);
    for rule in rules {
        let copy = rule.share()?;
        copies.push(copy)?;
    }
    Ok(copies)
}

/// The rules with other numbers.
pub(crate) fn others(alloc: Global, rules: &[Rule], number: u32) -> Result<Vec<Rule>, NoMemory>
    ensures { IfOk result (λ copies. AreSame (filter (λ rule. not (rule.number == number)) rules.now) copies.items) }
{
    let mut copies = Vec::new(alloc);
    for rule in rules {
        if rule.number != number {
            let copy = rule.share()?;
            copies.push(copy)?;
        }
    }
    Ok(copies)
}
