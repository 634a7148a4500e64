//! An automaton is made of rules, or of another one with a rule more or less.
ghost use Rattle.std.specs.Prelude.{◌≡◌, ◌∷◌, ◌++◌, [], IfOk, filter};
ghost use Rattle.rule_automaton.specs.Rules.{has_other};
ghost use Rattle.rule_automaton.specs.View.{paths_of, rules_of};

use crate::automaton::Automaton;
use crate::entries::{table_of, table_of_anchors};
use crate::rule::Rule;
use crate::rules::{others, rules_with, shared};
use crate::weights::Weights;
use event_flatten::Paths;
use json_text::NoMemory;
use pattern_read::SharedPattern;
use std::alloc::Global;

impl Automaton {
    /// The automaton of these rules, each with its number. Patterns are shared. Two rules with one number have one mark.
    pub fn build(alloc: Global, rules: &[(u32, SharedPattern)]) -> Result<Automaton, NoMemory>
        ensures { IfOk result (λ automaton. rules_of automaton ≡ rules.now) }
    {
        let mut weights = Weights::none(alloc);
        for (_number, pattern) in rules {
            weights.add(pattern.pattern().pattern())?;
        }
        weights.sort();
        let rules = rules_with(alloc, &weights, rules)?;
        let table = table_of(alloc, &rules)?;
        Ok(Automaton {
            rules,
            table,
            weights,
        })
    }

    /// The automaton with one rule more. It shares the indexes of all paths but those of the rule's anchors.
    pub fn with(
        &self,
        alloc: Global,
        number: u32,
        pattern: &SharedPattern,
    ) -> Result<Automaton, NoMemory>
        ensures { IfOk result (λ automaton. rules_of automaton ≡ rules_of self.now ++ (number, pattern.now) ∷ []) }
    {
        let mut weights = self.weights.copy(alloc)?;
        weights.add(pattern.pattern().pattern())?;
        weights.sort();
        let pattern = pattern.share()?;
        let rule = Rule::of(alloc, &weights, number, pattern)?;
        let more = table_of_anchors(alloc, number, &rule.anchors)?;
        let table = self.table.joined(alloc, &more)?;
        let mut rules = shared(alloc, &self.rules)?;
        rules.push(rule)?;
        Ok(Automaton {
            rules,
            table,
            weights,
        })
    }

    /// The automaton without the rules with this number. It shares the indexes of all paths but those of their anchors.
    pub fn without(&self, alloc: Global, number: u32) -> Result<Automaton, NoMemory>
        ensures { IfOk result (λ automaton. rules_of automaton ≡ filter (has_other number) (rules_of self.now)) }
    {
        let mut weights = self.weights.copy(alloc)?;
        for rule in &self.rules {
            if rule.number == number {
                weights.remove(alloc, rule.pattern())?;
            }
        }
        let rules = others(alloc, &self.rules, number)?;
        let table = self.table.without(alloc, number)?;
        Ok(Automaton {
            rules,
            table,
            weights,
        })
    }

    /// The paths at which `matches` needs the leaves of an event.
    pub fn paths(&self) -> &Paths
        ensures { result.now ≡ paths_of self.now }
    {
        &self.table.paths
    }
}
