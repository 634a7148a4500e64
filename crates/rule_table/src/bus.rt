//! Buses, with their rules.
ghost use Rattle.std.specs.Prelude.{◌≡◌, ◌||◌, true, false, None, Some, All, not, nat_le, nat_lt, is_some, length, IfOk, MatchOption};
ghost use Rattle.std.specs.Option.{option_copied};
ghost use Rattle.name_rows.specs.Rows.{named, placed, replacing};
ghost use Rattle.rule_table.specs.RuleSet as spec;
ghost use Rattle.rule_table.specs.Sound.{HasItsArn};

use crate::policy::{SharedPolicy, share_policy};
use crate::rule::Rule;
use json_text::{NoMemory, Text};
use name_rows::{Row, Rows, RowsFrom};
use pattern_read::SharedPattern;
use std::alloc::Global;
use std::marker::Model;

/// The greatest number of rules of a bus.
const MOST_RULES: usize = 300;

/// A bus.
#[derive(Debug, Drop)]
pub struct Bus {
    pub(crate) name: Text,
    pub(crate) policy: Option<SharedPolicy>,
    pub(crate) rules: Rows<Rule>,
}

impl Model for Bus {
    ghost use Rattle.rule_table.specs.RuleSet.{Bus as View};

    ghost Value = { View };

    ghost view = { λ b. record { name = b.name; policy = b.policy; rules = b.rules } };
}

impl Row for Bus {
    ghost name_of = { λ bus. bus.name };

    fn row_name(&self) -> &str {
        self.name()
    }
}

impl Bus {
    pub fn name(&self) -> &str
        ensures { result.now ≡ self.now.name }
    {
        self.name.as_str()
    }

    /// The policy, if the bus has one.
    pub fn policy(&self) -> Option<&SharedPolicy>
        ensures { option_copied result ≡ self.now.policy }
    {
        self.policy.as_ref()
    }

    /// The rules in the byte order of their names.
    pub fn rules(&self) -> RowsFrom<'_, Rule>
        ensures { result ≡ self.now.rules }
    {
        self.rules.iter()
    }

    /// The rule with this name.
    pub(crate) fn rule(&self, name: &str) -> Option<&Rule>
        ensures found { MatchOption result
            (named (λ r. r.name) name.now self.now.rules ≡ None)
            (λ rule. named (λ r. r.name) name.now self.now.rules ≡ Some rule.now) }
    {
        self.rules.find(name)
    }

    /// The bus with the rule created or replaced. `None` if the rule is new and the bus has 300 rules.
    pub(crate) fn with_rule(
        &self,
        alloc: Global,
        name: &Text,
        pattern: &SharedPattern,
        enabled: bool,
    ) -> Result<Option<Bus>, NoMemory>
        requires arns { All (HasItsArn self.now.name) self.now.rules }
        ensures { IfOk result (λ found. MatchOption found
            ((is_some (named (λ r. r.name) name.now self.now.rules) || nat_lt (length self.now.rules) 300) ≡ false)
            (λ bus. ((is_some (named (λ r. r.name) name.now self.now.rules) || nat_lt (length self.now.rules) 300) ≡ true)
            × (bus ≡ record self.now { rules = spec.put_rule (spec.new_rule self.now.name name.now pattern.now enabled) self.now.rules }))) }
    {
        match self.rules.find(name.as_str()) {
            Some(old) => {
                let rule = old.with_pattern(alloc, pattern.share()?, enabled)?;
                Ok(Some(self.with(alloc, rule)?))
            }
            None => {
                if self.rules.reach(MOST_RULES) {
                    return Ok(None);
                }
                let rule = Rule::new(alloc, self.name(), name, pattern.share()?, enabled)?;
                Ok(Some(self.with(alloc, rule)?))
            }
        }
    }

    /// Whether the bus has a rule.
    pub(crate) fn has_rules(&self) -> bool
        ensures { result ≡ not (nat_le (length self.now.rules) 0) }
    {
        self.rules.reach(1)
    }

    /// Whether a target of a rule names the queue, as its own or as its dead-letter queue.
    pub(crate) fn uses_queue(&self, queue: &str) -> bool
        ensures { result ≡ spec.is_used_by_bus queue.now self.now }
    {
        let mut rules = self.rules();
        while let Some(rule) = rules.next() {
            if rule.uses_queue(queue) {
                return true;
            }
        }
        false
    }

    /// The bus without the rule of this name.
    pub(crate) fn without(&self, alloc: Global, name: &str) -> Result<Bus, NoMemory>
        ensures { IfOk result (λ bus. bus ≡ record self.now { rules = spec.without_rule name.now self.now.rules }) }
    {
        Ok(Bus {
            name: self.name.copy(alloc)?,
            policy: share_policy(&self.policy)?,
            rules: self.rules.without(alloc, name)?,
        })
    }

    /// The bus with this policy, or without one.
    pub(crate) fn with_policy(
        &self,
        alloc: Global,
        policy: Option<SharedPolicy>,
    ) -> Result<Bus, NoMemory>
        ensures { IfOk result (λ bus. bus ≡ record self.now { policy = policy }) }
    {
        Ok(Bus {
            name: self.name.copy(alloc)?,
            policy,
            rules: self.rules.share()?,
        })
    }

    /// The bus with this rule in place of the one of its name, if any.
    pub(crate) fn with(&self, alloc: Global, rule: Rule) -> Result<Bus, NoMemory>
        ensures { IfOk result (λ bus. bus ≡ record self.now { rules = placed (λ r. r.name) replacing rule self.now.rules }) }
    {
        Ok(Bus {
            name: self.name.copy(alloc)?,
            policy: share_policy(&self.policy)?,
            rules: self.rules.with(alloc, rule)?,
        })
    }
}
