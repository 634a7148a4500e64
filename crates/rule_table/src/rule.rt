//! Rules.
ghost use Rattle.std.specs.Prelude.{◌≡◌, map, All, IfOk, OnOk};
ghost use Rattle.rule_targets.specs.Input.{IsNoneOrValid};
ghost use Rattle.rule_table.specs.RuleSet.{new_rule, is_used_by_rule};
ghost use Rattle.rule_table.specs.Target.{stored_of, target_of, IsStoredOf};

use crate::rule_target::RuleTarget;
use crate::targets::{any_uses, pointers};
use event_shape::rule_arn;
use json_text::{NoMemory, Text};
use name_rows::Row;
use pattern_read::{PatternText, SharedPattern};
use rule_targets::Target;
use std::alloc::Global;
use std::marker::Model;

/// A rule of a bus.
#[derive(Debug, Drop)]
pub struct Rule {
    pub(crate) arn: Text,
    pub(crate) name: Text,
    pub(crate) pattern: SharedPattern,
    pub(crate) enabled: bool,
    pub(crate) targets: Vec<RuleTarget>,
}

impl Model for Rule {
    ghost use Rattle.std.specs.Prelude.{map, All};
    ghost use Rattle.rule_table.specs.RuleSet.{Rule as View};
    ghost use Rattle.rule_table.specs.Target.{target_of, IsStoredOf};

    ghost Value = { View };

    ghost view = { λ r. record {
      arn = r.arn;
      name = r.name;
      pattern = r.pattern;
      enabled = r.enabled;
      targets = map target_of r.targets.items;
    } };

    ghost invariant = { λ r. All (IsStoredOf (record {
      arn = r.arn;
      name = r.name;
      pattern = r.pattern;
      enabled = r.enabled;
      targets = map target_of r.targets.items;
    })) r.targets.items };
}

impl Row for Rule {
    ghost name_of = { λ rule. rule.name };

    fn row_name(&self) -> &str {
        self.name()
    }
}

impl Rule {
    /// The rule of the bus of this name, without a target.
    pub(crate) fn new(
        alloc: Global,
        bus: &str,
        name: &Text,
        pattern: SharedPattern,
        enabled: bool,
    ) -> Result<Rule, NoMemory>
        ensures { IfOk result (λ rule. rule ≡ new_rule bus.now name.now pattern enabled) }
    {
        Ok(Rule {
            arn: rule_arn(alloc, bus, name.as_str())?,
            name: name.copy(alloc)?,
            pattern,
            enabled,
            targets: Vec::new(alloc),
        })
    }

    pub fn arn(&self) -> &str
        ensures { result.now ≡ self.now.arn }
    {
        self.arn.as_str()
    }

    pub fn name(&self) -> &str
        ensures { result.now ≡ self.now.name }
    {
        self.name.as_str()
    }

    pub fn is_enabled(&self) -> bool
        ensures { result ≡ self.now.enabled }
    {
        self.enabled
    }

    /// The targets in the byte order of their ids. Rule sets share them.
    pub fn targets(&self) -> &[RuleTarget]
        ensures targets { map target_of result.now ≡ self.now.targets }
        ensures rows { result.now ≡ map (stored_of self.now) self.now.targets }
    {
        self.targets.as_slice()
    }

    /// Whether a target of the rule names the queue, as its own or as its dead-letter queue.
    pub(crate) fn uses_queue(&self, queue: &str) -> bool
        ensures { result ≡ is_used_by_rule queue.now self.now }
    {
        any_uses(self.targets(), queue)
    }

    pub fn pattern(&self) -> &PatternText
        ensures { result.now ≡ self.now.pattern }
    {
        self.pattern.pattern()
    }

    /// The pattern, which others may share.
    pub fn shared_pattern(&self) -> &SharedPattern
        ensures { result.now ≡ self.now.pattern }
    {
        &self.pattern
    }

    /// The target, as this rule stores it.
    pub(crate) fn stored(&self, alloc: Global, target: &Target) -> Result<RuleTarget, NoMemory>
        ensures stored { IfOk result (λ stored. stored ≡ stored_of self.now target.now) }
        ensures valid { OnOk result (IsNoneOrValid target.now.input) }
    {
        RuleTarget::new(alloc, &self.arn, &self.name, target)
    }

    /// The rule with this pattern and state. Shares the targets.
    pub(crate) fn with_pattern(
        &self,
        alloc: Global,
        pattern: SharedPattern,
        enabled: bool,
    ) -> Result<Rule, NoMemory>
        ensures { IfOk result (λ rule. rule ≡ record self.now { pattern = pattern; enabled = enabled }) }
    {
        Ok(Rule {
            arn: self.arn.copy(alloc)?,
            name: self.name.copy(alloc)?,
            pattern,
            enabled,
            targets: pointers(alloc, self.targets.as_slice())?,
        })
    }

    /// The rule with these targets in place of its own. Shares the pattern.
    pub(crate) fn with_targets(
        &self,
        alloc: Global,
        targets: Vec<RuleTarget>,
    ) -> Result<Rule, NoMemory>
        requires { All (IsStoredOf self.now) targets.items }
        ensures { IfOk result (λ rule. rule ≡ record self.now { targets = map target_of targets.items }) }
    {
        Ok(Rule {
            arn: self.arn.copy(alloc)?,
            name: self.name.copy(alloc)?,
            pattern: self.pattern.share()?,
            enabled: self.enabled,
            targets,
        })
    }

    /// The rule with this state. Shares the pattern and the targets.
    pub(crate) fn with_state(&self, alloc: Global, enabled: bool) -> Result<Rule, NoMemory>
        ensures { IfOk result (λ rule. rule ≡ record self.now { enabled = enabled }) }
    {
        Ok(Rule {
            arn: self.arn.copy(alloc)?,
            name: self.name.copy(alloc)?,
            pattern: self.pattern.share()?,
            enabled,
            targets: pointers(alloc, self.targets.as_slice())?,
        })
    }
}
