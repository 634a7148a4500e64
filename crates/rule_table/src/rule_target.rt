//! The stored targets of rules.
ghost use Rattle.std.specs.Prelude.{◌≡◌, IfOk, OnOk};
ghost use Rattle.std.specs.Option.{option_map};
ghost use Rattle.rule_targets.specs.Input.{IsNoneOrValid};
ghost use Rattle.rule_table.specs.RuleSet.{Rule, is_used_by_target};
ghost use Rattle.rule_table.specs.Target.{stored_of, retry_of, target_of};

use event_shape::is_queue_arn;
use json_text::{NoMemory, Text};
use name_rows::Row;
use rule_targets::{
    RetryPolicy, SharedInput, Target, age_of, attempts_of, copy_optional, share_input,
};
use shared_text::{SharedRow, TargetRow};
use std::alloc::Global;
use std::marker::Model;

/// A target of a stored rule. Rule sets share its row, as do matches and deliveries.
#[derive(Debug, Drop)]
pub struct RuleTarget {
    row: SharedRow,
    /// Whether the target was put with a retry policy.
    has_retry_policy: bool,
    input: Option<SharedInput>,
}

impl Model for RuleTarget {
    ghost use Rattle.rule_table.specs.Target.{StoredTarget};

    ghost Value = { StoredTarget };

    ghost view = { λ t. record { row = t.row; has_retry_policy = t.has_retry_policy; input = t.input } };
}

impl Row for RuleTarget {
    ghost name_of = { λ stored. stored.row.target_id };

    fn row_name(&self) -> &str {
        self.id()
    }
}

impl RuleTarget {
    /// The target, of a rule with this ARN and this name.
    pub(crate) fn new(
        alloc: Global,
        arn: &Text,
        name: &Text,
        target: &Target,
    ) -> Result<RuleTarget, NoMemory>
        ensures stored { (rule : Rule) → rule.arn ≡ arn.now → rule.name ≡ name.now → IfOk result (λ stored. stored ≡ stored_of rule target.now) }
        ensures valid { OnOk result (IsNoneOrValid target.now.input) }
    {
        let row = TargetRow {
            rule_arn: arn.copy(alloc)?,
            rule_name: name.copy(alloc)?,
            target_id: target.id.copy(alloc)?,
            endpoint: target.arn.copy(alloc)?,
            dead_letter: copy_optional(alloc, &target.dead_letter)?,
            attempts: attempts_of(&target.retry),
            age: age_of(&target.retry),
        };
        Ok(RuleTarget {
            row: SharedRow::new(alloc, row)?,
            has_retry_policy: target.retry.is_some(),
            input: share_input(&target.input)?,
        })
    }

    pub fn id(&self) -> &str
        ensures { result.now ≡ self.now.row.target_id }
    {
        self.row.target_id()
    }

    pub fn arn(&self) -> &str
        ensures { result.now ≡ self.now.row.endpoint }
    {
        self.row.endpoint()
    }

    /// The retry policy that the target was put with, if any.
    pub fn retry(&self) -> Option<RetryPolicy>
        ensures { result ≡ retry_of self.now }
    {
        if !self.has_retry_policy {
            return None;
        }
        Some(RetryPolicy {
            attempts: self.row.attempts(),
            age: self.row.age(),
        })
    }

    /// The ARN of the dead-letter queue, if the target has one.
    pub fn dead_letter(&self) -> Option<&str>
        ensures { option_map (λ arn. arn.now) result ≡ self.now.row.dead_letter }
    {
        self.row.dead_letter()
    }

    /// What the target gets in place of the event, if it has an input. Rule sets share it, as do matches.
    pub fn input(&self) -> &Option<SharedInput>
        ensures { result.now ≡ self.now.input }
    {
        &self.input
    }

    /// What matching and delivery need of the target. The row stays valid after the rule set is dropped.
    pub fn row(&self) -> &SharedRow
        ensures { result.now ≡ self.now.row }
    {
        &self.row
    }

    /// Another pointer to the same target. Allocates nothing.
    pub(crate) fn share(&self) -> Result<RuleTarget, NoMemory>
        ensures { IfOk result (λ other. other ≡ self.now) }
    {
        Ok(RuleTarget {
            row: self.row.share()?,
            has_retry_policy: self.has_retry_policy,
            input: share_input(&self.input)?,
        })
    }

    /// The target. Its texts are in memory of its own.
    pub fn copy(&self, alloc: Global) -> Result<Target, NoMemory>
        ensures { IfOk result (λ target. target ≡ target_of self.now) }
    {
        Ok(Target {
            id: Text::from_str(alloc, self.id())?,
            arn: Text::from_str(alloc, self.arn())?,
            input: share_input(&self.input)?,
            retry: self.retry(),
            dead_letter: self.copy_dead_letter(alloc)?,
        })
    }

    fn copy_dead_letter(&self, alloc: Global) -> Result<Option<Text>, NoMemory>
        ensures { IfOk result (λ arn. arn ≡ self.now.row.dead_letter) }
    {
        match self.dead_letter() {
            Some(arn) => Ok(Some(Text::from_str(alloc, arn)?)),
            None => Ok(None),
        }
    }

    /// Whether the target names the queue, as its own or as its dead-letter queue.
    pub(crate) fn uses_queue(&self, queue: &str) -> bool
        ensures { result ≡ is_used_by_target queue.now (target_of self.now) }
    {
        if is_queue_arn(self.arn(), queue) {
            return true;
        }
        match self.dead_letter() {
            Some(arn) => is_queue_arn(arn, queue),
            None => false,
        }
    }
}
