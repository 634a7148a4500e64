//! What matching and delivery need of a target.
ghost use Rattle.std.specs.Prelude.{◌≡◌, IfOk};
ghost use Rattle.std.specs.Arc.{arc_value};
ghost use Rattle.std.specs.Option.{option_map};

use json_text::{NoMemory, Text};
use std::alloc::Global;
use std::marker::Model;
use std::sync::Arc;

/// What matching and delivery need of a target: the ARN and the name of its rule, its id in the rule, its endpoint, and how a
/// delivery is retried. An endpoint is the ARN of a queue or the URL of an HTTP endpoint. The row refers to no rule set, so it stays
/// valid after its rule set is dropped.
#[derive(Debug, Drop)]
pub struct TargetRow {
    pub rule_arn: Text,
    pub rule_name: Text,
    pub target_id: Text,
    pub endpoint: Text,
    /// The ARN of the dead-letter queue, as it was given.
    pub dead_letter: Option<Text>,
    /// The maximum number of retry attempts.
    pub attempts: u16,
    /// The maximum age of an event, in seconds.
    pub age: u32,
}

/// A pointer to a row that several values share, also across threads. The row never changes.
/// It is freed with its last pointer.
#[derive(Debug, Drop)]
pub struct SharedRow {
    row: Arc<TargetRow>,
}

impl Model for SharedRow {
    ghost use Rattle.std.specs.Arc.{arc_value};
    ghost use Rattle.shared_text.specs.declared.row.TargetRow.{TargetRow};

    ghost Value = { TargetRow };

    ghost view = { λ s. arc_value s.row };
}

impl SharedRow {
    /// The first pointer to the row. Its texts are not copied.
    pub fn new(alloc: Global, row: TargetRow) -> Result<SharedRow, NoMemory>
        ensures { IfOk result (λ shared. shared ≡ row) }
    {
        Ok(SharedRow {
            row: Arc::new(alloc, row)?,
        })
    }

    /// Another pointer to the same row. Allocates nothing. An `Err` means that no more pointers can be counted.
    pub fn share(&self) -> Result<SharedRow, NoMemory>
        ensures { IfOk result (λ shared. shared ≡ self.now) }
    {
        Ok(SharedRow {
            row: Arc::try_clone(&self.row)?,
        })
    }

    pub fn rule_arn(&self) -> &str
        ensures { result.now ≡ self.now.rule_arn }
    {
        self.row.rule_arn.as_str()
    }

    pub fn rule_name(&self) -> &str
        ensures { result.now ≡ self.now.rule_name }
    {
        self.row.rule_name.as_str()
    }

    pub fn target_id(&self) -> &str
        ensures { result.now ≡ self.now.target_id }
    {
        self.row.target_id.as_str()
    }

    pub fn endpoint(&self) -> &str
        ensures { result.now ≡ self.now.endpoint }
    {
        self.row.endpoint.as_str()
    }

    /// The ARN of the dead-letter queue, if one is named.
    pub fn dead_letter(&self) -> Option<&str>
        ensures { option_map (λ arn. arn.now) result ≡ self.now.dead_letter }
    {
        match &self.row.dead_letter {
            Some(arn) => Some(arn.as_str()),
            None => None,
        }
    }

    /// The maximum number of retry attempts.
    pub fn attempts(&self) -> u16
        ensures { result ≡ self.now.attempts }
    {
        self.row.attempts
    }

    /// The maximum age of an event, in seconds.
    pub fn age(&self) -> u32
        ensures { result ≡ self.now.age }
    {
        self.row.age
    }
}
