//! Changes of the configuration.
use crate::policy::StoredPolicy;
use api_replies::{Kind, Member};
use json_text::{NoMemory, Text};
use pattern_read::SharedPattern;
use rule_targets::Target;
use std::alloc::{AllocError, AllocFailed};
use thiserror::Error;

/// A change of the configuration.
#[derive(Debug, Drop)]
pub enum Control {
    /// Creates a bus, without a rule.
    BusCreated {
        name: Text,
    },
    /// Deletes a bus, which has no rule.
    BusDeleted {
        name: Text,
    },
    /// Creates a rule on a bus, or replaces its pattern and state.
    RulePut {
        bus: Text,
        name: Text,
        pattern: SharedPattern,
        enabled: bool,
    },
    /// Deletes a rule, which has no target.
    RuleDeleted {
        bus: Text,
        name: Text,
    },
    /// Enables a rule, or disables it.
    StatePut {
        bus: Text,
        name: Text,
        enabled: bool,
    },
    /// Adds targets to a rule, or replaces those with the same ids.
    TargetsPut {
        bus: Text,
        rule: Text,
        targets: Vec<Target>,
    },
    /// Removes the targets of these ids from a rule.
    TargetsRemoved {
        bus: Text,
        rule: Text,
        ids: Vec<Text>,
    },
    /// Gives the bus this policy, or takes its policy away.
    PolicyPut {
        bus: Text,
        policy: Option<StoredPolicy>,
    },
    /// Creates a queue.
    QueueCreated {
        name: Text,
    },
    /// Deletes a queue, which no target names.
    QueueDeleted {
        name: Text,
    },
    /// Creates an archive of a bus. Without a pattern it keeps each event of the bus. With 0 days it keeps events forever.
    ArchiveCreated {
        name: Text,
        bus: Text,
        pattern: Option<SharedPattern>,
        days: u32,
    },
    /// Gives the archive this pattern and these days, both as they are after the change.
    ArchiveUpdated {
        name: Text,
        pattern: Option<SharedPattern>,
        days: u32,
    },
    /// Deletes an archive with its events.
    ArchiveDeleted {
        name: Text,
    },
}

/// Why a target is not put to a rule, in the order of the checks.
#[derive(Debug, Drop)]
pub enum TargetFault {
    /// The member is outside its syntax or its limits.
    Member(Member),
    /// It has more than one of Input, InputPath and InputTransformer.
    TwoInputs,
    /// The queue of its ARN, which has this name, does not exist.
    NoQueue(Text),
    /// Its dead-letter queue, which has this name, does not exist.
    NoDeadLetterQueue(Text),
    /// The rule would have more than five targets.
    Sixth,
}

/// Why a change was not made.
#[derive(Debug, Drop, Error)]
pub enum ControlFault {
    #[error("a thing that the change names does not exist")]
    ResourceNotFound(Kind),
    #[error("what the change creates exists already")]
    AlreadyExists(Kind),
    #[error("the limit of such things is reached")]
    LimitExceeded(Kind),
    #[error("what the change deletes is in use")]
    InUse(Kind),
    #[error("the rule that the change deletes has targets")]
    HasTargets,
    #[error("the bus `default` is never deleted")]
    DefaultBus,
    #[error("a member is not valid")]
    Validation(Member),
    #[error("the policy has more than 10,240 bytes")]
    PolicyTooLong,
    #[error("out of memory")]
    NoMemory,
}

impl From<NoMemory> for ControlFault {
    ghost use Rattle.std.specs.Prelude.{◌≡◌};
    ghost use Rattle.rule_table.specs.declared.control.ControlFault.TheVariants.{NoMemory as no_memory};

    ghost from_gives = { λ _ e. e ≡ no_memory };

    fn from(_refused: NoMemory) -> ControlFault {
        ControlFault::NoMemory
    }
}

impl From<AllocError> for ControlFault {
    ghost use Rattle.std.specs.Prelude.{◌≡◌};
    ghost use Rattle.rule_table.specs.declared.control.ControlFault.TheVariants.{NoMemory as no_memory};

    ghost from_gives = { λ _ e. e ≡ no_memory };

    fn from(_refused: AllocError) -> ControlFault {
        ControlFault::NoMemory
    }
}

impl<T: Drop> From<AllocFailed<T>> for ControlFault {
    ghost use Rattle.std.specs.Prelude.{◌≡◌};
    ghost use Rattle.rule_table.specs.declared.control.ControlFault.TheVariants.{NoMemory as no_memory};

    ghost from_gives = { λ _ e. e ≡ no_memory };

    fn from(_refused: AllocFailed<T>) -> ControlFault {
        ControlFault::NoMemory
    }
}
