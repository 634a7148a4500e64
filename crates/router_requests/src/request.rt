//! Requests.
use crate::batch::StartedReplay;
use event_shape::{EntryFault, Unnumbered};
use json_text::{Json, Text};
use pattern_read::SharedPattern;
use rule_table::StoredPolicy;
use rule_targets::AskedTarget;

/// What a request asks for. Each bus is given by its name.
#[derive(Drop)]
pub enum Action {
    /// Create a bus, without a rule and without a policy.
    CreateEventBus {
        name: Text,
    },
    /// Delete a bus that has no rule.
    DeleteEventBus {
        name: Text,
    },
    /// Show a bus.
    DescribeEventBus {
        name: Text,
    },
    /// Show the buses whose names begin with the prefix, or all buses.
    ListEventBuses {
        prefix: Option<Text>,
    },
    /// Create or replace a rule of the bus, with its pattern and its state.
    PutRule {
        bus: Text,
        name: Text,
        pattern: SharedPattern,
        enabled: bool,
    },
    /// Delete a rule that has no target. A rule that does not exist is no fault.
    DeleteRule {
        bus: Text,
        name: Text,
    },
    /// Enable a rule, or disable it.
    PutRuleState {
        bus: Text,
        name: Text,
        enabled: bool,
    },
    /// Show a rule.
    DescribeRule {
        bus: Text,
        name: Text,
    },
    /// Show the rules of the bus whose names begin with the prefix, or all its rules.
    ListRules {
        bus: Text,
        prefix: Option<Text>,
    },
    /// Add targets to a rule of the bus, or replace them.
    PutTargets {
        bus: Text,
        rule: Text,
        targets: Vec<AskedTarget>,
    },
    /// Remove the targets of these ids from a rule of the bus.
    RemoveTargets {
        bus: Text,
        rule: Text,
        ids: Vec<Text>,
    },
    /// Show the targets of a rule.
    ListTargetsByRule {
        bus: Text,
        rule: Text,
    },
    /// Show the names of the bus's rules that have a target with this ARN.
    ListRuleNamesByTarget {
        arn: Text,
        bus: Text,
    },
    /// Give the bus this policy, which may have more bytes than a policy may.
    PutPolicy {
        bus: Text,
        policy: StoredPolicy,
    },
    /// Add a statement to the bus's policy that lets this account put events on the bus, or everyone if there is none.
    PutStatement {
        bus: Text,
        sid: Text,
        account: Option<Text>,
    },
    /// Take the bus's policy away.
    RemovePolicy {
        bus: Text,
    },
    /// Remove the statement of this StatementId from the bus's policy. Without one the request is refused.
    RemoveStatement {
        bus: Text,
        sid: Option<Text>,
    },
    /// Publish events. Each entry was checked when it was read: it is an event without its number, or has a fault. `size` is the
    /// number of bytes of all entries together, faulty ones included.
    PutEvents {
        entries: Vec<Result<Unnumbered, EntryFault>>,
        size: u64,
    },
    /// Test a pattern on an event, a value that has the members of an event. Nothing is kept.
    TestEventPattern {
        pattern: SharedPattern,
        event: Json,
    },
    /// Create an archive, which keeps the events of the bus that have the pattern, or all of them, for these days. 0 is forever.
    CreateArchive {
        name: Text,
        bus: Text,
        pattern: Option<SharedPattern>,
        days: u32,
    },
    /// Change an archive's pattern, its days, or both.
    UpdateArchive {
        name: Text,
        pattern: Option<SharedPattern>,
        days: Option<u32>,
    },
    /// Delete an archive with the events that it keeps.
    DeleteArchive {
        name: Text,
    },
    /// Show an archive.
    DescribeArchive {
        name: Text,
    },
    /// Show the archives whose names begin with the prefix, whose bus has this ARN, and which are in this state, as far as given.
    ListArchives {
        prefix: Option<Text>,
        source: Option<Text>,
        state: Option<Text>,
    },
    /// Start a replay, which repeats events of an archive on the bus of this name.
    StartReplay {
        start: StartedReplay,
        bus: Text,
    },
    /// Cancel a replay that is running.
    CancelReplay {
        name: Text,
    },
    /// Show a replay.
    DescribeReplay {
        name: Text,
    },
    /// Show the replays whose names begin with the prefix, whose archive has this ARN, and which are in this state, as far as given.
    ListReplays {
        prefix: Option<Text>,
        source: Option<Text>,
        state: Option<Text>,
    },
    /// Create a queue.
    CreateQueue {
        name: Text,
    },
    /// Delete a queue. It has no message, and no target and no pending duty names it.
    DeleteQueue {
        name: Text,
    },
    /// Show the oldest messages of a queue, at most `limit`.
    PeekMessages {
        queue: Text,
        limit: u32,
    },
    /// Delete the messages of a queue with numbers up to this one.
    DeleteMessages {
        queue: Text,
        through: u64,
    },
    /// Make at most `budget` steps of delivery.
    DeliverDue {
        budget: u32,
    },
    /// Make at most `budget` steps of replays.
    StepReplays {
        budget: u32,
    },
    /// Show the number of duties made so far, and the number in each state.
    DutyCounts,
}

/// A request.
#[derive(Drop)]
pub struct Request {
    pub action: Action,
    /// The account that asks, of 12 digits.
    pub caller: Text,
    /// The clock's reading when the request had been read whole, in seconds since 1970-01-01T00:00:00Z.
    pub reading: u64,
}
