//! What a call asks of its members.
use api_replies::Member;

/// What the value of a member has to be.
#[derive(Clone, Copy, Debug)]
pub enum Syntax {
    /// The name of a queue.
    QueueName,
    /// The name of a rule.
    RuleName,
    /// The name of an event bus.
    BusName,
    /// The name of an event bus, or its ARN.
    Bus,
    /// The ARN of an event bus.
    BusArn,
    /// The name of an archive.
    ArchiveName,
    /// The ARN of an archive.
    ArchiveArn,
    /// The name of a replay.
    ReplayName,
    /// Any text.
    AnyText,
    /// The ARN of a queue, or an endpoint.
    TargetArn,
    /// The text of an event pattern.
    Pattern,
    /// The text of an event.
    Event,
    /// The state of a rule: `ENABLED` or `DISABLED`.
    State,
    /// The state of an archive, one of six.
    ArchiveState,
    /// The state of a replay, one of six.
    ReplayState,
    /// A time, as that of an entry.
    Time,
    /// The destination of a replay: an object with the ARN of a bus, and perhaps with ARNs of rules of that bus.
    Destination,
    /// A whole number from `least` to `most`, both included.
    Count { least: u64, most: u64 },
    /// 1 to 10 entries of a PutEvents.
    Entries,
    /// 1 to 100 targets of a PutTargets.
    Targets,
    /// 1 to 100 ids of targets.
    Ids,
    /// The text of a policy.
    Policy,
    /// The Sid of a statement: 1 to 64 of `A-Z a-z 0-9 - _`.
    StatementId,
    /// `events:PutEvents`, the only action that a statement lets others do.
    PutEventsAction,
    /// An account of 12 digits, or `*`.
    Principal,
    /// `true` or `false`.
    Truth,
    /// No value is served.
    Unserved,
}

/// A member that a call reads.
#[derive(Clone, Copy, Debug)]
pub enum Asked {
    Required(Member, Syntax),
    Optional(Member, Syntax),
}
