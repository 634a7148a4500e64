//! The operations.
ghost use Rattle.std.specs.Prelude.{◌≡◌, ◌↔◌, IsTrue, MatchResult};
ghost use Rattle.std.specs.Option.{option_map, option_copied};
ghost use Rattle.json_text.specs.Tree.{members_of};
ghost use Rattle.json_text.specs.View.{tree_of, pairs_of};
ghost use Rattle.api_members.specs.Refusal.{AreSound, IsFirstRefusal, RefusedFor};
ghost use Rattle.api_wire.specs.Call.{asked, permission_asked, local_operation, replay_operation, archive_operation, named_operation, operation_of, MayCall};

use api_members::{Asked, CallFault, Syntax, check_members, given};
use api_replies::Member;
use event_shape::OWNER;
use json_text::{Json, Text};
use std::alloc::Global;

/// The operations that are built.
#[derive(Clone, Copy, Debug, PartialEq, Eq)]
pub enum Operation {
    CreateEventBus,
    DeleteEventBus,
    DescribeEventBus,
    ListEventBuses,
    PutRule,
    DeleteRule,
    EnableRule,
    DisableRule,
    DescribeRule,
    ListRules,
    PutTargets,
    RemoveTargets,
    ListTargetsByRule,
    ListRuleNamesByTarget,
    PutPermission,
    RemovePermission,
    PutEvents,
    TestEventPattern,
    CreateArchive,
    UpdateArchive,
    DeleteArchive,
    DescribeArchive,
    ListArchives,
    StartReplay,
    CancelReplay,
    DescribeReplay,
    ListReplays,
    CreateQueue,
    DeleteQueue,
    PeekMessages,
    DeleteMessages,
    DeliverDue,
    StepReplays,
    DutyCounts,
}

impl Operation {
    /// Whether the caller may call the operation: only the owner calls any but PutEvents.
    pub(super) fn may_call(self, caller: &str) -> bool
        ensures { IsTrue result ↔ MayCall self caller.now }
    {
        match self {
            Operation::PutEvents => true,
            _ => caller == OWNER,
        }
    }
}

/// The operation of the field `X-Amz-Target`.
pub(super) fn operation_of(target: &Option<Text>) -> Option<Operation>
    ensures { result ≡ operation_of target.now }
{
    match target {
        Some(name) => named_operation(name.as_str()),
        None => None,
    }
}

fn named_operation(name: &str) -> Option<Operation>
    ensures { result ≡ named_operation name.now }
{
    match name {
        "AWSEvents.CreateEventBus" => Some(Operation::CreateEventBus),
        "AWSEvents.DeleteEventBus" => Some(Operation::DeleteEventBus),
        "AWSEvents.DescribeEventBus" => Some(Operation::DescribeEventBus),
        "AWSEvents.ListEventBuses" => Some(Operation::ListEventBuses),
        "AWSEvents.PutRule" => Some(Operation::PutRule),
        "AWSEvents.DeleteRule" => Some(Operation::DeleteRule),
        "AWSEvents.EnableRule" => Some(Operation::EnableRule),
        "AWSEvents.DisableRule" => Some(Operation::DisableRule),
        "AWSEvents.DescribeRule" => Some(Operation::DescribeRule),
        "AWSEvents.ListRules" => Some(Operation::ListRules),
        "AWSEvents.PutTargets" => Some(Operation::PutTargets),
        "AWSEvents.RemoveTargets" => Some(Operation::RemoveTargets),
        "AWSEvents.ListTargetsByRule" => Some(Operation::ListTargetsByRule),
        "AWSEvents.ListRuleNamesByTarget" => Some(Operation::ListRuleNamesByTarget),
        "AWSEvents.PutPermission" => Some(Operation::PutPermission),
        "AWSEvents.RemovePermission" => Some(Operation::RemovePermission),
        "AWSEvents.PutEvents" => Some(Operation::PutEvents),
        "AWSEvents.TestEventPattern" => Some(Operation::TestEventPattern),
        _ => archive_operation(name),
    }
}

/// The operations on archives.
fn archive_operation(name: &str) -> Option<Operation>
    ensures { result ≡ archive_operation name.now }
{
    match name {
        "AWSEvents.CreateArchive" => Some(Operation::CreateArchive),
        "AWSEvents.UpdateArchive" => Some(Operation::UpdateArchive),
        "AWSEvents.DeleteArchive" => Some(Operation::DeleteArchive),
        "AWSEvents.DescribeArchive" => Some(Operation::DescribeArchive),
        "AWSEvents.ListArchives" => Some(Operation::ListArchives),
        _ => replay_operation(name),
    }
}

/// The operations on replays.
fn replay_operation(name: &str) -> Option<Operation>
    ensures { result ≡ replay_operation name.now }
{
    match name {
        "AWSEvents.StartReplay" => Some(Operation::StartReplay),
        "AWSEvents.CancelReplay" => Some(Operation::CancelReplay),
        "AWSEvents.DescribeReplay" => Some(Operation::DescribeReplay),
        "AWSEvents.ListReplays" => Some(Operation::ListReplays),
        _ => local_operation(name),
    }
}

/// The operations that are this project's own.
fn local_operation(name: &str) -> Option<Operation>
    ensures { result ≡ local_operation name.now }
{
    match name {
        "RouterLocal.CreateQueue" => Some(Operation::CreateQueue),
        "RouterLocal.DeleteQueue" => Some(Operation::DeleteQueue),
        "RouterLocal.PeekMessages" => Some(Operation::PeekMessages),
        "RouterLocal.DeleteMessages" => Some(Operation::DeleteMessages),
        "RouterLocal.DeliverDue" => Some(Operation::DeliverDue),
        "RouterLocal.StepReplays" => Some(Operation::StepReplays),
        "RouterLocal.DutyCounts" => Some(Operation::DutyCounts),
        _ => None,
    }
}

/// The greatest number that a message can have.
pub(super) const LAST_NUMBER: u64 = 281_474_976_710_655;

/// The most days for which an archive keeps events.
pub(super) const MOST_DAYS: u64 = 2_147_483_647;

/// How many steps one call makes at most.
pub(super) const BUDGET: u32 = 1_000;

/// How many it makes at most if none is given.
pub(super) const DEFAULT_BUDGET: u32 = 100;

/// A member that names a bus; without it the bus is `default`.
const BUS: Asked = Asked::Optional(Member::EventBusName, Syntax::Bus);

const RULE_NAME: Asked = Asked::Required(Member::Name, Syntax::RuleName);

const BUS_NAME: Asked = Asked::Required(Member::Name, Syntax::BusName);

/// The rule of targets.
const RULE: Asked = Asked::Required(Member::Rule, Syntax::RuleName);

const PREFIX: Asked = Asked::Optional(Member::NamePrefix, Syntax::AnyText);

const QUEUE: Asked = Asked::Required(Member::QueueName, Syntax::QueueName);

const PATTERN: Asked = Asked::Required(Member::EventPattern, Syntax::Pattern);

const ARCHIVE: Asked = Asked::Required(Member::ArchiveName, Syntax::ArchiveName);

/// The pattern of an archive, which may keep all events.
const ARCHIVE_PATTERN: Asked = Asked::Optional(Member::EventPattern, Syntax::Pattern);

const REPLAY: Asked = Asked::Required(Member::ReplayName, Syntax::ReplayName);

/// A Condition is not served.
const CONDITION: Asked = Asked::Optional(Member::Condition, Syntax::Unserved);

/// How many messages are shown, or steps made.
const UP_TO_1000: Syntax = Syntax::Count {
    least: 1,
    most: 1_000,
};

/// The number of a message, or 0, which none has.
const NUMBER: Syntax = Syntax::Count {
    least: 0,
    most: LAST_NUMBER,
};

/// How many days an archive keeps events; 0 is forever.
const DAYS: Asked = Asked::Optional(
    Member::RetentionDays,
    Syntax::Count {
        least: 0,
        most: MOST_DAYS,
    },
);

/// Checks the members against what the operation asks of them, and returns the first refusal.
pub(super) fn check_asked(
    alloc: Global,
    operation: Operation,
    members: &[(Text, Json)],
) -> Result<(), CallFault>
    ensures { MatchResult result
        (λ _. AreSound (asked operation (members_of (pairs_of members.now))) (members_of (pairs_of members.now)))
        (RefusedFor (IsFirstRefusal (asked operation (members_of (pairs_of members.now))) (members_of (pairs_of members.now)))) }
{
    check_members(alloc, asked(operation, members), members)
}

/// What the operation asks of its members, in the order in which they are checked.
fn asked(operation: Operation, members: &[(Text, Json)]) -> &'static [Asked]
    ensures { result.now ≡ asked operation (members_of (pairs_of members.now)) }
{
    match operation {
        Operation::CreateEventBus | Operation::DeleteEventBus => &[BUS_NAME],
        Operation::DescribeEventBus => &[Asked::Optional(Member::Name, Syntax::Bus)],
        Operation::ListEventBuses => &[PREFIX],
        Operation::PutRule => &[
            RULE_NAME,
            PATTERN,
            Asked::Optional(Member::ScheduleExpression, Syntax::Unserved),
            Asked::Optional(Member::State, Syntax::State),
            BUS,
        ],
        Operation::DeleteRule
        | Operation::EnableRule
        | Operation::DisableRule
        | Operation::DescribeRule => &[RULE_NAME, BUS],
        Operation::ListRules => &[PREFIX, BUS],
        Operation::PutTargets => &[RULE, BUS, Asked::Required(Member::Targets, Syntax::Targets)],
        Operation::RemoveTargets => &[RULE, BUS, Asked::Required(Member::Ids, Syntax::Ids)],
        Operation::ListTargetsByRule => &[RULE, BUS],
        Operation::ListRuleNamesByTarget => &[
            Asked::Required(Member::TargetArn, Syntax::TargetArn),
            BUS,
        ],
        Operation::PutPermission => permission_asked(given(members, Member::Policy)),
        Operation::RemovePermission => &[
            BUS,
            Asked::Optional(Member::RemoveAllPermissions, Syntax::Truth),
            Asked::Optional(Member::StatementId, Syntax::StatementId),
        ],
        Operation::PutEvents => &[Asked::Required(Member::Entries, Syntax::Entries)],
        Operation::TestEventPattern => &[PATTERN, Asked::Required(Member::Event, Syntax::Event)],
        Operation::CreateArchive => &[
            ARCHIVE,
            Asked::Required(Member::EventSourceArn, Syntax::BusArn),
            ARCHIVE_PATTERN,
            DAYS,
        ],
        Operation::UpdateArchive => &[ARCHIVE, ARCHIVE_PATTERN, DAYS],
        Operation::DeleteArchive | Operation::DescribeArchive => &[ARCHIVE],
        Operation::ListArchives => &[
            PREFIX,
            Asked::Optional(Member::EventSourceArn, Syntax::AnyText),
            Asked::Optional(Member::State, Syntax::ArchiveState),
        ],
        Operation::StartReplay => &[
            REPLAY,
            Asked::Required(Member::EventSourceArn, Syntax::ArchiveArn),
            Asked::Required(Member::EventStartTime, Syntax::Time),
            Asked::Required(Member::EventEndTime, Syntax::Time),
            Asked::Required(Member::Destination, Syntax::Destination),
        ],
        Operation::CancelReplay | Operation::DescribeReplay => &[REPLAY],
        Operation::ListReplays => &[
            PREFIX,
            Asked::Optional(Member::EventSourceArn, Syntax::AnyText),
            Asked::Optional(Member::State, Syntax::ReplayState),
        ],
        Operation::CreateQueue | Operation::DeleteQueue => &[QUEUE],
        Operation::PeekMessages => &[QUEUE, Asked::Optional(Member::Limit, UP_TO_1000)],
        Operation::DeleteMessages => &[QUEUE, Asked::Required(Member::Through, NUMBER)],
        Operation::DeliverDue | Operation::StepReplays => {
            &[Asked::Optional(Member::Budget, UP_TO_1000)]
        }
        Operation::DutyCounts => &[],
    }
}

/// What a PutPermission asks: with a Policy nothing of a statement.
fn permission_asked(policy: Option<&Json>) -> &'static [Asked]
    ensures { result.now ≡ permission_asked (option_map tree_of (option_copied policy.entry)) }
{
    match policy {
        Some(_) => &[
            BUS,
            Asked::Required(Member::Policy, Syntax::AnyText),
            CONDITION,
            Asked::Required(Member::Policy, Syntax::Policy),
        ],
        None => &[
            BUS,
            Asked::Required(Member::StatementId, Syntax::StatementId),
            Asked::Required(Member::Action, Syntax::PutEventsAction),
            Asked::Required(Member::Principal, Syntax::Principal),
            CONDITION,
        ],
    }
}
