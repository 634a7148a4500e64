//! Which request a message asks for.
ghost use Rattle.std.specs.Prelude.{◌≡◌, IfOk, IfErr, MatchResult};
ghost use Rattle.json_text.specs.Moment.{IsMoment};
ghost use Rattle.json_text.specs.Tree.{members_of};
ghost use Rattle.json_text.specs.View.{pairs_of};
ghost use Rattle.router_requests.specs.Request.{Request as RequestView, IsEntitled};
ghost use Rattle.router_requests.specs.Bounds.{IsBounded};
ghost use Rattle.router_requests.specs.View.{request_of, action_of};
ghost use Rattle.api_members.specs.Refusal.{AreSound};
ghost use Rattle.api_wire.specs.Call.{asked, IsAction, IsAsked, caller_of};
ghost use Rattle.api_wire.specs.CallAnswers.{IsFault};

mod archives;
mod body;
mod buses;
mod events;
mod operation;
mod pattern;
mod permissions;
mod queues;
mod replays;
mod rules;
mod targets;

use api_members::CallFault;
use api_messages::Message;
use api_replies::{Cause, Member};
use archives::{create_archive, delete_archive, describe_archive, list_archives, update_archive};
use body::read_body;
use buses::{create_event_bus, delete_event_bus, describe_event_bus, list_event_buses};
use event_shape::{OWNER, is_account};
use events::{put_events, test_event_pattern};
use json_text::{Json, NoMemory, Text};
use operation::{Operation, check_asked, operation_of};
use permissions::{put_permission, remove_permission};
use queues::{
    create_queue, delete_messages, delete_queue, deliver_due, duty_counts, peek_messages,
};
use replays::{cancel_replay, describe_replay, list_replays, start_replay, step_replays};
use router_requests::{Action, Request};
use rules::{delete_rule, describe_rule, disable_rule, enable_rule, list_rules, put_rule};
use std::alloc::Global;
use targets::{list_rule_names_by_target, list_targets_by_rule, put_targets, remove_targets};

/// The request that the message asks for, or its first refusal. `reading` is the reading of the clock when the message was
/// whole, as a moment.
pub fn read_call(alloc: Global, message: &Message, reading: u64) -> Result<Request, CallFault>
    requires { IsMoment reading }
    ensures asked { IfOk result (λ q. IsAsked message.now reading (request_of q)) }
    ensures only { (q : RequestView) → IsAsked message.now reading q
        → MatchResult result (λ p. request_of p ≡ q) (λ e. e ≡ CallFault.NoMemory) }
    ensures refused { IfErr result (IsFault message.now) }
    ensures entitled { IfOk result (λ q. IsEntitled (request_of q)) }
    ensures bounded { IfOk result (λ q. IsBounded (action_of q.action)) }
{
    let Some(operation) = operation_of(&message.target) else {
        return Err(CallFault::Refused(Cause::UnknownOperation));
    };
    let caller = caller_of(&message.caller);
    if !is_account(caller) {
        return Err(CallFault::Refused(Cause::NotValid(Member::CallerAccount)));
    }
    let members = read_body(alloc, message.body.as_slice())?;
    if !operation.may_call(caller) {
        return Err(CallFault::Refused(Cause::OwnerOnly));
    }
    check_asked(alloc, operation, members.as_slice())?;
    let action = read_action(alloc, operation, caller, members.as_slice(), reading)?;
    let caller = Text::from_str(alloc, caller)?;
    Ok(Request {
        action,
        caller,
        reading,
    })
}

/// The account that asks: that of the field `x-caller-account`, or the owner.
fn caller_of(field: &Option<Text>) -> &str
    ensures { result.now ≡ caller_of field.now }
{
    match field {
        Some(account) => account.as_str(),
        None => OWNER,
    }
}

fn read_action(
    alloc: Global,
    operation: Operation,
    caller: &str,
    members: &[(Text, Json)],
    reading: u64,
) -> Result<Action, NoMemory>
    requires reading { IsMoment reading }
    requires sound { AreSound (asked operation (members_of (pairs_of members.now))) (members_of (pairs_of members.now)) }
    ensures { IfOk result (λ a. IsAction operation caller.now (members_of (pairs_of members.now)) reading (action_of a)) }
{
    match operation {
        Operation::CreateEventBus => create_event_bus(alloc, members),
        Operation::DeleteEventBus => delete_event_bus(alloc, members),
        Operation::DescribeEventBus => describe_event_bus(alloc, members),
        Operation::ListEventBuses => list_event_buses(alloc, members),
        Operation::PutRule => put_rule(alloc, members),
        Operation::DeleteRule => delete_rule(alloc, members),
        Operation::EnableRule => enable_rule(alloc, members),
        Operation::DisableRule => disable_rule(alloc, members),
        Operation::DescribeRule => describe_rule(alloc, members),
        Operation::ListRules => list_rules(alloc, members),
        Operation::PutTargets => put_targets(alloc, members),
        Operation::RemoveTargets => remove_targets(alloc, members),
        Operation::ListTargetsByRule => list_targets_by_rule(alloc, members),
        Operation::ListRuleNamesByTarget => list_rule_names_by_target(alloc, members),
        Operation::PutPermission => put_permission(alloc, members),
        Operation::RemovePermission => remove_permission(alloc, members),
        Operation::PutEvents => put_events(alloc, members, caller, reading),
        Operation::TestEventPattern => test_event_pattern(alloc, members),
        Operation::CreateArchive => create_archive(alloc, members),
        Operation::UpdateArchive => update_archive(alloc, members),
        Operation::DeleteArchive => delete_archive(alloc, members),
        Operation::DescribeArchive => describe_archive(alloc, members),
        Operation::ListArchives => list_archives(alloc, members),
        Operation::StartReplay => start_replay(alloc, members),
        Operation::CancelReplay => cancel_replay(alloc, members),
        Operation::DescribeReplay => describe_replay(alloc, members),
        Operation::ListReplays => list_replays(alloc, members),
        Operation::CreateQueue => create_queue(alloc, members),
        Operation::DeleteQueue => delete_queue(alloc, members),
        Operation::PeekMessages => peek_messages(alloc, members),
        Operation::DeleteMessages => delete_messages(alloc, members),
        Operation::DeliverDue => Ok(deliver_due(members)),
        Operation::StepReplays => Ok(step_replays(members)),
        Operation::DutyCounts => Ok(duty_counts()),
    }
}
