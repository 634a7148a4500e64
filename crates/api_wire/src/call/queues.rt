//! This project's own calls: queues, and deliveries.
ghost use Rattle.std.specs.Prelude.{◌≡◌, Some, IfOk};
ghost use Rattle.json_text.specs.Tree.{Members, members_of};
ghost use Rattle.json_text.specs.View.{pairs_of};
ghost use Rattle.router_requests.specs.View.{action_of};
ghost use Rattle.api_members.specs.Refusal.{AreSound};
ghost use Rattle.api_wire.specs.Call.{action_in, asked};
ghost use Rattle.api_wire.specs.declared.call.operation.Operation.TheVariants.{CreateQueue, DeleteQueue, PeekMessages, DeleteMessages, DeliverDue, DutyCounts};

use super::operation::{BUDGET, DEFAULT_BUDGET, LAST_NUMBER};
use api_members::{count_given, count_or, text_of};
use api_replies::Member;
use json_text::{Json, NoMemory, Text};
use router_requests::Action;
use std::alloc::Global;

/// How many messages one call shows at most.
const LIMIT: u32 = 1_000;

/// How many it shows if none is given.
const DEFAULT_LIMIT: u32 = 10;

pub(super) fn create_queue(alloc: Global, members: &[(Text, Json)]) -> Result<Action, NoMemory>
    ensures { IfOk result (λ a. action_in CreateQueue (members_of (pairs_of members.now)) ≡ Some (action_of a)) }
{
    let name = Text::from_str(alloc, text_of(members, Member::QueueName))?;
    Ok(Action::CreateQueue { name })
}

pub(super) fn delete_queue(alloc: Global, members: &[(Text, Json)]) -> Result<Action, NoMemory>
    ensures { IfOk result (λ a. action_in DeleteQueue (members_of (pairs_of members.now)) ≡ Some (action_of a)) }
{
    let name = Text::from_str(alloc, text_of(members, Member::QueueName))?;
    Ok(Action::DeleteQueue { name })
}

pub(super) fn peek_messages(alloc: Global, members: &[(Text, Json)]) -> Result<Action, NoMemory>
    ensures { IfOk result (λ a. action_in PeekMessages (members_of (pairs_of members.now)) ≡ Some (action_of a)) }
{
    let queue = Text::from_str(alloc, text_of(members, Member::QueueName))?;
    let limit = count_or(members, Member::Limit, LIMIT, DEFAULT_LIMIT);
    Ok(Action::PeekMessages { queue, limit })
}

pub(super) fn delete_messages(alloc: Global, members: &[(Text, Json)]) -> Result<Action, NoMemory>
    requires sound { AreSound (asked DeleteMessages (members_of (pairs_of members.now))) (members_of (pairs_of members.now)) }
    ensures { IfOk result (λ a. action_in DeleteMessages (members_of (pairs_of members.now)) ≡ Some (action_of a)) }
{
    let queue = Text::from_str(alloc, text_of(members, Member::QueueName))?;
    match count_given(members, Member::Through, 0, LAST_NUMBER) {
        Some(through) => Ok(Action::DeleteMessages { queue, through }),
        None => unreachable!(),
    }
}

pub(super) fn deliver_due(members: &[(Text, Json)]) -> Action
    ensures { action_in DeliverDue (members_of (pairs_of members.now)) ≡ Some (action_of result) }
{
    Action::DeliverDue {
        budget: count_or(members, Member::Budget, BUDGET, DEFAULT_BUDGET),
    }
}

pub(super) fn duty_counts() -> Action
    ensures { (ms : Members) → action_in DutyCounts ms ≡ Some (action_of result) }
{
    Action::DutyCounts
}
