//! A DeliverDue and a StepReplays: their budgets and their replies.
ghost use Rattle.std.specs.Prelude.{◌≡◌, IfOk, MatchOption};
ghost use Rattle.router_requests.specs.Request.{IsOneTurn};
ghost use Rattle.router_requests.specs.View.{action_of};
ghost use Rattle.router_disk.specs.Faults.{CountsFaults};
ghost use Rattle.router_disk.specs.Sink.{AddsBytes};
ghost use Rattle.api_replies.specs.Reply as replies;
ghost use Rattle.api_replies.specs.Written.{reply_text};
ghost use Rattle.message_streams.specs.Reply.{replays_reply, steps_reply, IsAskedBy};

use crate::failed::journal_failed_reply;
use crate::reply::reply_bytes;
use api_replies::{CountsReply, limit_reply, no_memory_reply};
use courier_run::{Stepped, Stop};
use json_text::{Bytes, NoMemory};
use router_disk::{Failed, Sink};
use router_requests::Action;
use std::alloc::Global;
use step_run::{StepFault, StepsFault};

/// The steps that a request asks for, at most so many.
#[derive(Clone, Copy, Debug, PartialEq, Eq)]
pub enum StepsAsked {
    Deliveries(u32),
    Replays(u32),
}

/// The steps that the request asks for. `None` if it is done by one turn.
pub fn steps_asked(action: &Action) -> Option<StepsAsked>
    ensures { MatchOption result (IsOneTurn (action_of action.now)) (IsAskedBy (action_of action.now)) }
{
    match action {
        Action::DeliverDue { budget } => Some(StepsAsked::Deliveries(*budget)),
        Action::StepReplays { budget } => Some(StepsAsked::Replays(*budget)),
        Action::CreateEventBus { .. }
        | Action::DeleteEventBus { .. }
        | Action::DescribeEventBus { .. }
        | Action::ListEventBuses { .. }
        | Action::PutRule { .. }
        | Action::DeleteRule { .. }
        | Action::PutRuleState { .. }
        | Action::DescribeRule { .. }
        | Action::ListRules { .. }
        | Action::PutTargets { .. }
        | Action::RemoveTargets { .. }
        | Action::ListTargetsByRule { .. }
        | Action::ListRuleNamesByTarget { .. }
        | Action::PutPolicy { .. }
        | Action::PutStatement { .. }
        | Action::RemovePolicy { .. }
        | Action::RemoveStatement { .. }
        | Action::PutEvents { .. }
        | Action::TestEventPattern { .. }
        | Action::CreateArchive { .. }
        | Action::UpdateArchive { .. }
        | Action::DeleteArchive { .. }
        | Action::DescribeArchive { .. }
        | Action::ListArchives { .. }
        | Action::StartReplay { .. }
        | Action::CancelReplay { .. }
        | Action::DescribeReplay { .. }
        | Action::ListReplays { .. }
        | Action::CreateQueue { .. }
        | Action::DeleteQueue { .. }
        | Action::PeekMessages { .. }
        | Action::DeleteMessages { .. }
        | Action::DutyCounts => None,
    }
}

/// Room for the reply to steps, and the reply if the number limit is reached.
pub fn steps_room(alloc: Global, close: bool) -> Result<(CountsReply, Bytes), NoMemory>
    ensures { IfOk result (λ p. p.1 ≡ reply_text replies.limit_reply close) }
{
    let room = CountsReply::new(alloc)?;
    let reply = limit_reply(alloc)?;
    let limit = reply_bytes(alloc, &reply, close)?;
    Ok((room, limit))
}

/// Writes the reply to the delivery steps that were made. It takes no memory.
pub fn write_delivery<K: Sink>(
    mut room: CountsReply,
    limit: &[u8],
    made: Stepped,
    close: bool,
    output: &mut K,
) -> Result<(), Failed>
    requires limit { limit.now ≡ reply_text replies.limit_reply close }
    ensures writes { AddsBytes (K.wrote output.old) (K.wrote output.new) result (reply_text (steps_reply made.turned made.stop) close) }
    ensures count { CountsFaults (K.faults output.old) (K.faults output.new) result }
{
    match made.stop {
        Stop::Spent | Stop::Idle => {
            let text = room.fill(
                made.turned.attempts,
                made.turned.delivered,
                made.turned.dead,
                made.turned.dropped,
                close,
            );
            output.write_all(text)
        }
        Stop::Full => output.write_all(limit),
        Stop::Broken => output.write_all(journal_failed_reply(close)),
        Stop::NoMemory => output.write_all(no_memory_reply(close)),
    }
}

/// Writes the reply to the steps of replays that were made. It takes no memory.
pub fn write_replays<K: Sink>(
    mut room: CountsReply,
    limit: &[u8],
    made: Result<u32, StepsFault>,
    close: bool,
    output: &mut K,
) -> Result<(), Failed>
    requires limit { limit.now ≡ reply_text replies.limit_reply close }
    ensures writes { AddsBytes (K.wrote output.old) (K.wrote output.new) result (reply_text (replays_reply made) close) }
    ensures count { CountsFaults (K.faults output.old) (K.faults output.new) result }
{
    match made {
        Ok(steps) => output.write_all(room.fill_steps(steps, close)),
        Err(stopped) => match stopped.fault {
            StepFault::NumberLimit => output.write_all(limit),
            StepFault::Broken => output.write_all(journal_failed_reply(close)),
            StepFault::NoMemory => output.write_all(no_memory_reply(close)),
        },
    }
}
