//! Calls on events.
ghost use Rattle.std.specs.Prelude.{ℕ, List, IfOk};
ghost use Rattle.json_text.specs.Moment.{IsMoment};
ghost use Rattle.json_text.specs.Tree.{members_of};
ghost use Rattle.json_text.specs.View.{pairs_of};
ghost use Rattle.router_requests.specs.View.{action_of};
ghost use Rattle.api_members.specs.Refusal.{AreSound};
ghost use Rattle.api_wire.specs.Call.{asked, IsAction};
ghost use Rattle.api_wire.specs.declared.call.operation.Operation.TheVariants.{PutEvents, TestEventPattern};

use super::pattern::read_pattern;
use api_members::{check_entries, read_entries, read_event, text_of, total_size, values_in};
use api_replies::Member;
use json_text::{Json, NoMemory, Text};
use router_requests::Action;
use std::alloc::Global;

pub(super) fn put_events(
    alloc: Global,
    members: &[(Text, Json)],
    caller: &str,
    reading: u64,
) -> Result<Action, NoMemory>
    requires { IsMoment reading }
    ensures { IfOk result (λ a. IsAction PutEvents caller.now (members_of (pairs_of members.now)) reading (action_of a)) }
{
    let given = read_entries(alloc, values_in(members, Member::Entries))?;
    let entries = check_entries(alloc, given.as_slice(), reading, caller)?;
    let size = total_size(given.as_slice());
    Ok(Action::PutEvents { entries, size })
}

pub(super) fn test_event_pattern(
    alloc: Global,
    members: &[(Text, Json)],
) -> Result<Action, NoMemory>
    requires sound { AreSound (asked TestEventPattern (members_of (pairs_of members.now))) (members_of (pairs_of members.now)) }
    ensures { (caller : List ℕ) (reading : ℕ) → IfOk result (λ a. IsAction TestEventPattern caller (members_of (pairs_of members.now)) reading (action_of a)) }
{
    let pattern = read_pattern(alloc, members)?;
    match read_event(alloc, text_of(members, Member::Event))? {
        Some(event) => Ok(Action::TestEventPattern { pattern, event }),
        None => unreachable!(),
    }
}
