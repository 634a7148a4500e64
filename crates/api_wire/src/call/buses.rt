//! Calls on buses.
ghost use Rattle.std.specs.Prelude.{◌≡◌, Some, IfOk};
ghost use Rattle.json_text.specs.Tree.{members_of};
ghost use Rattle.json_text.specs.View.{pairs_of};
ghost use Rattle.router_requests.specs.View.{action_of};
ghost use Rattle.api_wire.specs.Call.{action_in};
ghost use Rattle.api_wire.specs.declared.call.operation.Operation.TheVariants.{CreateEventBus, DeleteEventBus, DescribeEventBus, ListEventBuses};

use api_members::{bus_given, read_text, text_of};
use api_replies::Member;
use json_text::{Json, NoMemory, Text};
use router_requests::Action;
use std::alloc::Global;

pub(super) fn create_event_bus(alloc: Global, members: &[(Text, Json)]) -> Result<Action, NoMemory>
    ensures { IfOk result (λ a. action_in CreateEventBus (members_of (pairs_of members.now)) ≡ Some (action_of a)) }
{
    let name = Text::from_str(alloc, text_of(members, Member::Name))?;
    Ok(Action::CreateEventBus { name })
}

pub(super) fn delete_event_bus(alloc: Global, members: &[(Text, Json)]) -> Result<Action, NoMemory>
    ensures { IfOk result (λ a. action_in DeleteEventBus (members_of (pairs_of members.now)) ≡ Some (action_of a)) }
{
    let name = Text::from_str(alloc, text_of(members, Member::Name))?;
    Ok(Action::DeleteEventBus { name })
}

pub(super) fn describe_event_bus(
    alloc: Global,
    members: &[(Text, Json)],
) -> Result<Action, NoMemory>
    ensures { IfOk result (λ a. action_in DescribeEventBus (members_of (pairs_of members.now)) ≡ Some (action_of a)) }
{
    let name = bus_given(alloc, members, Member::Name)?;
    Ok(Action::DescribeEventBus { name })
}

pub(super) fn list_event_buses(alloc: Global, members: &[(Text, Json)]) -> Result<Action, NoMemory>
    ensures { IfOk result (λ a. action_in ListEventBuses (members_of (pairs_of members.now)) ≡ Some (action_of a)) }
{
    let prefix = read_text(alloc, members, Member::NamePrefix)?;
    Ok(Action::ListEventBuses { prefix })
}
