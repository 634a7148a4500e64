//! Calls on rules.
ghost use Rattle.std.specs.Prelude.{◌≡◌, Some, IfOk};
ghost use Rattle.std.specs.Option.{option_copied};
ghost use Rattle.json_text.specs.Tree.{members_of};
ghost use Rattle.json_text.specs.View.{pairs_of};
ghost use Rattle.router_requests.specs.View.{action_of};
ghost use Rattle.api_members.specs.Refusal.{AreSound};
ghost use Rattle.api_wire.specs.Call.{action_in, asked, is_enabled};
ghost use Rattle.api_wire.specs.declared.call.operation.Operation.TheVariants.{PutRule, DeleteRule, EnableRule, DisableRule, DescribeRule, ListRules};

use super::pattern::read_pattern;
use api_members::{bus_given, read_text, text_given, text_of};
use api_replies::Member;
use json_text::{Json, NoMemory, Text};
use router_requests::Action;
use std::alloc::Global;

pub(super) fn put_rule(alloc: Global, members: &[(Text, Json)]) -> Result<Action, NoMemory>
    requires sound { AreSound (asked PutRule (members_of (pairs_of members.now))) (members_of (pairs_of members.now)) }
    ensures { IfOk result (λ a. action_in PutRule (members_of (pairs_of members.now)) ≡ Some (action_of a)) }
{
    let bus = bus_given(alloc, members, Member::EventBusName)?;
    let name = Text::from_str(alloc, text_of(members, Member::Name))?;
    let pattern = read_pattern(alloc, members)?;
    let enabled = is_enabled(text_given(members, Member::State));
    Ok(Action::PutRule {
        bus,
        name,
        pattern,
        enabled,
    })
}

/// Whether a rule with this state is enabled.
fn is_enabled(state: Option<&str>) -> bool
    ensures { result ≡ is_enabled (option_copied state.entry) }
{
    match state {
        Some(state) => state != "DISABLED",
        None => true,
    }
}

pub(super) fn delete_rule(alloc: Global, members: &[(Text, Json)]) -> Result<Action, NoMemory>
    ensures { IfOk result (λ a. action_in DeleteRule (members_of (pairs_of members.now)) ≡ Some (action_of a)) }
{
    let bus = bus_given(alloc, members, Member::EventBusName)?;
    let name = Text::from_str(alloc, text_of(members, Member::Name))?;
    Ok(Action::DeleteRule { bus, name })
}

pub(super) fn enable_rule(alloc: Global, members: &[(Text, Json)]) -> Result<Action, NoMemory>
    ensures { IfOk result (λ a. action_in EnableRule (members_of (pairs_of members.now)) ≡ Some (action_of a)) }
{
    let bus = bus_given(alloc, members, Member::EventBusName)?;
    let name = Text::from_str(alloc, text_of(members, Member::Name))?;
    Ok(Action::PutRuleState {
        bus,
        name,
        enabled: true,
    })
}

pub(super) fn disable_rule(alloc: Global, members: &[(Text, Json)]) -> Result<Action, NoMemory>
    ensures { IfOk result (λ a. action_in DisableRule (members_of (pairs_of members.now)) ≡ Some (action_of a)) }
{
    let bus = bus_given(alloc, members, Member::EventBusName)?;
    let name = Text::from_str(alloc, text_of(members, Member::Name))?;
    Ok(Action::PutRuleState {
        bus,
        name,
        enabled: false,
    })
}

pub(super) fn describe_rule(alloc: Global, members: &[(Text, Json)]) -> Result<Action, NoMemory>
    ensures { IfOk result (λ a. action_in DescribeRule (members_of (pairs_of members.now)) ≡ Some (action_of a)) }
{
    let bus = bus_given(alloc, members, Member::EventBusName)?;
    let name = Text::from_str(alloc, text_of(members, Member::Name))?;
    Ok(Action::DescribeRule { bus, name })
}

pub(super) fn list_rules(alloc: Global, members: &[(Text, Json)]) -> Result<Action, NoMemory>
    ensures { IfOk result (λ a. action_in ListRules (members_of (pairs_of members.now)) ≡ Some (action_of a)) }
{
    let bus = bus_given(alloc, members, Member::EventBusName)?;
    let prefix = read_text(alloc, members, Member::NamePrefix)?;
    Ok(Action::ListRules { bus, prefix })
}
