//! Calls on replays.
ghost use Rattle.std.specs.Prelude.{◌≡◌, ℕ, List, Some, None, IfOk, IsTrue};
ghost use Rattle.std.specs.Option.{option_map};
ghost use Rattle.json_text.specs.Tree.{members_of};
ghost use Rattle.json_text.specs.View.{pairs_of, tree_of};
ghost use Rattle.router_requests.specs.Request.{start_replay as started};
ghost use Rattle.router_requests.specs.View.{action_of};
ghost use Rattle.api_members.specs.Given.{given};
ghost use Rattle.api_members.specs.Value.{destination_of, filter_given, is_destination, IsTimeGiven};
ghost use Rattle.api_members.specs.Refusal.{AreSound};
ghost use Rattle.api_wire.specs.Call.{action_in, asked, IsAction};
ghost use Rattle.api_wire.specs.declared.call.operation.Operation.TheVariants.{StartReplay, CancelReplay, DescribeReplay, ListReplays, StepReplays};

use super::operation::{BUDGET, DEFAULT_BUDGET};
use api_members::{
    archive_of_source, count_or, destination_of, filter_given, given, read_text, text_of,
    time_given,
};
use api_replies::Member;
use json_text::{Json, NoMemory, Text};
use replay_run::{RuleNames, TimeRange};
use router_requests::{Action, StartedReplay};
use std::alloc::Global;

pub(super) fn start_replay(alloc: Global, members: &[(Text, Json)]) -> Result<Action, NoMemory>
    requires sound { AreSound (asked StartReplay (members_of (pairs_of members.now))) (members_of (pairs_of members.now)) }
    ensures { (caller : List ℕ) (reading : ℕ) → IfOk result (λ a. IsAction StartReplay caller (members_of (pairs_of members.now)) reading (action_of a)) }
{
    match archive_of_source(members, Member::EventSourceArn) {
        Some(archive) => {
            let start = time_of(members, Member::EventStartTime);
            let end = time_of(members, Member::EventEndTime);
            let destination = value_of(members, Member::Destination);
            start_of(
                alloc,
                text_of(members, Member::ReplayName),
                archive,
                TimeRange { start, end },
                destination,
            )
        }
        None => unreachable!(),
    }
}

/// The moment that the member gives.
fn time_of(members: &[(Text, Json)], member: Member) -> u64
    requires { (moment : ℕ) × IsTimeGiven (given member (members_of (pairs_of members.now))) moment }
    ensures { IsTimeGiven (given member (members_of (pairs_of members.now))) result }
{
    match time_given(members, member) {
        Some(moment) => moment,
        None => unreachable!(),
    }
}

/// The value of the member.
fn value_of<'m>(members: &'m [(Text, Json)], member: Member) -> &'m Json
    requires { ¬ (given member (members_of (pairs_of members.now)) ≡ None) }
    ensures { given member (members_of (pairs_of members.now)) ≡ Some (tree_of result.now) }
{
    match given(members, member) {
        Some(value) => value,
        None => unreachable!(),
    }
}

/// The start of a replay of this name, of this archive, with this range and this destination.
fn start_of(
    alloc: Global,
    name: &str,
    archive: &str,
    range: TimeRange,
    destination: &Json,
) -> Result<Action, NoMemory>
    requires { IsTrue (is_destination (tree_of destination.now)) }
    ensures { IfOk result (λ a. (bus : List ℕ) × (destination_of (tree_of destination.now) ≡ Some bus)
        × (action_of a ≡ started (record {
          name = name.now;
          archive = archive.now;
          range = range;
          rules = filter_given bus (tree_of destination.now);
        }) bus)) }
{
    match destination_of(destination) {
        Some(bus) => {
            let rules = rule_names(filter_given(alloc, destination, bus)?);
            let name = Text::from_str(alloc, name)?;
            let archive = Text::from_str(alloc, archive)?;
            let bus = Text::from_str(alloc, bus)?;
            let start = StartedReplay {
                name,
                archive,
                range,
                rules,
            };
            Ok(Action::StartReplay { start, bus })
        }
        None => unreachable!(),
    }
}

/// The filter of these names, if they are given.
fn rule_names(names: Option<Vec<Text>>) -> Option<RuleNames>
    ensures { result ≡ option_map (λ ns. ns.items) names }
{
    match names {
        Some(names) => Some(RuleNames::new(names)),
        None => None,
    }
}

pub(super) fn cancel_replay(alloc: Global, members: &[(Text, Json)]) -> Result<Action, NoMemory>
    ensures { IfOk result (λ a. action_in CancelReplay (members_of (pairs_of members.now)) ≡ Some (action_of a)) }
{
    let name = Text::from_str(alloc, text_of(members, Member::ReplayName))?;
    Ok(Action::CancelReplay { name })
}

pub(super) fn describe_replay(alloc: Global, members: &[(Text, Json)]) -> Result<Action, NoMemory>
    ensures { IfOk result (λ a. action_in DescribeReplay (members_of (pairs_of members.now)) ≡ Some (action_of a)) }
{
    let name = Text::from_str(alloc, text_of(members, Member::ReplayName))?;
    Ok(Action::DescribeReplay { name })
}

pub(super) fn list_replays(alloc: Global, members: &[(Text, Json)]) -> Result<Action, NoMemory>
    ensures { IfOk result (λ a. action_in ListReplays (members_of (pairs_of members.now)) ≡ Some (action_of a)) }
{
    let prefix = read_text(alloc, members, Member::NamePrefix)?;
    let source = read_text(alloc, members, Member::EventSourceArn)?;
    let state = read_text(alloc, members, Member::State)?;
    Ok(Action::ListReplays {
        prefix,
        source,
        state,
    })
}

pub(super) fn step_replays(members: &[(Text, Json)]) -> Action
    ensures { action_in StepReplays (members_of (pairs_of members.now)) ≡ Some (action_of result) }
{
    Action::StepReplays {
        budget: count_or(members, Member::Budget, BUDGET, DEFAULT_BUDGET),
    }
}
