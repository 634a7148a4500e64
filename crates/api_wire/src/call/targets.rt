//! Calls on the targets of rules.
ghost use Rattle.std.specs.Prelude.{◌≡◌, ℕ, List, Some, IfOk};
ghost use Rattle.std.specs.Option.{option_map, option_copied};
ghost use Rattle.json_text.specs.Tree.{members_of};
ghost use Rattle.json_text.specs.View.{tree_of, trees_of, pairs_of};
ghost use Rattle.router_requests.specs.View.{action_of};
ghost use Rattle.api_wire.specs.Call.{action_in, retry_given, IsTargetWith, AreTargets, IsAction};
ghost use Rattle.api_wire.specs.declared.call.operation.Operation.TheVariants.{PutTargets, RemoveTargets, ListTargetsByRule, ListRuleNamesByTarget};

use api_members::{
    age_given, attempts_given, bus_given, given, members_in, read_dead_letter, read_input,
    read_input_path, read_texts, read_transformer, text_of, values_in,
};
use api_replies::Member;
use json_text::{Json, NoMemory, Text};
use router_requests::Action;
use rule_targets::{AskedRetry, AskedTarget};
use std::alloc::Global;

pub(super) fn put_targets(alloc: Global, members: &[(Text, Json)]) -> Result<Action, NoMemory>
    ensures { (caller : List ℕ) (reading : ℕ) → IfOk result (λ a. IsAction PutTargets caller (members_of (pairs_of members.now)) reading (action_of a)) }
{
    let bus = bus_given(alloc, members, Member::EventBusName)?;
    let rule = Text::from_str(alloc, text_of(members, Member::Rule))?;
    let targets = read_targets(alloc, values_in(members, Member::Targets))?;
    Ok(Action::PutTargets { bus, rule, targets })
}

fn read_targets(alloc: Global, values: &[Json]) -> Result<Vec<AskedTarget>, NoMemory>
    ensures { IfOk result (λ targets. AreTargets (trees_of values.now) targets.items) }
{
    let mut targets = Vec::with_capacity(alloc, values.len())?;
    for value in values {
        let target = read_target(alloc, members_in(value))?;
        targets.push(target)?;
    }
    Ok(targets)
}

fn read_target(alloc: Global, members: &[(Text, Json)]) -> Result<AskedTarget, NoMemory>
    ensures { IfOk result (IsTargetWith (members_of (pairs_of members.now))) }
{
    let id = Text::from_str(alloc, text_of(members, Member::Id))?;
    let arn = Text::from_str(alloc, text_of(members, Member::Arn))?;
    let dead_letter = read_dead_letter(alloc, members)?;
    Ok(AskedTarget {
        id,
        arn,
        input: read_input(alloc, members)?,
        input_path: read_input_path(alloc, members)?,
        transformer: read_transformer(alloc, members)?,
        retry: read_retry(given(members, Member::RetryPolicy)),
        dead_letter,
    })
}

/// The retry policy that is given, with its default for each number that is absent.
fn read_retry(policy: Option<&Json>) -> Option<AskedRetry>
    ensures { result ≡ retry_given (option_map tree_of (option_copied policy.entry)) }
{
    match policy {
        Some(policy) => Some(AskedRetry {
            attempts: attempts_given(members_in(policy)),
            age: age_given(members_in(policy)),
        }),
        None => None,
    }
}

pub(super) fn remove_targets(alloc: Global, members: &[(Text, Json)]) -> Result<Action, NoMemory>
    ensures { IfOk result (λ a. action_in RemoveTargets (members_of (pairs_of members.now)) ≡ Some (action_of a)) }
{
    let bus = bus_given(alloc, members, Member::EventBusName)?;
    let rule = Text::from_str(alloc, text_of(members, Member::Rule))?;
    let ids = read_texts(alloc, values_in(members, Member::Ids))?;
    Ok(Action::RemoveTargets { bus, rule, ids })
}

pub(super) fn list_targets_by_rule(
    alloc: Global,
    members: &[(Text, Json)],
) -> Result<Action, NoMemory>
    ensures { IfOk result (λ a. action_in ListTargetsByRule (members_of (pairs_of members.now)) ≡ Some (action_of a)) }
{
    let bus = bus_given(alloc, members, Member::EventBusName)?;
    let rule = Text::from_str(alloc, text_of(members, Member::Rule))?;
    Ok(Action::ListTargetsByRule { bus, rule })
}

pub(super) fn list_rule_names_by_target(
    alloc: Global,
    members: &[(Text, Json)],
) -> Result<Action, NoMemory>
    ensures { IfOk result (λ a. action_in ListRuleNamesByTarget (members_of (pairs_of members.now)) ≡ Some (action_of a)) }
{
    let arn = Text::from_str(alloc, text_of(members, Member::TargetArn))?;
    let bus = bus_given(alloc, members, Member::EventBusName)?;
    Ok(Action::ListRuleNamesByTarget { arn, bus })
}
