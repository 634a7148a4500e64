//! Calls on the policies of buses.
ghost use Rattle.std.specs.Prelude.{◌≡◌, Some, IfOk};
ghost use Rattle.std.specs.Option.{option_map, option_copied};
ghost use Rattle.json_text.specs.Tree.{members_of};
ghost use Rattle.json_text.specs.View.{tree_of, pairs_of};
ghost use Rattle.router_requests.specs.View.{action_of};
ghost use Rattle.api_replies.specs.declared.member.Member.TheVariants.{Policy as PolicyMember};
ghost use Rattle.api_members.specs.Given.{given};
ghost use Rattle.api_members.specs.Refusal.{AreSound};
ghost use Rattle.api_members.specs.Value.{GivesPolicy};
ghost use Rattle.api_wire.specs.Call.{account_in, action_in, asked, IsPermission, IsStoredAs, removes_all};
ghost use Rattle.api_wire.specs.declared.call.operation.Operation.TheVariants.{PutPermission, RemovePermission};

use api_members::{bus_given, given, read_text, text_of};
use api_replies::Member;
use bus_policy::{Policy, PolicyFault};
use json_text::{Json, NoMemory, Text};
use router_requests::Action;
use rule_table::StoredPolicy;
use std::alloc::Global;

/// With a Policy, the bus gets it; without one, the policy of the bus gets one more statement.
pub(super) fn put_permission(alloc: Global, members: &[(Text, Json)]) -> Result<Action, NoMemory>
    requires sound { AreSound (asked PutPermission (members_of (pairs_of members.now))) (members_of (pairs_of members.now)) }
    ensures { IfOk result (λ a. IsPermission (given PolicyMember (members_of (pairs_of members.now))) (members_of (pairs_of members.now)) (action_of a)) }
{
    let bus = bus_given(alloc, members, Member::EventBusName)?;
    match given(members, Member::Policy) {
        Some(_) => {
            let policy = stored(alloc, text_of(members, Member::Policy))?;
            Ok(Action::PutPolicy { bus, policy })
        }
        None => {
            let sid = Text::from_str(alloc, text_of(members, Member::StatementId))?;
            let account = account_in(alloc, text_of(members, Member::Principal))?;
            Ok(Action::PutStatement { bus, sid, account })
        }
    }
}

/// The policy of this text, as it is stored.
fn stored(alloc: Global, text: &str) -> Result<StoredPolicy, NoMemory>
    requires { GivesPolicy text.now }
    ensures { IfOk result (λ policy. IsStoredAs text.now policy) }
{
    match Policy::read(alloc, text.as_bytes()) {
        Ok(policy) => StoredPolicy::new(alloc, policy),
        Err(PolicyFault::Bad { .. }) => unreachable!(),
        Err(PolicyFault::NoMemory) => Err(NoMemory),
    }
}

/// The account that the principal names. `None` for everyone.
fn account_in(alloc: Global, principal: &str) -> Result<Option<Text>, NoMemory>
    ensures { IfOk result (λ account. account ≡ account_in principal.now) }
{
    if principal == "*" {
        Ok(None)
    } else {
        Ok(Some(Text::from_str(alloc, principal)?))
    }
}

/// The whole policy of the bus, or one statement of it.
pub(super) fn remove_permission(alloc: Global, members: &[(Text, Json)]) -> Result<Action, NoMemory>
    ensures { IfOk result (λ a. action_in RemovePermission (members_of (pairs_of members.now)) ≡ Some (action_of a)) }
{
    let bus = bus_given(alloc, members, Member::EventBusName)?;
    if removes_all(given(members, Member::RemoveAllPermissions)) {
        return Ok(Action::RemovePolicy { bus });
    }
    let sid = read_text(alloc, members, Member::StatementId)?;
    Ok(Action::RemoveStatement { bus, sid })
}

/// Whether `RemoveAllPermissions` is given as `true`.
fn removes_all(value: Option<&Json>) -> bool
    ensures { result ≡ removes_all (option_map tree_of (option_copied value.entry)) }
{
    match value {
        Some(Json::Truth(all)) => *all,
        _ => false,
    }
}
