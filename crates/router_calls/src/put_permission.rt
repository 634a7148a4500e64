//! PutPermission.
ghost use Rattle.std.specs.Prelude.{◌≡◌, Some, false, IfOk};
ghost use Rattle.std.specs.Option.{option_copied};
ghost use Rattle.event_shape.specs.Names.{IsBusName};
ghost use Rattle.bus_policy.specs.Change.{IsAccountGiven};
ghost use Rattle.bus_policy.specs.Grantee.{account_given};
ghost use Rattle.rule_table.specs.Control.{policy_put};
ghost use Rattle.call_replies.specs.Replies.{empty_reply};
ghost use Rattle.resource_calls.specs.Decision.{controlled};
ghost use Rattle.router_calls.specs.Answer.{statement_put};
ghost use Rattle.resource_calls.specs.Decided.{decided_of, CanBeMade};
ghost use Rattle.router_calls.specs.Permission.{granting, has_statement};
ghost use Rattle.router_calls.specs.Steps.{IsByPolicy};

use crate::on_rule::no_bus;
use crate::policy_change::{change_policy, has_statement, policy_in};
use bus_policy::{Grantee, Policy};
use json_text::{NoMemory, Text};
use resource_calls::{Decided, refused};
use router_core::{Cause, Tables};
use rule_table::StoredPolicy;
use std::alloc::Global;

/// Gives the bus this policy.
pub(crate) fn put_policy(
    alloc: Global,
    tables: &Tables,
    moment: u64,
    bus: &Text,
    policy: &StoredPolicy,
) -> Result<Decided, NoMemory>
    requires bus { IsBusName bus.now }
    ensures answer { IfOk result (λ d. decided_of d ≡ controlled tables.now.set (policy_put bus.now (Some policy.now)) empty_reply) }
    ensures made { IfOk result (λ d. CanBeMade tables.now moment d) }
{
    let policy = policy.share()?;
    change_policy(alloc, tables, moment, bus, Some(policy))
}

/// Adds a statement that lets the account, or everyone, put events on the bus.
pub(crate) fn put_statement(
    alloc: Global,
    tables: &Tables,
    moment: u64,
    bus: &Text,
    sid: &Text,
    account: &Option<Text>,
) -> Result<Decided, NoMemory>
    requires bus { IsBusName bus.now }
    requires account { IsAccountGiven account.now }
    ensures answer { IfOk result (λ d. IsByPolicy tables.now.set bus.now (statement_put tables.now.set bus.now sid.now account.now) (decided_of d)) }
    ensures made { IfOk result (λ d. CanBeMade tables.now moment d) }
{
    let to = grantee(account);
    match tables.set().bus(bus.as_str()) {
        Some(found) => put_to(alloc, tables, moment, bus, sid, to, policy_in(found)),
        None => no_bus(alloc, bus),
    }
}

fn grantee(account: &Option<Text>) -> Grantee<'_>
    ensures { account_given result ≡ account.now }
{
    match account {
        Some(account) => Grantee::Account(account.as_str()),
        None => Grantee::Everyone,
    }
}

/// Adds the statement to the policy that the bus has, if it has one.
fn put_to(
    alloc: Global,
    tables: &Tables,
    moment: u64,
    bus: &Text,
    sid: &Text,
    to: Grantee,
    policy: Option<&Policy>,
) -> Result<Decided, NoMemory>
    requires bus { IsBusName bus.now }
    requires account { IsAccountGiven (account_given to) }
    ensures answer { IfOk result (λ d. decided_of d ≡ statement_put tables.now.set bus.now sid.now (account_given to.entry) (option_copied policy.entry)) }
    ensures made { IfOk result (λ d. CanBeMade tables.now moment d) }
{
    if has_statement(policy, sid.as_str()) {
        let sid = sid.copy(alloc)?;
        return refused(alloc, &Cause::StatementExists { sid });
    }
    let policy = granted(alloc, bus.as_str(), sid.as_str(), to, policy)?;
    let policy = StoredPolicy::new(alloc, policy)?;
    change_policy(alloc, tables, moment, bus, Some(policy))
}

/// The policy with the statement as its last, or a policy of this statement.
fn granted(
    alloc: Global,
    bus: &str,
    sid: &str,
    to: Grantee,
    policy: Option<&Policy>,
) -> Result<Policy, NoMemory>
    requires new_sid { has_statement sid.now (option_copied policy) ≡ false }
    requires account { IsAccountGiven (account_given to) }
    ensures { IfOk result (λ p. p ≡ granting bus.now sid.now (account_given to.entry) (option_copied policy.entry)) }
{
    match policy {
        Some(old) => old.with_statement(alloc, sid, to, bus),
        None => Policy::new(alloc, sid, to, bus),
    }
}
