//! RemovePermission.
ghost use Rattle.std.specs.Prelude.{◌≡◌, None, Some, true, IfOk};
ghost use Rattle.std.specs.Option.{option_copied};
ghost use Rattle.event_shape.specs.Names.{IsBusName};
ghost use Rattle.rule_table.specs.Control.{policy_put};
ghost use Rattle.api_replies.specs.declared.cause.Cause.TheVariants as cause_is;
ghost use Rattle.router_core.specs.Tables.{Tables as TablesView};
ghost use Rattle.call_replies.specs.Replies.{empty_reply};
ghost use Rattle.resource_calls.specs.Decision.{controlled, refusal};
ghost use Rattle.router_calls.specs.Answer.{statement_removed};
ghost use Rattle.resource_calls.specs.Decided.{decided_of, CanBeMade};
ghost use Rattle.router_calls.specs.Permission.{has_statement, revoking};
ghost use Rattle.router_calls.specs.Steps.{IsByPolicy};

use crate::on_rule::no_bus;
use crate::policy_change::{change_policy, has_statement, policy_in};
use bus_policy::{Policy, Removed};
use json_text::{NoMemory, Text};
use resource_calls::{Decided, refused};
use router_core::{Cause, Member, Tables};
use rule_table::StoredPolicy;
use std::alloc::Global;

/// Takes the bus's policy away.
pub(crate) fn remove_policy(
    alloc: Global,
    tables: &Tables,
    moment: u64,
    bus: &Text,
) -> Result<Decided, NoMemory>
    requires bus { IsBusName bus.now }
    ensures answer { IfOk result (λ d. decided_of d ≡ controlled tables.now.set (policy_put bus.now None) empty_reply) }
    ensures made { IfOk result (λ d. CanBeMade tables.now moment d) }
{
    change_policy(alloc, tables, moment, bus, None)
}

/// Removes the statement of this StatementId from the bus's policy.
pub(crate) fn remove_statement(
    alloc: Global,
    tables: &Tables,
    moment: u64,
    bus: &Text,
    sid: &Option<Text>,
) -> Result<Decided, NoMemory>
    requires bus { IsBusName bus.now }
    ensures answer { IfOk result (λ d. IsByPolicy tables.now.set bus.now (statement_removed tables.now.set bus.now sid.now) (decided_of d)) }
    ensures made { IfOk result (λ d. CanBeMade tables.now moment d) }
{
    match tables.set().bus(bus.as_str()) {
        Some(found) => remove_from(alloc, tables, moment, bus, sid, policy_in(found)),
        None => no_bus(alloc, bus),
    }
}

/// Removes the statement from the policy that the bus has, if it has one.
fn remove_from(
    alloc: Global,
    tables: &Tables,
    moment: u64,
    bus: &Text,
    sid: &Option<Text>,
    policy: Option<&Policy>,
) -> Result<Decided, NoMemory>
    requires bus { IsBusName bus.now }
    ensures answer { IfOk result (λ d. decided_of d ≡ statement_removed tables.now.set bus.now sid.now (option_copied policy.entry)) }
    ensures made { IfOk result (λ d. CanBeMade tables.now moment d) }
{
    match sid {
        Some(sid) => remove(alloc, tables, moment, bus, sid, policy),
        None => refused(alloc, &Cause::Required(Member::StatementId)),
    }
}

/// Removes the statement of this StatementId.
fn remove(
    alloc: Global,
    tables: &Tables,
    moment: u64,
    bus: &Text,
    sid: &Text,
    policy: Option<&Policy>,
) -> Result<Decided, NoMemory>
    requires bus { IsBusName bus.now }
    ensures answer { IfOk result (λ d. decided_of d ≡ statement_removed tables.now.set bus.now (Some sid.now) (option_copied policy.entry)) }
    ensures made { IfOk result (λ d. CanBeMade tables.now moment d) }
{
    if has_statement(policy, sid.as_str()) {
        let left = revoked(alloc, sid.as_str(), policy)?;
        change_policy(alloc, tables, moment, bus, left)
    } else {
        let sid = sid.copy(alloc)?;
        refused(alloc, &Cause::NoStatement { sid })
    }
}

/// What is left of the policy without the statement; none if it was the last.
fn revoked(
    alloc: Global,
    sid: &str,
    policy: Option<&Policy>,
) -> Result<Option<StoredPolicy>, NoMemory>
    requires has { has_statement sid.now (option_copied policy) ≡ true }
    ensures { IfOk result (λ left. left ≡ revoking sid.now (option_copied policy.entry)) }
{
    match policy {
        Some(policy) => left_of(alloc, sid, policy),
        None => Ok(None),
    }
}

/// What is left of the policy without the statement; none if it was the last.
fn left_of(alloc: Global, sid: &str, policy: &Policy) -> Result<Option<StoredPolicy>, NoMemory>
    requires has { has_statement sid.now (Some policy.now) ≡ true }
    ensures { IfOk result (λ left. left ≡ revoking sid.now (Some policy.now)) }
{
    match policy.without_statement(alloc, sid)? {
        Removed::NotThere => unreachable!(),
        Removed::Last => Ok(None),
        Removed::Rest(rest) => Ok(Some(StoredPolicy::new(alloc, rest)?)),
    }
}
