//! Changes of the policy of a bus.
ghost use Rattle.std.specs.Prelude.{◌≡◌, true, IfOk};
ghost use Rattle.std.specs.Option.{option_copied};
ghost use Rattle.event_shape.specs.Names.{IsBusName};
ghost use Rattle.rule_table.specs.Control.{policy_put};
ghost use Rattle.rule_table.specs.Refusal.{is_short};
ghost use Rattle.rule_table.specs.WellFormed.{IsNoneOrStored};
ghost use Rattle.router_requests.specs.Verdict.{IsPolicyOf};
ghost use Rattle.call_replies.specs.Replies.{empty_reply};
ghost use Rattle.resource_calls.specs.Decision.{controlled};
ghost use Rattle.resource_calls.specs.Decided.{decided_of, CanBeMade};
ghost use Rattle.router_calls.specs.Permission.{has_statement};

use bus_policy::Policy;
use call_replies::empty_reply;
use json_text::{NoMemory, Text};
use resource_calls::{Decided, configure};
use router_core::Tables;
use rule_table::{Bus, Control, StoredPolicy};
use std::alloc::Global;

/// Gives the bus this policy, or takes its policy away.
pub(crate) fn change_policy(
    alloc: Global,
    tables: &Tables,
    moment: u64,
    bus: &Text,
    policy: Option<StoredPolicy>,
) -> Result<Decided, NoMemory>
    requires bus { IsBusName bus.now }
    ensures answer { IfOk result (λ d. decided_of d ≡ controlled tables.now.set (policy_put bus.now policy) empty_reply) }
    ensures made { IfOk result (λ d. CanBeMade tables.now moment d) }
{
    read_policy(&policy);
    let control = Control::PolicyPut {
        bus: bus.copy(alloc)?,
        policy,
    };
    configure(alloc, tables, moment, control, empty_reply(alloc))
}

/// Reads the policy for its contract alone: a policy that is not too long has a text that is read back as itself.
fn read_policy(policy: &Option<StoredPolicy>)
    ensures { is_short policy.now ≡ true → IsNoneOrStored policy.now }
{
    if let Some(policy) = policy {
        let _text = policy.as_str();
    }
}

/// The policy of the bus, if it has one.
pub(crate) fn policy_in(bus: &Bus) -> Option<&Policy>
    ensures { IsPolicyOf bus.now.policy (option_copied result) }
{
    match bus.policy() {
        Some(policy) => Some(policy.policy()),
        None => None,
    }
}

/// Whether a statement of the policy, if there is one, has this StatementId.
pub(crate) fn has_statement(policy: Option<&Policy>, sid: &str) -> bool
    ensures { result ≡ has_statement sid.now (option_copied policy.entry) }
{
    match policy {
        Some(policy) => policy.has_sid(sid),
        None => false,
    }
}
