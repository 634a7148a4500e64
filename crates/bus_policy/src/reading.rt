//! Texts to policies.
ghost use Rattle.std.specs.Prelude.{◌≡◌, ◌≤◌, ◌<◌, length, IfOk, IfErr, MatchResult};
ghost use Rattle.json_text.specs.Compact.{IsValue};
ghost use Rattle.json_text.specs.Tree.{Tree};
ghost use Rattle.json_text.specs.View.{tree_of};
ghost use Rattle.bus_policy.specs.Fault.{IsPolicyFaultOf, IsFirstFaultOrMemory, IsValueFault};
ghost use Rattle.bus_policy.specs.Grammar.{IsPolicy};
ghost use Rattle.bus_policy.specs.Stored.{IsStored, stored_of};
ghost use Rattle.bus_policy.specs.Text.{Spells, IsPolicyText};

use crate::fault::{PolicyCause, PolicyFault};
use crate::grammar::fault_of;
use crate::policy::Policy;
use crate::storing::stored;
use json_text::{Json, JsonFault, read_once};
use std::alloc::Global;

/// How many bytes a policy's text may have.
const MAX_LEN: usize = 10_240;

/// How many levels of lists and objects a policy may have.
const MAX_LEVELS: u32 = 100;

impl Policy {
    /// The policy that the text is, or its first fault. Its version and its statements are stored; Id and any other member go.
    pub fn read(alloc: Global, bytes: &[u8]) -> Result<Policy, PolicyFault>
        ensures found { IfOk result (λ p. IsPolicyText bytes.now p) }
        ensures only { (policy : Tree) → IsPolicyText bytes.now policy
            → MatchResult result (λ p. p ≡ policy) (λ e. e ≡ PolicyFault.NoMemory) }
        ensures fault { IfErr result (IsFirstFaultOrMemory bytes.now) }
        ensures too_long { 10240 < length bytes.now → result ≡ Err (PolicyFault.Bad PolicyCause.TooLong 0) }
        ensures stored { IfOk result (λ p. IsStored p) }
    {
        let json = match spelled(alloc, bytes) {
            Ok(json) => json,
            Err(fault) => return Err(fault),
        };
        checked(alloc, &json)
    }
}

/// What is stored of the value, if it is a policy.
fn checked(alloc: Global, json: &Json) -> Result<Policy, PolicyFault>
    requires { IsValue (tree_of json.now) }
    ensures found { IfOk result (λ p. IsPolicy (tree_of json.now) × (p ≡ stored_of (tree_of json.now))) }
    ensures fault { IfErr result (IsValueFault (tree_of json.now)) }
{
    match fault_of(json) {
        Some((cause, place)) => Err(PolicyFault::Bad { cause, place }),
        None => {
            let value = stored(alloc, json)?;
            let policy = Policy::of(alloc, value)?;
            Ok(policy)
        }
    }
}

/// The value that the text spells.
fn spelled(alloc: Global, bytes: &[u8]) -> Result<Json, PolicyFault>
    ensures found { IfOk result (λ json. (length bytes.now ≤ 10240)
        × Spells bytes.now (tree_of json) × IsValue (tree_of json)) }
    ensures only { (value : Tree) → length bytes.now ≤ 10240 → Spells bytes.now value
        → MatchResult result (λ json. tree_of json ≡ value) (λ e. e ≡ PolicyFault.NoMemory) }
    ensures fault { IfErr result (IsFirstFaultOrMemory bytes.now) }
    ensures too_long { 10240 < length bytes.now → result ≡ Err (PolicyFault.Bad PolicyCause.TooLong 0) }
{
    if bytes.len() > MAX_LEN {
        return Err(whole(PolicyCause::TooLong));
    }
    match read_once(alloc, bytes, MAX_LEVELS) {
        Ok(json) => Ok(json),
        Err(fault) => Err(policy_fault(&fault)),
    }
}

/// What a fault of the JSON is for the policy.
fn policy_fault(fault: &JsonFault) -> PolicyFault
    ensures { IsPolicyFaultOf fault.now result }
{
    match fault {
        JsonFault::NotJson { at: _ } => whole(PolicyCause::NotJson),
        JsonFault::TooDeep { at: _ } => whole(PolicyCause::TooDeep),
        JsonFault::KeyTwice { at: _ } => whole(PolicyCause::KeyTwice),
        JsonFault::NoMemory => PolicyFault::NoMemory,
    }
}

/// A fault of the whole text.
fn whole(cause: PolicyCause) -> PolicyFault
    ensures { result ≡ PolicyFault.Bad cause 0 }
{
    PolicyFault::Bad { cause, place: 0 }
}
