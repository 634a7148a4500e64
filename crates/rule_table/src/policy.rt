//! Policies that rule sets and changes share.
ghost use Rattle.std.specs.Prelude.{◌≡◌, true, false, Some, IfOk, MatchOption};
ghost use Rattle.json_text.specs.Compact.{compact_text};
ghost use Rattle.bus_policy.specs.Text.{IsPolicyText};
ghost use Rattle.rule_table.specs.Refusal.{is_short};
ghost use Rattle.rule_table.specs.WellFormed.{IsNoneOrStored, IsBusPolicy};

use bus_policy::Policy;
use json_text::NoMemory;
use std::alloc::Global;
use std::marker::Model;
use std::sync::Arc;

/// The greatest number of bytes of a policy.
const MOST_BYTES: usize = 10_240;

/// A pointer to a policy, which several rule sets share. Contracts see the policy's text as it is stored.
#[derive(Debug, Drop)]
pub struct SharedPolicy {
    policy: Arc<Policy>,
}

impl Model for SharedPolicy {
    ghost use Rattle.std.specs.Prelude.{ℕ, List};
    ghost use Rattle.std.specs.Arc.{arc_value};
    ghost use Rattle.json_text.specs.Compact.{compact_text};
    ghost use Rattle.bus_policy.specs.Text.{IsPolicyText};

    ghost Value = { List ℕ };

    ghost view = { λ p. compact_text (arc_value p.policy) };

    ghost invariant = { λ p. IsPolicyText (compact_text (arc_value p.policy)) (arc_value p.policy) };
}

impl SharedPolicy {
    /// Another pointer to the same policy. Allocates nothing.
    pub(crate) fn share(&self) -> Result<SharedPolicy, NoMemory>
        ensures { IfOk result (λ p. p ≡ self.now) }
    {
        Ok(SharedPolicy {
            policy: Arc::try_clone(&self.policy)?,
        })
    }

    /// The policy, which decides who may put events on the bus.
    pub fn policy(&self) -> &Policy
        ensures text { compact_text result.now ≡ self.now }
        ensures read { IsPolicyText self.now result.now }
    {
        &self.policy
    }

    /// Its text, as it is stored.
    pub fn as_str(&self) -> &str
        ensures text { result.now ≡ self.now }
        ensures stored { IsBusPolicy self.now }
    {
        self.policy.text()
    }
}

/// A policy as it is stored, of any length, which several values share. Contracts see its text.
#[derive(Debug, Drop)]
pub struct StoredPolicy {
    policy: Arc<Policy>,
}

impl Model for StoredPolicy {
    ghost use Rattle.std.specs.Prelude.{ℕ, List};
    ghost use Rattle.std.specs.Arc.{arc_value};
    ghost use Rattle.json_text.specs.Compact.{compact_text};

    ghost Value = { List ℕ };

    ghost view = { λ p. compact_text (arc_value p.policy) };
}

impl StoredPolicy {
    pub fn new(alloc: Global, policy: Policy) -> Result<StoredPolicy, NoMemory>
        ensures { IfOk result (λ p. p ≡ compact_text policy) }
    {
        Ok(StoredPolicy {
            policy: Arc::new(alloc, policy)?,
        })
    }

    /// Another pointer to the same policy. Allocates nothing.
    pub fn share(&self) -> Result<StoredPolicy, NoMemory>
        ensures { IfOk result (λ p. p ≡ self.now) }
    {
        Ok(StoredPolicy {
            policy: Arc::try_clone(&self.policy)?,
        })
    }

    /// Its text. If it is not too long, it is that of a policy as it is stored.
    pub fn as_str(&self) -> &str
        ensures text { result.now ≡ self.now }
        ensures stored { is_short (Some self.now) ≡ true → IsBusPolicy self.now }
    {
        self.policy.text()
    }

    /// The policy as a bus may have it. `None` if it has more than 10,240 bytes.
    fn short(&self) -> Result<Option<SharedPolicy>, NoMemory>
        ensures { IfOk result (λ found. MatchOption found (is_short (Some self.now) ≡ false) (λ p. (p ≡ self.now) × (is_short (Some self.now) ≡ true) × IsNoneOrStored (Some self.now))) }
    {
        if self.policy.text().len() > MOST_BYTES {
            return Ok(None);
        }
        Ok(Some(SharedPolicy {
            policy: Arc::try_clone(&self.policy)?,
        }))
    }
}

/// The policy as a bus may have it, if there is one. `None` if it has more than 10,240 bytes.
pub(crate) fn short_policy(
    policy: &Option<StoredPolicy>,
) -> Result<Option<Option<SharedPolicy>>, NoMemory>
    ensures { IfOk result (λ found. MatchOption found (is_short policy.now ≡ false) (λ p. (p ≡ policy.now) × (is_short policy.now ≡ true) × IsNoneOrStored policy.now)) }
{
    match policy {
        Some(policy) => match policy.short()? {
            Some(policy) => Ok(Some(Some(policy))),
            None => Ok(None),
        },
        None => Ok(Some(None)),
    }
}

/// Another pointer to the policy, if there is one.
pub(crate) fn share_policy(policy: &Option<SharedPolicy>) -> Result<Option<SharedPolicy>, NoMemory>
    ensures { IfOk result (λ p. p ≡ policy.now) }
{
    match policy {
        Some(policy) => Ok(Some(policy.share()?)),
        None => Ok(None),
    }
}
