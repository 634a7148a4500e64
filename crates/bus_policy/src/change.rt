//! Statements that are added to a policy, and that are removed.
ghost use Rattle.std.specs.Prelude.{◌≡◌, ◌≤◌, ◌++◌, ◌∷◌, [], false, length, IfOk, codes};
ghost use Rattle.json_text.specs.Compact.{compact_text};
ghost use Rattle.json_text.specs.Tree.{Tree, items_of, members_of, text, object};
ghost use Rattle.json_text.specs.View.{tree_of, trees_of};
ghost use Rattle.bus_policy.specs.Change as spec;
ghost use Rattle.bus_policy.specs.Grantee.{account_given, IsRemoved};
ghost use Rattle.bus_policy.specs.Parts.{root_arn, statements_of as statements_seen};

use crate::parts::has_sid;
use crate::policy::Policy;
use crate::statement::some_has_sid;
use crate::storing::{default_version, policy_with, statements_of, version_of};
use event_shape::bus_arn;
use json_text::{Items, Json, NoMemory, Text, copy, push_member, push_text};
use std::alloc::Global;

/// Whom a statement allows.
#[derive(Clone, Copy, Debug)]
pub enum Grantee<'a> {
    Everyone,
    /// The account of these twelve digits.
    Account(&'a str),
}

/// What is left of a policy without a statement.
#[derive(Debug, Drop)]
pub enum Removed {
    /// No statement has the Sid.
    NotThere,
    /// The statement was the last one: no policy is left.
    Last,
    Rest(Policy),
}

impl Policy {
    /// The policy of one statement, an Allow to put events on the bus of this name.
    pub fn new(alloc: Global, sid: &str, to: Grantee, bus: &str) -> Result<Policy, NoMemory>
        requires { spec.IsAccountGiven (account_given to) }
        ensures { IfOk result (λ p. p ≡ spec.first_policy (spec.allow_for sid.now (account_given to.entry) bus.now)) }
    {
        let version = default_version(alloc)?;
        let mut statements = Vec::with_capacity(alloc, 1)?;
        let statement = allow_for(alloc, sid, to, bus)?;
        statements.push(statement)?;
        let value = policy_with(alloc, version, statements)?;
        Policy::of(alloc, value)
    }

    /// The policy with such a statement as its last.
    pub fn with_statement(
        &self,
        alloc: Global,
        sid: &str,
        to: Grantee,
        bus: &str,
    ) -> Result<Policy, NoMemory>
        requires new_sid { spec.some_has_sid sid.now (statements_seen self.now) ≡ false }
        requires account { spec.IsAccountGiven (account_given to) }
        ensures { IfOk result (λ p. p ≡ spec.with_statement self.now (spec.allow_for sid.now (account_given to.entry) bus.now)) }
    {
        let old = self.value();
        let version = version_of(alloc, old)?;
        let mut statements = statements_of(alloc, old)?;
        let statement = allow_for(alloc, sid, to, bus)?;
        statements.push(statement)?;
        let value = policy_with(alloc, version, statements)?;
        Policy::of(alloc, value)
    }

    /// What is left without the statement of the Sid. Its text is no longer than that of this policy.
    pub fn without_statement(&self, alloc: Global, sid: &str) -> Result<Removed, NoMemory>
        ensures removed { IfOk result (IsRemoved self.now sid.now) }
        ensures not_there { spec.some_has_sid sid.now (statements_seen self.now) ≡ false → result ≡ Ok Removed.NotThere }
        ensures no_longer { (rest : Tree) → result ≡ Ok (Removed.Rest rest) → length (compact_text rest) ≤ length (compact_text self.now) }
    {
        if !self.has_sid(sid) {
            return Ok(Removed::NotThere);
        }
        let statements = without_sid(alloc, self.statements(), sid)?;
        if statements.is_empty() {
            return Ok(Removed::Last);
        }
        let version = version_of(alloc, self.value())?;
        let value = policy_with(alloc, version, statements)?;
        Ok(Removed::Rest(Policy::of(alloc, value)?))
    }

    /// Whether a statement has the Sid.
    pub fn has_sid(&self, sid: &str) -> bool
        ensures { result ≡ spec.some_has_sid sid.now (statements_seen self.now) }
    {
        some_has_sid(self.statements(), sid)
    }
}

/// Copies of the statements that don't have the Sid.
fn without_sid(alloc: Global, statements: &[Json], sid: &str) -> Result<Items, NoMemory>
    ensures { IfOk result (λ items. items_of (trees_of items.items)
        ≡ spec.without_sid sid.now (items_of (trees_of statements.now))) }
{
    let mut copies = Vec::with_capacity(alloc, statements.len())?;
    for statement in statements {
        if !has_sid(statement, sid) {
            copies.push(copy(alloc, statement)?)?;
        }
    }
    Ok(copies)
}

fn allow_for(alloc: Global, sid: &str, to: Grantee, bus: &str) -> Result<Json, NoMemory>
    ensures { IfOk result (λ json. tree_of json ≡ spec.allow_for sid.now (account_given to.entry) bus.now) }
{
    let principal = principal_for(alloc, to)?;
    let bus = bus_arn(alloc, bus)?;
    let mut members = Vec::with_capacity(alloc, 5)?;
    push_text(alloc, &mut members, "Sid", sid)?;
    push_text(alloc, &mut members, "Effect", "Allow")?;
    push_member(alloc, &mut members, "Principal", principal)?;
    push_text(alloc, &mut members, "Action", "events:PutEvents")?;
    push_member(alloc, &mut members, "Resource", Json::Str(bus))?;
    Ok(Json::Obj(members))
}

fn principal_for(alloc: Global, to: Grantee) -> Result<Json, NoMemory>
    ensures { IfOk result (λ json. tree_of json ≡ spec.principal_for (account_given to.entry)) }
{
    match to {
        Grantee::Everyone => Ok(Json::Str(Text::from_str(alloc, "*")?)),
        Grantee::Account(account) => root_principal(alloc, account),
    }
}

fn root_principal(alloc: Global, account: &str) -> Result<Json, NoMemory>
    ensures { IfOk result (λ json. tree_of json ≡ object (members_of ((codes "AWS", text (root_arn account.now)) ∷ []))) }
{
    let root = Text::from(format!(in alloc; "arn:aws:iam::{account}:root")?);
    let mut members = Vec::with_capacity(alloc, 1)?;
    push_member(alloc, &mut members, "AWS", Json::Str(root))?;
    Ok(Json::Obj(members))
}
