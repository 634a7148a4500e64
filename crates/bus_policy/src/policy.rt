//! Policies as they are stored.
ghost use Rattle.std.specs.Prelude.{◌≡◌, ◌≤◌, length, IfOk};
ghost use Rattle.json_text.specs.Tree.{items_of};
ghost use Rattle.json_text.specs.View.{tree_of, trees_of};

use crate::asker::Asker;
use crate::deciding::verdict;
use crate::naming::names_of;
use crate::storing::compact;
use crate::verdict::Verdict;
use json_text::{Json, NoMemory, Text};
use std::alloc::Global;
use std::marker::Model;

/// A bus's policy: who may put events on it. Contracts see its JSON value, an object of `Version` and of `Statement`, which is a
/// list of the statements as they were given.
#[derive(Debug, Drop)]
pub struct Policy {
    value: Json,
    names: Vec<Text>,
    text: Text,
}

impl Model for Policy {
    ghost use Rattle.json_text.specs.Tree.{Tree};
    ghost use Rattle.json_text.specs.Code.{tree_code};
    ghost use Rattle.json_text.specs.View.{tree_of};
    ghost use Rattle.bus_policy.specs.Stored.{IsWhole};

    ghost Value = { Tree };

    ghost coded = { tree_code };

    ghost view = { λ p. tree_of p.value };

    ghost invariant = { λ p. IsWhole (tree_of p.value) p.names.items p.text };
}

ghost use Rattle.bus_policy.specs.Stored.{IsStored};
ghost use Rattle.bus_policy.specs.Parts.{statements_of};

impl Policy {
    ghost use Rattle.json_text.specs.Compact.{compact_text};
    ghost use Rattle.bus_policy.specs.Stored.{IsStored};
    ghost use Rattle.bus_policy.specs.Parts.{statements_of};
    ghost use Rattle.bus_policy.specs.View.{asker_of, verdict_of};
    ghost use Rattle.bus_policy.specs.Text.{IsPolicyText};
    ghost use Rattle.bus_policy.specs.Verdict.{IsVerdict};

    /// The policy that is stored so, with its statements' names and its text.
    pub(crate) fn of(alloc: Global, value: Json) -> Result<Policy, NoMemory>
        requires { IsStored (tree_of value) }
        ensures { IfOk result (λ p. p ≡ tree_of value) }
    {
        let names = names_of(alloc, statements_in(&value))?;
        let text = compact(alloc, &value)?;
        Ok(Policy { value, names, text })
    }

    /// Whether the asker may put its event on its bus. Takes no memory.
    pub fn decide<'a>(&'a self, asker: &Asker) -> Verdict<'a>
        ensures { IsVerdict self.now (asker_of asker.now) (verdict_of result) }
    {
        verdict(self.statements(), &self.names, asker)
    }

    pub(crate) fn statements(&self) -> &[Json]
        ensures { items_of (trees_of result.now) ≡ statements_of self.now }
    {
        statements_in(&self.value)
    }

    pub(crate) fn value(&self) -> &Json
        ensures seen { tree_of result.now ≡ self.now }
        ensures stored { IsStored self.now }
    {
        &self.value
    }

    /// The policy's compact text. If it is not too long, it is read back as this policy.
    pub fn text(&self) -> &str
        ensures text { result.now ≡ compact_text self.now }
        ensures reads_back { length (compact_text self.now) ≤ 10240 → IsPolicyText (compact_text self.now) self.now }
        ensures stored { IsStored self.now }
    {
        self.text.as_str()
    }
}

/// The statements of a policy as it is stored.
pub(crate) fn statements_in(value: &Json) -> &[Json]
    requires { IsStored (tree_of value.now) }
    ensures { items_of (trees_of result.now) ≡ statements_of (tree_of value.now) }
{
    match value.member("Statement") {
        Some(Json::List(items)) => items,
        _ => unreachable!(),
    }
}
