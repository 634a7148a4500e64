//! What is stored of a policy.
ghost use Rattle.std.specs.Prelude.{◌≡◌, ◌++◌, ◌∷◌, [], IfOk, Some, codes, unwrap_or};
ghost use Rattle.json_text.specs.Tree.{items_of};
ghost use Rattle.json_text.specs.View.{tree_of, trees_of};
ghost use Rattle.json_text.specs.Compact.{compact_text, IsValue};
ghost use Rattle.json_text.specs.Access.{member_of};
ghost use Rattle.bus_policy.specs.Stored as spec;
ghost use Rattle.bus_policy.specs.Parts as part;

use json_text::{Bytes, Items, Json, NoMemory, Text, copy, push_member, write};
use std::alloc::Global;

/// The version of a policy that names none.
const DEFAULT_VERSION: &str = "2012-10-17";

/// The policy's version and statements, in memory of their own.
pub(crate) fn stored(alloc: Global, policy: &Json) -> Result<Json, NoMemory>
    ensures { IfOk result (λ json. tree_of json ≡ spec.stored_of (tree_of policy.now)) }
{
    let version = version_of(alloc, policy)?;
    let statements = statements_of(alloc, policy)?;
    policy_with(alloc, version, statements)
}

/// The policy of this version and these statements.
pub(crate) fn policy_with(alloc: Global, version: Json, statements: Items) -> Result<Json, NoMemory>
    ensures { IfOk result
        (λ json. tree_of json ≡ spec.policy_with (tree_of version) (items_of (trees_of statements.items))) }
{
    let mut members = Vec::with_capacity(alloc, 2)?;
    push_member(alloc, &mut members, "Version", version)?;
    push_member(alloc, &mut members, "Statement", Json::List(statements))?;
    Ok(Json::Obj(members))
}

/// The policy's version, or the default if it names none.
pub(crate) fn version_of(alloc: Global, policy: &Json) -> Result<Json, NoMemory>
    ensures { IfOk result (λ json. tree_of json
        ≡ unwrap_or (member_of (codes "Version") (tree_of policy.now)) spec.default_version) }
{
    match policy.member("Version") {
        Some(version) => copy(alloc, version),
        None => default_version(alloc),
    }
}

pub(crate) fn default_version(alloc: Global) -> Result<Json, NoMemory>
    ensures { IfOk result (λ json. tree_of json ≡ spec.default_version) }
{
    Ok(Json::Str(Text::from_str(alloc, DEFAULT_VERSION)?))
}

/// The policy's statements.
pub(crate) fn statements_of(alloc: Global, policy: &Json) -> Result<Items, NoMemory>
    ensures { IfOk result (λ items. items_of (trees_of items.items) ≡ part.statements_of (tree_of policy.now)) }
{
    match policy.member("Statement") {
        Some(statements) => {
            let statements = copy(alloc, statements)?;
            as_list(alloc, statements)
        }
        None => Ok(Vec::new(alloc)),
    }
}

/// One object is a list of one.
fn as_list(alloc: Global, statements: Json) -> Result<Items, NoMemory>
    ensures { IfOk result (λ items. items_of (trees_of items.items) ≡ part.statements_in (Some (tree_of statements))) }
{
    match statements {
        Json::List(items) => Ok(items),
        Json::Obj(_) => {
            let mut items = Vec::with_capacity(alloc, 1)?;
            items.push(statements)?;
            Ok(items)
        }
        _ => Ok(Vec::new(alloc)),
    }
}

/// The value's compact text.
pub(crate) fn compact(alloc: Global, json: &Json) -> Result<Text, NoMemory>
    requires { IsValue (tree_of json.now) }
    ensures { IfOk result (λ text. text ≡ compact_text (tree_of json.now)) }
{
    let mut out = Bytes::new(alloc);
    write(json, &mut out)?;
    match str::from_utf8(out.as_slice()) {
        Ok(text) => Text::from_str(alloc, text),
        Err(_) => unreachable!(),
    }
}
