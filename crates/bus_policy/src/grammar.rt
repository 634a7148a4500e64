//! Policies: which values are such, and the first fault of any other.
ghost use Rattle.std.specs.Prelude.{◌≡◌, true, false, [], Some, codes};
ghost use Rattle.json_text.specs.Tree.{items_of};
ghost use Rattle.json_text.specs.View.{tree_of, trees_of};
ghost use Rattle.json_text.specs.Access.{is_object, member_of};
ghost use Rattle.bus_policy.specs.Grammar as spec;
ghost use Rattle.bus_policy.specs.Parts as part;

use crate::fault::PolicyCause;
use crate::statement::statement_fault;
use json_text::Json;

/// The first fault of the policy, and the place of its statement; none of a policy that is one.
pub(crate) fn fault_of(policy: &Json) -> Option<(PolicyCause, usize)>
    ensures { result ≡ spec.fault_of (tree_of policy.now) }
{
    if !has_statements(policy) {
        return Some((PolicyCause::NotObject, 0));
    }
    if !has_right_version(policy) {
        return Some((PolicyCause::BadVersion, 0));
    }
    fault_in_statements(policy)
}

fn has_statements(policy: &Json) -> bool
    ensures { result ≡ spec.member_is false spec.are_statements
        (member_of (codes "Statement") (tree_of policy.now)) }
{
    match policy.member("Statement") {
        Some(statements) => are_statements(statements),
        None => false,
    }
}

fn are_statements(json: &Json) -> bool
    ensures { result ≡ spec.are_statements (tree_of json.now) }
{
    match json {
        Json::Obj(_) => true,
        Json::List(items) => each_object(items),
        _ => false,
    }
}

fn each_object(items: &[Json]) -> bool
    ensures { result ≡ spec.each_item is_object (items_of (trees_of items.now)) }
{
    for item in items {
        if !item.is_object() {
            return false;
        }
    }
    true
}

/// No version, or one of the two that there are.
fn has_right_version(policy: &Json) -> bool
    ensures { result ≡ spec.member_is true (part.text_passes spec.is_version)
        (member_of (codes "Version") (tree_of policy.now)) }
{
    match policy.member("Version") {
        Some(version) => is_version(version),
        None => true,
    }
}

fn is_version(json: &Json) -> bool
    ensures { result ≡ part.text_passes spec.is_version (tree_of json.now) }
{
    match json {
        Json::Str(version) => version.as_str() == "2008-10-17" || version.as_str() == "2012-10-17",
        _ => false,
    }
}

fn fault_in_statements(policy: &Json) -> Option<(PolicyCause, usize)>
    ensures { result ≡ spec.first_fault [] (part.statements_of (tree_of policy.now)) }
{
    match policy.member("Statement") {
        Some(statements) => fault_in(statements),
        None => None,
    }
}

fn fault_in(statements: &Json) -> Option<(PolicyCause, usize)>
    ensures { result ≡ spec.first_fault [] (part.statements_in (Some (tree_of statements.now))) }
{
    match statements {
        Json::Obj(_) => statement_fault(&[], statements).map(|cause| (cause, 1)),
        Json::List(items) => first_fault(items),
        _ => None,
    }
}

fn first_fault(statements: &[Json]) -> Option<(PolicyCause, usize)>
    ensures { result ≡ spec.first_fault [] (items_of (trees_of statements.now)) }
{
    for (i, statement) in statements.iter().enumerate() {
        if let Some(cause) = statement_fault(&statements[..i], statement) {
            return Some((cause, i + 1));
        }
    }
    None
}
