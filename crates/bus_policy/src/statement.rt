//! Statements: which values are such, and the first fault of any other.
ghost use Rattle.std.specs.Prelude.{◌≡◌, true, false, codes};
ghost use Rattle.std.specs.List.{list_any};
ghost use Rattle.json_text.specs.Tree.{members_of};
ghost use Rattle.json_text.specs.View.{tree_of, trees_of, pairs_of};
ghost use Rattle.json_text.specs.Access.{member_of};
ghost use Rattle.bus_policy.specs.Grammar as spec;
ghost use Rattle.bus_policy.specs.Parts as part;

use crate::account::EVERYONE;
use crate::condition::is_condition;
use crate::fault::PolicyCause;
use crate::parts::has_sid;
use crate::words::{are_principal_words, are_texts};
use json_text::{Json, Text};

/// The first fault of the statement, of which the earlier ones are given.
pub(crate) fn statement_fault(earlier: &[Json], statement: &Json) -> Option<PolicyCause>
    ensures { result ≡ spec.statement_fault (trees_of earlier.now) (tree_of statement.now) }
{
    if !has_right_sid(earlier, statement) {
        return Some(PolicyCause::BadSid);
    }
    if !has_right_effect(statement) {
        return Some(PolicyCause::BadEffect);
    }
    if !has_right_principal(statement) {
        return Some(PolicyCause::BadPrincipal);
    }
    if !has_texts(statement, "Action") {
        return Some(PolicyCause::BadAction);
    }
    if !has_texts(statement, "Resource") {
        return Some(PolicyCause::BadResource);
    }
    if !has_right_condition(statement) {
        return Some(PolicyCause::BadCondition);
    }
    if !has_known_members(statement) {
        return Some(PolicyCause::UnknownMember);
    }
    None
}

/// No Sid, or a text that no earlier statement has.
fn has_right_sid(earlier: &[Json], statement: &Json) -> bool
    ensures { result ≡ spec.member_is true (part.text_passes (spec.is_new_sid (trees_of earlier.now)))
        (member_of (codes "Sid") (tree_of statement.now)) }
{
    match statement.member("Sid") {
        Some(sid) => is_new_sid(earlier, sid),
        None => true,
    }
}

fn is_new_sid(earlier: &[Json], json: &Json) -> bool
    ensures { result ≡ part.text_passes (spec.is_new_sid (trees_of earlier.now)) (tree_of json.now) }
{
    match json {
        Json::Str(sid) => !some_has_sid(earlier, sid.as_str()),
        _ => false,
    }
}

pub(crate) fn some_has_sid(statements: &[Json], sid: &str) -> bool
    ensures { result ≡ list_any (part.has_sid sid.now) (trees_of statements.now) }
{
    for statement in statements {
        if has_sid(statement, sid) {
            return true;
        }
    }
    false
}

fn has_right_effect(statement: &Json) -> bool
    ensures { result ≡ spec.member_is false (part.text_passes spec.is_effect)
        (member_of (codes "Effect") (tree_of statement.now)) }
{
    match statement.member("Effect") {
        Some(effect) => is_effect(effect),
        None => false,
    }
}

fn is_effect(json: &Json) -> bool
    ensures { result ≡ part.text_passes spec.is_effect (tree_of json.now) }
{
    match json {
        Json::Str(effect) => effect.as_str() == "Allow" || effect.as_str() == "Deny",
        _ => false,
    }
}

fn has_right_principal(statement: &Json) -> bool
    ensures { result ≡ spec.member_is false spec.is_principal_value
        (member_of (codes "Principal") (tree_of statement.now)) }
{
    match statement.member("Principal") {
        Some(principal) => is_principal_value(principal),
        None => false,
    }
}

fn is_principal_value(json: &Json) -> bool
    ensures { result ≡ spec.is_principal_value (tree_of json.now) }
{
    match json {
        Json::Str(word) => word.as_str() == EVERYONE,
        Json::Obj(members) => is_one_principal(members),
        _ => false,
    }
}

/// One member `AWS`, with words for accounts.
fn is_one_principal(members: &[(Text, Json)]) -> bool
    ensures { result ≡ spec.is_one_principal (members_of (pairs_of members.now)) }
{
    match members {
        [(key, words)] => key.as_str() == "AWS" && are_principal_words(words),
        _ => false,
    }
}

fn has_texts(statement: &Json, key: &str) -> bool
    ensures { result ≡ spec.member_is false (spec.are_texts spec.any_text)
        (member_of key.now (tree_of statement.now)) }
{
    match statement.member(key) {
        Some(texts) => are_texts(texts),
        None => false,
    }
}

fn has_right_condition(statement: &Json) -> bool
    ensures { result ≡ spec.member_is true spec.is_condition
        (member_of (codes "Condition") (tree_of statement.now)) }
{
    match statement.member("Condition") {
        Some(condition) => is_condition(condition),
        None => true,
    }
}

fn has_known_members(statement: &Json) -> bool
    ensures { result ≡ spec.is_object_of (λ key t. spec.is_statement_key key) (tree_of statement.now) }
{
    match statement {
        Json::Obj(members) => are_known(members),
        _ => false,
    }
}

fn are_known(members: &[(Text, Json)]) -> bool
    ensures { result ≡ spec.each_member (λ key t. spec.is_statement_key key) (members_of (pairs_of members.now)) }
{
    for (key, _) in members {
        if !is_statement_key(key.as_str()) {
            return false;
        }
    }
    true
}

fn is_statement_key(key: &str) -> bool
    ensures { result ≡ spec.is_statement_key key.now }
{
    (key == "Sid")
        | (key == "Effect")
        | (key == "Principal")
        | (key == "Action")
        | (key == "Resource")
        | (key == "Condition")
}
