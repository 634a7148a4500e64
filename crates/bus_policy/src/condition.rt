//! Conditions: of each operator its keys, of each key its texts.
ghost use Rattle.std.specs.Prelude.{◌≡◌, ◌&&◌, ℕ, List, Bool, codes};
ghost use Rattle.json_text.specs.Tree.{members_of};
ghost use Rattle.json_text.specs.View.{tree_of, pairs_of};
ghost use Rattle.bus_policy.specs.Grammar as spec;

use crate::words::are_texts;
use json_text::{Json, Text};

/// Whether each operator and each key is one that is known, and its texts are texts.
pub(crate) fn is_condition(json: &Json) -> bool
    ensures { result ≡ spec.is_condition (tree_of json.now) }
{
    match json {
        Json::Obj(members) => each_operator(members),
        _ => false,
    }
}

fn each_operator(members: &[(Text, Json)]) -> bool
    ensures { result ≡ spec.each_member (λ operator keys. spec.is_operator operator && spec.are_keys keys) (members_of (pairs_of members.now)) }
{
    for (operator, keys) in members {
        if !is_operator(operator.as_str()) || !are_keys(keys) {
            return false;
        }
    }
    true
}

fn is_operator(operator: &str) -> bool
    ensures { result ≡ spec.is_operator operator.now }
{
    operator == "StringEquals" || operator == "StringLike"
}

fn are_keys(json: &Json) -> bool
    ensures { result ≡ spec.are_keys (tree_of json.now) }
{
    match json {
        Json::Obj(members) => each_key(members),
        _ => false,
    }
}

fn each_key(members: &[(Text, Json)]) -> bool
    ensures { result ≡ spec.each_member (λ key texts. spec.is_key key && spec.are_texts spec.any_text texts) (members_of (pairs_of members.now)) }
{
    for (key, texts) in members {
        if !is_key(key.as_str()) || !are_texts(texts) {
            return false;
        }
    }
    true
}

fn is_key(key: &str) -> bool
    ensures { result ≡ spec.is_key key.now }
{
    key == "events:source" || key == "events:detail-type"
}
