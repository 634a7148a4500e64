//! JSON types.
ghost use Rattle.std.specs.Prelude.{◌≡◌};
ghost use Rattle.std.specs.List.{list_all};
ghost use Rattle.json_text.specs.Tree.{members_of};
ghost use Rattle.json_text.specs.View.{tree_of, trees_of, pairs_of};
ghost use Rattle.json_text.specs.Access.{is_text};
ghost use Rattle.api_members.specs.Given.{value_at};
ghost use Rattle.api_members.specs.JsonType as spec;

use crate::members::value_at;
use json_text::{Json, Text};

/// A type that the value of a member has to have.
#[derive(Clone, Copy, Debug)]
pub(crate) enum JsonType {
    Text,
    Number,
    NumberOrText,
    /// A list of texts.
    Texts,
    /// An object of texts.
    TextMap,
}

/// Whether the member is absent or null, or has the type.
pub(crate) fn may_be(members: &[(Text, Json)], key: &str, json_type: JsonType) -> bool
    ensures { result ≡ spec.may_be json_type (value_at key.now (members_of (pairs_of members.now))) }
{
    match value_at(members, key) {
        Some(value) => has_type(value, json_type),
        None => true,
    }
}

/// Whether the member is there and has the type.
pub(crate) fn must_be(members: &[(Text, Json)], key: &str, json_type: JsonType) -> bool
    ensures { result ≡ spec.must_be json_type (value_at key.now (members_of (pairs_of members.now))) }
{
    match value_at(members, key) {
        Some(value) => has_type(value, json_type),
        None => false,
    }
}

fn has_type(value: &Json, json_type: JsonType) -> bool
    ensures { result ≡ spec.has_type json_type (tree_of value.now) }
{
    match (json_type, value) {
        (JsonType::Text | JsonType::NumberOrText, Json::Str(_)) => true,
        (JsonType::Number | JsonType::NumberOrText, Json::Num(_)) => true,
        (JsonType::Texts, Json::List(items)) => are_texts(items.as_slice()),
        (JsonType::TextMap, Json::Obj(members)) => is_text_map(members.as_slice()),
        _ => false,
    }
}

/// Whether the value is a text.
pub(crate) fn is_text(value: &Json) -> bool
    ensures { result ≡ is_text (tree_of value.now) }
{
    match value {
        Json::Str(_) => true,
        Json::Null | Json::Truth(_) | Json::Num(_) | Json::List(_) | Json::Obj(_) => false,
    }
}

fn are_texts(items: &[Json]) -> bool
    ensures { result ≡ list_all is_text (trees_of items.now) }
{
    for item in items {
        if !is_text(item) {
            return false;
        }
    }
    true
}

fn is_text_map(members: &[(Text, Json)]) -> bool
    ensures { result ≡ spec.each_value is_text (members_of (pairs_of members.now)) }
{
    for (_key, value) in members {
        if !is_text(value) {
            return false;
        }
    }
    true
}
