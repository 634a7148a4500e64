//! The members that are given. Null counts as absent. If two members have one key, the first counts.
ghost use Rattle.std.specs.Prelude.{◌≡◌, [], unwrap_or};
ghost use Rattle.std.specs.Option.{option_map, option_copied};
ghost use Rattle.json_text.specs.Tree.{members_of};
ghost use Rattle.json_text.specs.View.{tree_of, trees_of, pairs_of};
ghost use Rattle.api_members.specs.Given as spec;

use api_replies::Member;
use json_text::{Json, Text, member_at};

/// The value of the first member with this key, unless that is null.
pub(crate) fn value_at<'m>(members: &'m [(Text, Json)], key: &str) -> Option<&'m Json>
    ensures { option_map tree_of (option_copied result) ≡ spec.value_at key.now (members_of (pairs_of members.now)) }
{
    match member_at(members, key) {
        Some(value) => unless_null(value),
        None => None,
    }
}

fn unless_null(value: &Json) -> Option<&Json>
    ensures { option_map tree_of (option_copied result) ≡ spec.unless_null (tree_of value.now) }
{
    match value {
        Json::Null => None,
        Json::Truth(_) | Json::Num(_) | Json::Str(_) | Json::List(_) | Json::Obj(_) => Some(value),
    }
}

/// The value of the member. `None` if it is absent or null.
pub fn given<'m>(members: &'m [(Text, Json)], member: Member) -> Option<&'m Json>
    ensures { option_map tree_of (option_copied result) ≡ spec.given member (members_of (pairs_of members.now)) }
{
    value_at(members, member.name())
}

/// The member's text. `None` if it is absent or no text.
pub fn text_given<'m>(members: &'m [(Text, Json)], member: Member) -> Option<&'m str>
    ensures { option_copied result ≡ spec.text_given member (members_of (pairs_of members.now)) }
{
    match given(members, member) {
        Some(value) => value.as_text(),
        None => None,
    }
}

/// The same, empty if there is none.
pub fn text_of<'m>(members: &'m [(Text, Json)], member: Member) -> &'m str
    ensures { result.now ≡ spec.text_of member (members_of (pairs_of members.now)) }
{
    match text_given(members, member) {
        Some(text) => text,
        None => "",
    }
}

/// The members of an object. `None` if the value is no object.
pub(crate) fn object_in(value: &Json) -> Option<&[(Text, Json)]>
    ensures { option_map (λ ms. members_of (pairs_of ms)) (option_copied result) ≡ spec.object_in (tree_of value.now) }
{
    match value {
        Json::Obj(members) => Some(members.as_slice()),
        Json::Null | Json::Truth(_) | Json::Num(_) | Json::Str(_) | Json::List(_) => None,
    }
}

/// The members of an object; none if the value is no object.
pub fn members_in(value: &Json) -> &[(Text, Json)]
    ensures { members_of (pairs_of result.now) ≡ spec.members_in (tree_of value.now) }
{
    match object_in(value) {
        Some(members) => members,
        None => &[],
    }
}

/// The values of a list. `None` if the value is no list.
pub(crate) fn list_in(value: &Json) -> Option<&[Json]>
    ensures { option_map trees_of (option_copied result) ≡ spec.list_in (tree_of value.now) }
{
    match value {
        Json::List(items) => Some(items.as_slice()),
        Json::Null | Json::Truth(_) | Json::Num(_) | Json::Str(_) | Json::Obj(_) => None,
    }
}

/// The values of the member's list; none if it is absent or no list.
pub fn values_in<'m>(members: &'m [(Text, Json)], member: Member) -> &'m [Json]
    ensures { trees_of result.now ≡ spec.values_in member (members_of (pairs_of members.now)) }
{
    match given(members, member) {
        Some(value) => list_or_none(value),
        None => &[],
    }
}

/// The values of a list; none if the value is no list.
pub(crate) fn list_or_none(value: &Json) -> &[Json]
    ensures { trees_of result.now ≡ unwrap_or (spec.list_in (tree_of value.now)) [] }
{
    match list_in(value) {
        Some(values) => values,
        None => &[],
    }
}
