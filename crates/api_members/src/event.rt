//! The text of an event that a pattern is tested on.
ghost use Rattle.std.specs.Prelude.{◌≡◌, IsTrue, IfOk, MatchOption, is_some};
ghost use Rattle.json_text.specs.Tree.{Tree, members_of};
ghost use Rattle.json_text.specs.View.{tree_of, pairs_of};
ghost use Rattle.json_text.specs.Access.{member_in};
ghost use Rattle.api_members.specs.Event as spec;

use crate::members::object_in;
use json_text::{Json, JsonFault, NoMemory, Text, member_at, read};
use std::alloc::Global;

/// The number of levels of lists and objects that an event may have.
const EVENT_LEVELS: u32 = 100;

/// The event that the text is. `None` if it is no object with the members of an event.
pub fn read_event(alloc: Global, text: &str) -> Result<Option<Json>, NoMemory>
    ensures event { IfOk result (λ found. MatchOption found
        ((event : Tree) → ¬ spec.IsEventGiven text.now event)
        (λ event. spec.IsEventGiven text.now (tree_of event))) }
{
    match read(alloc, text.as_bytes(), EVENT_LEVELS) {
        Ok(value) => Ok(if_event(value)),
        Err(JsonFault::NotJson { at: _ })
        | Err(JsonFault::TooDeep { at: _ })
        | Err(JsonFault::KeyTwice { at: _ }) => Ok(None),
        Err(JsonFault::NoMemory) => Err(NoMemory),
    }
}

fn if_event(value: Json) -> Option<Json>
    ensures { MatchOption result
        (¬ IsTrue (spec.is_event (tree_of value)))
        (λ event. (tree_of event ≡ tree_of value) × IsTrue (spec.is_event (tree_of value))) }
{
    if is_event(&value) { Some(value) } else { None }
}

fn is_event(value: &Json) -> bool
    ensures { result ≡ spec.is_event (tree_of value.now) }
{
    match object_in(value) {
        Some(members) => are_event_members(members),
        None => false,
    }
}

fn are_event_members(members: &[(Text, Json)]) -> bool
    ensures { result ≡ spec.are_event_members (members_of (pairs_of members.now)) }
{
    has_member(members, "id")
        && has_member(members, "account")
        && has_member(members, "source")
        && has_member(members, "time")
        && has_member(members, "region")
        && has_member(members, "resources")
        && has_member(members, "detail-type")
}

fn has_member(members: &[(Text, Json)], key: &str) -> bool
    ensures { result ≡ is_some (member_in key.now (members_of (pairs_of members.now))) }
{
    member_at(members, key).is_some()
}
