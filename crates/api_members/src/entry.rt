//! The entries of a PutEvents.
ghost use Rattle.std.specs.Prelude.{◌≡◌, ◌++◌, map, IfOk, OnOk};
ghost use Rattle.json_text.specs.Tree.{members_of};
ghost use Rattle.std.specs.Option.{option_map};
ghost use Rattle.json_text.specs.View.{tree_of, trees_of, pairs_of};
ghost use Rattle.event_shape.specs.Entry.{entry_of};
ghost use Rattle.api_members.specs.Given.{given, members_in, text_given};
ghost use Rattle.api_members.specs.Entry as spec;

use crate::json_type::{JsonType, may_be};
use crate::members::{given, members_in, object_in, text_given, values_in};
use api_replies::Member;
use event_shape::EventEntry;
use json_text::{Json, NoMemory, Text, copy};
use std::alloc::Global;

/// Whether the value is an object whose members have their types.
pub(crate) fn is_entry(value: &Json) -> bool
    ensures { result ≡ spec.is_entry (tree_of value.now) }
{
    match object_in(value) {
        Some(members) => are_entry_members(members),
        None => false,
    }
}

fn are_entry_members(members: &[(Text, Json)]) -> bool
    ensures { result ≡ spec.are_entry_members (members_of (pairs_of members.now)) }
{
    may_be(members, "Source", JsonType::Text)
        && may_be(members, "DetailType", JsonType::Text)
        && may_be(members, "Detail", JsonType::Text)
        && may_be(members, "EventBusName", JsonType::Text)
        && may_be(members, "Resources", JsonType::Texts)
        && may_be(members, "Time", JsonType::NumberOrText)
}

/// The entries of the values, in memory of their own. A member of another type than `is_entry` asks for counts as absent.
pub fn read_entries(alloc: Global, values: &[Json]) -> Result<Vec<EventEntry>, NoMemory>
    ensures { IfOk result (λ entries. map entry_of entries.items ≡ spec.entries_of (trees_of values.now)) }
{
    let mut entries = Vec::with_capacity(alloc, values.len())?;
    for value in values {
        let entry = read_entry(alloc, members_in(value))?;
        entries.push(entry)?;
    }
    Ok(entries)
}

fn read_entry(alloc: Global, members: &[(Text, Json)]) -> Result<EventEntry, NoMemory>
    ensures { IfOk result (λ entry. entry_of entry ≡ spec.entry_with (members_of (pairs_of members.now))) }
{
    let source = read_text(alloc, members, Member::Source)?;
    let detail_type = read_text(alloc, members, Member::DetailType)?;
    let detail = read_text(alloc, members, Member::Detail)?;
    let bus = read_text(alloc, members, Member::EventBusName)?;
    let time = read_value(alloc, members, Member::Time)?;
    let resources = read_texts(alloc, values_in(members, Member::Resources))?;
    Ok(EventEntry {
        time,
        source,
        resources,
        detail_type,
        detail,
        bus,
    })
}

/// The member's text, in memory of its own. `None` if it is absent or no text.
pub fn read_text(
    alloc: Global,
    members: &[(Text, Json)],
    member: Member,
) -> Result<Option<Text>, NoMemory>
    ensures { IfOk result (λ t. t ≡ text_given member (members_of (pairs_of members.now))) }
{
    match text_given(members, member) {
        Some(text) => Ok(Some(Text::from_str(alloc, text)?)),
        None => Ok(None),
    }
}

fn read_value(
    alloc: Global,
    members: &[(Text, Json)],
    member: Member,
) -> Result<Option<Json>, NoMemory>
    ensures { IfOk result (λ v. option_map tree_of v ≡ given member (members_of (pairs_of members.now))) }
{
    match given(members, member) {
        Some(value) => Ok(Some(copy(alloc, value)?)),
        None => Ok(None),
    }
}

/// The texts of the values, without those that are no texts.
pub fn read_texts(alloc: Global, values: &[Json]) -> Result<Vec<Text>, NoMemory>
    ensures { IfOk result (λ texts. texts.items ≡ spec.texts_of (trees_of values.now)) }
{
    let mut texts = Vec::with_capacity(alloc, values.len())?;
    for value in values {
        if let Json::Str(text) = value {
            texts.push(text.copy(alloc)?)?;
        }
    }
    Ok(texts)
}
