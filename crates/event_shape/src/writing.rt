//! The pieces of an event's tree and of its text.
ghost use Rattle.std.specs.Prelude.{◌≡◌, ◌++◌, ◌∷◌, [], map, Some, IfOk, OnOk};
ghost use Rattle.std.specs.Option.{option_copied};
ghost use Rattle.std.specs.Str.{IsUtf8};
ghost use Rattle.json_text.specs.Tree.{text, members_of};
ghost use Rattle.json_text.specs.View.{tree_of, trees_of, pairs_of};
ghost use Rattle.json_text.specs.Compact.{compact_text, members_text, more_members_text, IsValue};
ghost use Rattle.event_shape.specs.Event.{IsUtf8IfGiven, replay_member};

use json_text::{Bytes, Items, Json, Members, NoMemory, Text, push_member, write};
use std::alloc::Global;

pub(crate) fn text_of_bytes(alloc: Global, bytes: &Bytes) -> Result<Text, NoMemory>
    requires { IsUtf8 bytes.now }
    ensures { IfOk result (λ t. t ≡ bytes.now) }
{
    match str::from_utf8(bytes.as_slice()) {
        Ok(text) => Text::from_str(alloc, text),
        Err(_) => unreachable!(),
    }
}

/// The value's compact text.
pub(crate) fn text_of_value(alloc: Global, json: &Json) -> Result<Text, NoMemory>
    requires { IsValue (tree_of json.now) }
    ensures { IfOk result (λ t. t ≡ compact_text (tree_of json.now)) }
{
    let mut out = Bytes::new(alloc);
    write(json, &mut out)?;
    text_of_bytes(alloc, &out)
}

/// Adds a member whose value is the string of this text, without a copy of it.
pub(crate) fn push_own(
    alloc: Global,
    members: &mut Members,
    key: &str,
    value: Text,
) -> Result<(), NoMemory>
    ensures { OnOk result (pairs_of members.new.items ≡ pairs_of members.old.items ++ (key.now, text value) ∷ []) }
{
    push_member(alloc, members, key, Json::Str(value))
}

/// Writes the object of these members without its last byte.
pub(crate) fn write_open(members: Members, out: &mut Bytes) -> Result<(), NoMemory>
    ensures { OnOk result (out.new ≡ out.old ++ 123 ∷ members_text (members_of (pairs_of members.items))) }
{
    write(&Json::Obj(members), out)?;
    out.truncate(out.len() - 1);
    Ok(())
}

/// Writes the member with the replay's name, if there is one, after other members.
pub(crate) fn push_replay(
    alloc: Global,
    replay: Option<&str>,
    out: &mut Bytes,
) -> Result<(), NoMemory>
    ensures pushed { OnOk result (out.new ≡ out.old ++ more_members_text (members_of (replay_member (option_copied replay.entry)))) }
    ensures utf8 { OnOk result (IsUtf8IfGiven (option_copied replay.entry)) }
{
    match replay {
        Some(name) => push_replay_name(alloc, name, out),
        None => Ok(()),
    }
}

fn push_replay_name(alloc: Global, name: &str, out: &mut Bytes) -> Result<(), NoMemory>
    ensures pushed { OnOk result (out.new ≡ out.old ++ more_members_text (members_of (replay_member (Some name.now)))) }
    ensures utf8 { IsUtf8 name.now }
{
    let name = Json::Str(Text::from_str(alloc, name)?);
    out.extend(b",\"replay-name\":")?;
    write(&name, out)
}

pub(crate) fn text_items(alloc: Global, texts: &[Text]) -> Result<Items, NoMemory>
    ensures { IfOk result (λ items. trees_of items.items ≡ map text texts.now) }
{
    let mut items = Vec::with_capacity(alloc, texts.len())?;
    for text in texts {
        items.push(Json::Str(text.copy(alloc)?))?;
    }
    Ok(items)
}
