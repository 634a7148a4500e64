//! Access to the members of an object and to the text of a string.
ghost use Rattle.std.specs.Prelude.{◌≡◌, ◌++◌, ◌∷◌, [], OnOk, OnErr};
ghost use Rattle.std.specs.Option.{option_map, option_copied};
ghost use Rattle.std.specs.Str.{IsUtf8};
ghost use Rattle.json_text.specs.Tree.{text, members_of};
ghost use Rattle.json_text.specs.View.{tree_of, pairs_of};
ghost use Rattle.json_text.specs.Access.{member_in, member_of, is_object, text_in};

use super::{Json, Members, NoMemory, Text};
use std::alloc::Global;

impl Json {
    /// The value of the first member with the key. `None` if the value is no object or has no such member.
    pub fn member(&self, key: &str) -> Option<&Json>
        ensures { option_map tree_of (option_copied result) ≡ member_of key.now (tree_of self.now) }
    {
        match self {
            Json::Obj(members) => member_at(members, key),
            Json::Null | Json::Truth(_) | Json::Num(_) | Json::Str(_) | Json::List(_) => None,
        }
    }

    pub fn is_object(&self) -> bool
        ensures { result ≡ is_object (tree_of self.now) }
    {
        match self {
            Json::Obj(_) => true,
            Json::Null | Json::Truth(_) | Json::Num(_) | Json::Str(_) | Json::List(_) => false,
        }
    }

    /// The text of a string. `None` if the value is no string.
    pub fn as_text(&self) -> Option<&str>
        ensures { option_copied result ≡ text_in (tree_of self.now) }
    {
        match self {
            Json::Str(text) => Some(text.as_str()),
            Json::Null | Json::Truth(_) | Json::Num(_) | Json::List(_) | Json::Obj(_) => None,
        }
    }
}

/// The value of the first member with the key. `None` if there is no such member.
pub fn member_at<'a>(members: &'a [(Text, Json)], key: &str) -> Option<&'a Json>
    ensures { option_map tree_of (option_copied result)
        ≡ member_in key.now (members_of (pairs_of members.now)) }
{
    for (name, value) in members {
        if name.as_str() == key {
            return Some(value);
        }
    }
    None
}

/// Adds a member at the end. After an `Err` the members are as before.
pub fn push_member(
    alloc: Global,
    members: &mut Members,
    key: &str,
    value: Json,
) -> Result<(), NoMemory>
    ensures pushed { OnOk result (pairs_of members.new.items ≡ pairs_of members.old.items ++ (key.now, tree_of value) ∷ []) }
    ensures unchanged { OnErr result (members.new.items ≡ members.old.items) }
{
    let key = Text::from_str(alloc, key)?;
    members.push((key, value))?;
    Ok(())
}

/// Adds a member whose value is a string, at the end. After an `Err` the members are as before.
pub fn push_text(
    alloc: Global,
    members: &mut Members,
    key: &str,
    value: &str,
) -> Result<(), NoMemory>
    ensures utf8 { IsUtf8 value.now }
    ensures pushed { OnOk result (pairs_of members.new.items ≡ pairs_of members.old.items ++ (key.now, text value.now) ∷ []) }
    ensures unchanged { OnErr result (members.new.items ≡ members.old.items) }
{
    let value = Text::from_str(alloc, value)?;
    push_member(alloc, members, key, Json::Str(value))
}
