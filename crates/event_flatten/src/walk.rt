//! One walk of an event along the wanted paths.
ghost use Rattle.std.specs.Prelude.{◌≡◌, ◌++◌, IsTrue, OnOk};
ghost use Rattle.json_text.specs.Tree.{items_of, members_of};
ghost use Rattle.json_text.specs.View.{tree_of, trees_of, pairs_of};
ghost use Rattle.event_flatten.specs.Leaves.{is_scalar};
ghost use Rattle.event_flatten.specs.Walk.{ends, found_in, found_in_items, found_in_members};
ghost use Rattle.event_flatten.specs.Wanted.{wants_of};

use crate::found::Found;
use crate::wanted::Wanted;
use json_text::{Json, NoMemory, Text};

/// Adds the leaves that are wanted of the value.
#[cycle(walk)]
pub(crate) fn walk<'e>(
    wanted: Wanted<'_>,
    value: &'e Json,
    found: &mut Found<'e>,
) -> Result<(), NoMemory>
    ensures { OnOk result (found.new ≡ found.old ++ found_in (wants_of wanted.entry) (tree_of value.now)) }
{
    match value {
        Json::List(items) => walk_items(wanted, items, found),
        Json::Obj(members) => walk_members(wanted, members, found),
        Json::Null | Json::Truth(_) | Json::Num(_) | Json::Str(_) => add(wanted, value, found),
    }
}

/// Follows each item of a list.
#[cycle(walk)]
fn walk_items<'e>(
    wanted: Wanted<'_>,
    items: &'e [Json],
    found: &mut Found<'e>,
) -> Result<(), NoMemory>
    ensures { OnOk result (found.new ≡ found.old ++ found_in_items (wants_of wanted.entry) (items_of (trees_of items.now))) }
{
    for item in items {
        walk(wanted, item, found)?;
    }
    Ok(())
}

/// Follows the members of an object that something is wanted of. All others are skipped whole.
#[cycle(walk)]
fn walk_members<'e>(
    wanted: Wanted<'_>,
    members: &'e [(Text, Json)],
    found: &mut Found<'e>,
) -> Result<(), NoMemory>
    ensures { OnOk result (found.new ≡ found.old ++ found_in_members (wants_of wanted.entry) (members_of (pairs_of members.now))) }
{
    for (key, inside) in members {
        if let Some(below) = wanted.below(key.as_str()) {
            walk(below, inside, found)?;
        }
    }
    Ok(())
}

/// Adds a scalar, if one of the wanted paths ends at it.
fn add<'e>(wanted: Wanted<'_>, scalar: &'e Json, found: &mut Found<'e>) -> Result<(), NoMemory>
    requires { IsTrue (is_scalar (tree_of scalar.now)) }
    ensures { OnOk result (found.new ≡ found.old ++ ends (tree_of scalar.now) (wants_of wanted.entry)) }
{
    match wanted.ended() {
        Some(number) => found.push(number, scalar),
        None => Ok(()),
    }
}
