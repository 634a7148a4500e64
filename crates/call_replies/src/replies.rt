//! Replies to requests that are carried out, and the item of a target that failed.
ghost use Rattle.std.specs.Prelude.{◌≡◌, ◌∷◌, [], IfOk, decimal};
ghost use Rattle.json_text.specs.Tree.{text, number};
ghost use Rattle.json_text.specs.View.{tree_of, trees_of};
ghost use Rattle.api_replies.specs.Reply as replies;
ghost use Rattle.api_replies.specs.View.{reply_of};
ghost use Rattle.call_replies.specs.Replies as spec;

use api_replies::{Cause, Reply, push_failure};
use json_text::{Items, Json, Members, NoMemory, Text, push_member, push_text};
use std::alloc::Global;

/// A reply with one member, which is a string.
pub fn text_reply(alloc: Global, key: &str, value: Text) -> Result<Reply, NoMemory>
    ensures { IfOk result (λ r. reply_of r ≡ replies.served ((key.now, text value) ∷ [])) }
{
    let mut members: Members = Vec::with_capacity(alloc, 1)?;
    push_member(alloc, &mut members, key, Json::Str(value))?;
    Ok(Reply {
        status: 200,
        body: Json::Obj(members),
    })
}

/// A reply with one member, which is a number.
pub fn number_reply(alloc: Global, key: &str, value: u64) -> Result<Reply, NoMemory>
    ensures { IfOk result (λ r. reply_of r ≡ replies.served ((key.now, number (decimal value)) ∷ [])) }
{
    let mut members: Members = Vec::with_capacity(alloc, 1)?;
    push_member(alloc, &mut members, key, number_json(alloc, value)?)?;
    Ok(Reply {
        status: 200,
        body: Json::Obj(members),
    })
}

/// The number as JSON.
pub(crate) fn number_json(alloc: Global, value: u64) -> Result<Json, NoMemory>
    ensures { IfOk result (λ j. tree_of j ≡ number (decimal value)) }
{
    Ok(Json::Num(Text::from(format!(in alloc; "{value}")?)))
}

/// A reply with `FailedEntryCount` and a list.
pub fn items_reply(alloc: Global, failed: u64, key: &str, items: Items) -> Result<Reply, NoMemory>
    ensures { IfOk result (λ r. reply_of r ≡ spec.items_reply failed key.now (trees_of items.items)) }
{
    let mut members: Members = Vec::with_capacity(alloc, 2)?;
    push_member(
        alloc,
        &mut members,
        "FailedEntryCount",
        number_json(alloc, failed)?,
    )?;
    push_member(alloc, &mut members, key, Json::List(items))?;
    Ok(Reply {
        status: 200,
        body: Json::Obj(members),
    })
}

/// A reply without a member. Takes no memory.
pub fn empty_reply(alloc: Global) -> Reply
    ensures { reply_of result ≡ spec.empty_reply }
{
    Reply {
        status: 200,
        body: Json::Obj(Vec::new(alloc)),
    }
}

/// The reply to a TestEventPattern, `Result` with whether the pattern matches.
pub fn tested_reply(alloc: Global, matches: bool) -> Result<Reply, NoMemory>
    ensures { IfOk result (λ r. reply_of r ≡ spec.tested_reply matches) }
{
    let mut members: Members = Vec::with_capacity(alloc, 1)?;
    push_member(alloc, &mut members, "Result", Json::Truth(matches))?;
    Ok(Reply {
        status: 200,
        body: Json::Obj(members),
    })
}

/// The item of a target that failed: its id, and the cause.
pub fn target_json(alloc: Global, id: &str, cause: &Cause) -> Result<Json, NoMemory>
    ensures { IfOk result (λ j. tree_of j ≡ spec.target_report (id.now, cause.now)) }
{
    let mut members: Members = Vec::with_capacity(alloc, 3)?;
    push_text(alloc, &mut members, "TargetId", id)?;
    push_failure(alloc, &mut members, cause)?;
    Ok(Json::Obj(members))
}
