//! Replies, and the refusals that several calls share.
ghost use Rattle.std.specs.Prelude.{◌≡◌, IfOk};
ghost use Rattle.api_replies.specs.View.{reply_of};
ghost use Rattle.api_replies.specs.Reply as replies;

use crate::cause::Cause;
use json_text::{Json, Members, NoMemory, push_member, push_text};
use std::alloc::Global;

/// A reply: its HTTP status, and its body.
#[derive(Debug, Drop)]
pub struct Reply {
    pub status: u16,
    pub body: Json,
}

/// The reply to a request that is refused for this cause. Its body has the members `__type` and `message`.
pub fn refused_reply(alloc: Global, cause: &Cause) -> Result<Reply, NoMemory>
    ensures { IfOk result (λ reply. reply_of reply ≡ replies.refused cause.now) }
{
    let message = cause.message(alloc)?;
    let mut members: Members = Vec::with_capacity(alloc, 2)?;
    push_text(alloc, &mut members, "__type", cause.type_name())?;
    push_member(alloc, &mut members, "message", Json::Str(message))?;
    Ok(Reply {
        status: 400,
        body: Json::Obj(members),
    })
}

/// The reply when the number limit is reached: no further entry or delivery can be numbered.
pub fn limit_reply(alloc: Global) -> Result<Reply, NoMemory>
    ensures { IfOk result (λ reply. reply_of reply ≡ replies.limit_reply) }
{
    refused_reply(alloc, &Cause::NumberLimit)
}
