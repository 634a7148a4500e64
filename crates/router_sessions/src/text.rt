//! The bytes of a turn's reply.
ghost use Rattle.std.specs.Prelude.{◌≡◌, IfOk, OnErr};
ghost use Rattle.router_history.specs.Answered.{turn_text, IsUnrendered, IsRenderable};

use json_text::{Bytes, NoMemory};
use message_streams::reply_bytes;
use router_history::TurnReply;
use std::alloc::Global;

/// The bytes of a turn's reply. Only bytes that are not made yet need memory.
pub(crate) fn turn_bytes(alloc: Global, reply: TurnReply, close: bool) -> Result<Bytes, NoMemory>
    requires { IsRenderable reply }
    ensures ok { IfOk result (λ bytes. bytes ≡ turn_text reply close) }
    ensures err { OnErr result (IsUnrendered reply) }
{
    match reply {
        TurnReply::Rendered(bytes) => Ok(bytes),
        TurnReply::Unrendered(reply) => reply_bytes(alloc, &reply, close),
    }
}
