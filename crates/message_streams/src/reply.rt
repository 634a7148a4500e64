//! The bytes of replies, and a write of them.
ghost use Rattle.std.specs.Prelude.{◌≡◌, IfOk};
ghost use Rattle.router_disk.specs.Faults.{CountsFaults};
ghost use Rattle.router_disk.specs.Sink.{AddsBytes};
ghost use Rattle.api_replies.specs.Reply as replies;
ghost use Rattle.api_replies.specs.View.{reply_of};
ghost use Rattle.api_replies.specs.Written.{IsServedStatus, reply_text};
ghost use Rattle.message_streams.specs.Reply.{text_or, IsFaultText};

use api_members::CallFault;
use api_replies::{Cause, Reply, no_memory_reply, refused_reply, write_reply};
use json_text::{Bytes, NoMemory};
use router_disk::{Failed, Sink};
use std::alloc::Global;

/// The bytes of the reply. `close` is true if the connection ends after it.
pub fn reply_bytes(alloc: Global, reply: &Reply, close: bool) -> Result<Bytes, NoMemory>
    requires { IsServedStatus reply.now.status }
    ensures { IfOk result (λ bytes. bytes ≡ reply_text (reply_of reply.now) close) }
{
    let mut bytes = Bytes::new(alloc);
    write_reply(reply, close, &mut bytes)?;
    Ok(bytes)
}

/// The bytes of the reply to a message that is refused.
pub fn fault_bytes(alloc: Global, fault: CallFault, close: bool) -> Result<Bytes, NoMemory>
    ensures { IfOk result (λ bytes. IsFaultText fault close bytes) }
{
    match fault {
        CallFault::Refused(cause) => refused_bytes(alloc, &cause, close),
        CallFault::NoMemory => Err(NoMemory),
    }
}

fn refused_bytes(alloc: Global, cause: &Cause, close: bool) -> Result<Bytes, NoMemory>
    ensures { IfOk result (λ bytes. bytes ≡ reply_text (replies.refused cause.now) close) }
{
    let reply = refused_reply(alloc, cause)?;
    reply_bytes(alloc, &reply, close)
}

/// Writes the bytes, or the reply `out of memory`.
pub fn respond<K: Sink>(
    bytes: Result<Bytes, NoMemory>,
    close: bool,
    output: &mut K,
) -> Result<(), Failed>
    ensures writes { AddsBytes (K.wrote output.old) (K.wrote output.new) result (text_or bytes close) }
    ensures count { CountsFaults (K.faults output.old) (K.faults output.new) result }
{
    match bytes {
        Ok(bytes) => output.write_all(bytes.as_slice()),
        Err(NoMemory) => output.write_all(no_memory_reply(close)),
    }
}
