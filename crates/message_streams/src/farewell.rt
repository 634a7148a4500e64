//! The end of a session, once no message follows.
ghost use Rattle.std.specs.Prelude.{◌≡◌, ◌≢◌};
ghost use Rattle.router_disk.specs.Faults.{Rose};
ghost use Rattle.message_streams.specs.Farewell.{IsFinish};

use crate::gated::Gated;
use crate::incoming::Lack;
use crate::refused::refusal_bytes;
use api_replies::no_memory_reply;
use bus_host::Gate;
use router_disk::{Failed, Sink};
use std::sync::Wait;

/// Why a session ended.
#[derive(Clone, Copy, Debug, PartialEq, Eq)]
pub enum SessionEnd {
    /// The input ended between messages, or a message asked to close.
    Closed,
    /// The input ended inside a message.
    Cut,
    /// No message begins with the bytes. The rest of the input is unread.
    Refused,
    /// The request limit of a session is reached.
    Long,
    /// The input failed.
    ReadFault,
    /// The output failed.
    WriteFault,
    /// Out of memory while a message was read.
    NoMemory,
}

/// Writes the last reply, if there is one, when there is no further message. It takes no memory.
pub fn finish<Rt: Wait, K: Sink, G: Gate>(
    lack: Lack,
    gated: Gated<'_, Rt, G>,
    output: &mut K,
) -> SessionEnd
    ensures finish { IsFinish lack (K.wrote output.old) (K.wrote output.new) result }
    ensures write_fault { result ≡ SessionEnd.WriteFault → Rose (K.faults output.old) (K.faults output.new) }
    ensures output_faultless { result ≢ SessionEnd.WriteFault → K.faults output.new ≡ K.faults output.old }
    ensures read_fault { result ≡ SessionEnd.ReadFault → lack ≡ Lack.ReadFault }
{
    match lack {
        Lack::Closed => SessionEnd::Closed,
        Lack::Cut => SessionEnd::Cut,
        Lack::ReadFault => SessionEnd::ReadFault,
        Lack::NoMemory { head: false } => SessionEnd::NoMemory,
        Lack::NoMemory { head: true } => {
            gated.at_reply();
            match output.write_all(no_memory_reply(true)) {
                Ok(()) => SessionEnd::NoMemory,
                Err(Failed) => SessionEnd::WriteFault,
            }
        }
        Lack::Refused(why) => {
            gated.at_reply();
            match output.write_all(refusal_bytes(why)) {
                Ok(()) => SessionEnd::Refused,
                Err(Failed) => SessionEnd::WriteFault,
            }
        }
    }
}
