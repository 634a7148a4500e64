// The bytes of a reply that have arrived.
use http_target::{Reply, read_reply};
use std::io;
use std::io::Read;
use std::marker::Model;
use std::net::OpenStream;
use tcp_connections::is_waiting;

/// How many bytes the heads of a reply may have together.
const HEADS_LIMIT: usize = 16_384;

/// The first bytes of a reply, at most 16,384. They need no memory.
#[derive(Drop)]
pub(crate) struct Heads {
    bytes: [u8; HEADS_LIMIT],
    len: usize,
}

impl Model for Heads {
    ghost use Rattle.std.specs.Prelude.{ℕ, ◌≤◌};

    ghost Value = { ℕ };

    ghost view = { λ h. h.len };

    ghost invariant = { λ h. h.len ≤ 16384 };
}

impl Heads {
    pub(crate) fn new() -> Heads {
        Heads {
            bytes: [0; HEADS_LIMIT],
            len: 0,
        }
    }

    /// What the bytes show.
    pub(crate) fn reply(&self) -> Reply {
        read_reply(&self.bytes[..self.len])
    }

    /// Whether further bytes may decide the reply.
    pub(crate) fn is_awaited(&self) -> bool {
        matches!(self.reply(), Reply::NotYet(_))
    }

    /// Reads once. Returns the number of bytes, 0 at the end.
    pub(crate) fn read<R: Read>(&mut self, stream: &mut R) -> io::Result<usize> {
        match stream.read(&mut self.bytes[self.len..]) {
            Ok(count) => {
                self.len += count;
                Ok(count)
            }
            Err(fault) => Err(fault),
        }
    }

    /// Reads what has arrived, without waiting. Returns whether the connection has ended or failed.
    pub(crate) fn take_arrived<R: Read + OpenStream>(&mut self, stream: &mut R) -> bool {
        if stream.set_nonblocking(true).is_err() {
            return true;
        }
        for _ in 0..u64::MAX {
            if !self.is_awaited() {
                break;
            }
            match self.read(stream) {
                Ok(0) => return true,
                Ok(_) => (),
                Err(fault) => {
                    if !is_waiting(fault.kind()) {
                        return true;
                    }
                    break;
                }
            }
        }
        stream.set_nonblocking(false).is_err()
    }

    /// Reads what has arrived. Returns whether no further bytes are of use: the reply is decided,
    /// or none follow.
    pub(crate) fn is_settled_by<R: Read + OpenStream>(&mut self, stream: &mut R) -> bool {
        self.take_arrived(stream) || !self.is_awaited()
    }
}
