//! The next message of an input.
ghost use Rattle.std.specs.Prelude.{◌≡◌, ◌≢◌, ◌<◌, ◌≤◌, ◌∷◌, [], None, length};
ghost use Rattle.std.specs.Io.{ReadsAtMost};
ghost use Rattle.router_disk.specs.Faults.{CountsFaults, Rose};
ghost use Rattle.router_disk.specs.Source.{GivesPiece};
ghost use Rattle.api_messages.specs.Messages.{IsAwaited};
ghost use Rattle.message_streams.specs.Incoming.{LackOf, NextOf, StaysOpen, end_piece};

use api_messages::{Message, Refusal, WireFault, WireIn, awaited_is_short};
use json_text::NoMemory;
use router_disk::{Failed, Source};

/// Why there is no message.
#[derive(Clone, Copy, Debug, PartialEq, Eq)]
pub enum Lack {
    /// The input ended between messages.
    Closed,
    /// The input ended inside a message.
    Cut,
    /// No message begins with the bytes.
    Refused(Refusal),
    /// The input failed.
    ReadFault,
    /// Out of memory. `head` is true if a whole head is buffered.
    NoMemory { head: bool },
}

/// What reading the next message returns.
pub enum Incoming {
    Message(Message),
    Lack(Lack),
}

/// Reads until a message is whole, or returns why there is none. One read takes at most what `piece` has room for.
pub fn next_message<S: Source>(wire: &mut WireIn, input: &mut S, piece: &mut [u8]) -> Incoming
    requires room { 0 < length piece.old }
    requires most { length piece.old ≤ 16384 }
    requires open { wire.old.refused ≡ None }
    ensures next { NextOf (S.gave input.old) (S.gave input.new) wire.old.rest wire.new.rest result }
    ensures open { StaysOpen result wire.new.refused }
    ensures read_fault { result ≡ Incoming.Lack Lack.ReadFault → Rose (S.faults input.old) (S.faults input.new) }
    ensures faultless { result ≢ Incoming.Lack Lack.ReadFault → S.faults input.new ≡ S.faults input.old }
{
    awaited_is_short();
    loop {
        match wire.next() {
            Ok(Some(message)) => return Incoming::Message(message),
            Ok(None) => {}
            Err(WireFault::Refused(why)) => return Incoming::Lack(Lack::Refused(why)),
            Err(WireFault::NoMemory) => return Incoming::Lack(Lack::NoMemory { head: true }),
        }
        // Memory is allocated before the bytes are read, so that every byte taken is in the buffer.
        if let Err(NoMemory) = wire.reserve(piece.len()) {
            let head = wire.has_head();
            return Incoming::Lack(Lack::NoMemory { head });
        }
        match read_piece(wire, input, piece) {
            Ok(0) => return Incoming::Lack(lack_at_end(wire)),
            Ok(count) => match wire.feed(&piece[..count]) {
                Ok(()) => {}
                Err(NoMemory) => unreachable!(),
            },
            Err(Failed) => return Incoming::Lack(Lack::ReadFault),
        }
    }
}

/// Reads once. Between messages it first calls `rests` of the source.
fn read_piece<S: Source>(wire: &WireIn, input: &mut S, piece: &mut [u8]) -> Result<usize, Failed>
    requires room { 0 < length piece.old }
    ensures within { ReadsAtMost result piece.new }
    ensures piece { GivesPiece (S.gave input.old) (S.gave input.new) result piece.new }
    ensures count { CountsFaults (S.faults input.old) (S.faults input.new) result }
{
    if wire.is_between() {
        input.rests();
    }
    input.read(piece)
}

/// Why there is no message if the input ends here.
fn lack_at_end(wire: &WireIn) -> Lack
    requires { IsAwaited wire.now.rest }
    ensures lack { LackOf wire.now.rest result }
    ensures end { end_piece result ≡ [] ∷ [] }
    ensures no_fault { result ≢ Lack.ReadFault }
{
    if wire.is_between() {
        Lack::Closed
    } else {
        Lack::Cut
    }
}
