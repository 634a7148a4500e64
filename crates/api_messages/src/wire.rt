//! Bytes in, messages out.
ghost use Rattle.std.specs.Prelude.{◌≡◌, ◌↔◌, ◌≤◌, [], ◌++◌, None, Some, length, drop, OnOk, OnErr, IsOk, IsErrOf, IsTrue, IsFalse};
ghost use Rattle.httparse.specs.Grammar.{HasNoRequest};
ghost use Rattle.api_messages.specs.Messages.{IsAwaited};
ghost use Rattle.api_messages.specs.Reading.{Answers};
ghost use Rattle.api_messages.specs.Between.{AreEmptyLines, HasHead};

use crate::front::{Front, are_empty_lines, has_head, read_front};
use crate::message::{Message, Refusal, WireFault};
use json_text::NoMemory;
use std::alloc::Global;
use std::marker::Model;

/// The incoming half of a connection.
#[derive(Debug, Drop)]
pub struct WireIn {
    alloc: Global,
    buffer: Vec<u8>,
    /// The place of the first byte that no message has taken.
    start: usize,
    refused: Option<Refusal>,
}

impl Model for WireIn {
    ghost use Rattle.std.specs.Prelude.{◌≡◌, ◌≤◌, ◌-◌, Some, length, drop, vec_len, vec_capacity};
    ghost use Rattle.api_messages.specs.declared.message.Refusal.{Refusal as Why};
    ghost use Rattle.api_messages.specs.Messages.{IsRefused};
    ghost use Rattle.api_messages.specs.Reading.{Incoming};

    ghost Value = { Incoming };

    ghost view = { λ w. record {
      rest = drop w.start w.buffer.items;
      refused = w.refused;
      room = vec_capacity w.buffer - vec_len w.buffer;
    } };

    ghost invariant = { λ w. (w.start ≤ length w.buffer.items)
        × ((why : Why) → w.refused ≡ Some why → IsRefused (drop w.start w.buffer.items) why) };
}

impl WireIn {
    pub fn new(alloc: Global) -> WireIn
        ensures rest { result.rest ≡ [] }
        ensures refused { result.refused ≡ None }
    {
        WireIn {
            alloc,
            buffer: Vec::new(alloc),
            start: 0,
            refused: None,
        }
    }

    /// Makes room for `len` more bytes, so that feeding them needs no memory. An `Err` changes nothing.
    pub fn reserve(&mut self, len: usize) -> Result<(), NoMemory>
        ensures room { OnOk result (len ≤ self.new.room) }
        ensures err { OnErr result (self.new ≡ self.old) }
        ensures rest { self.new.rest ≡ self.old.rest }
        ensures refused { self.new.refused ≡ self.old.refused }
    {
        self.buffer.try_reserve(len)?;
        Ok(())
    }

    /// Adds the next bytes of the input. An `Err` adds none.
    pub fn feed(&mut self, piece: &[u8]) -> Result<(), NoMemory>
        ensures ok { OnOk result (self.new.rest ≡ self.old.rest ++ piece.now) }
        ensures err { OnErr result (self.new.rest ≡ self.old.rest) }
        ensures refused { self.new.refused ≡ self.old.refused }
        ensures succeeds { length piece.now ≤ self.old.room → IsOk result }
    {
        self.buffer.extend_from_slice(piece)?;
        Ok(())
    }

    /// The next message. `None` if no whole one is there; the next call then reads its beginning once more.
    /// A refusal is returned by every later call too. Out of memory takes no byte.
    /// Over all calls, at most as many bytes are moved within the buffer as messages took.
    pub fn next(&mut self) -> Result<Option<Message>, WireFault>
        ensures answers { Answers self.old self.new result }
        ensures stays_refused { (why : Refusal) → self.old.refused ≡ Some why → IsErrOf result (WireFault.Refused why) }
    {
        if let Some(why) = self.refused {
            return Err(WireFault::Refused(why));
        }
        let (message, len) = match read_front(self.rest()) {
            Front::Whole(found) => (found.message(self.alloc)?, found.len),
            Front::Awaited => return Ok(None),
            Front::Refused(why) => {
                self.refused = Some(why);
                return Err(WireFault::Refused(why));
            }
        };
        self.take(len);
        Ok(Some(message))
    }

    /// The bytes fed that no message has taken.
    pub fn rest(&self) -> &[u8]
        ensures { result.now ≡ self.now.rest }
    {
        &self.buffer[self.start..]
    }

    /// Whether a whole head is at the front of the rest.
    pub fn has_head(&self) -> bool
        ensures whole { IsTrue result → HasHead self.now.rest }
        ensures none { IsFalse result → IsAwaited self.now.rest → HasNoRequest self.now.rest }
    {
        has_head(self.rest())
    }

    /// Whether only empty lines are left, so that an input that ends here ends between messages.
    pub fn is_between(&self) -> bool
        ensures { IsTrue result ↔ AreEmptyLines self.now.rest }
    {
        are_empty_lines(self.rest())
    }

    fn take(&mut self, len: usize)
        requires in_range { len ≤ length self.old.rest }
        requires served { self.old.refused ≡ None }
        ensures rest { self.new.rest ≡ drop len self.old.rest }
        ensures refused { self.new.refused ≡ self.old.refused }
    {
        self.start += len;
        // A front is dropped once it is the longer half, so fewer bytes are moved than are dropped.
        if self.start > self.buffer.len() / 2 {
            self.buffer.drain(..self.start);
            self.start = 0;
        }
    }
}
