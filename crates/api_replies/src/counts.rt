//! The replies to DeliverDue and StepReplays.
ghost use Rattle.std.specs.Prelude.{◌≡◌, ◌+◌, ◌≤◌, [], ◌++◌, length, codes, decimal, IfOk};
ghost use Rattle.api_replies.specs.Reply.{counted, stepped};
ghost use Rattle.api_replies.specs.Written.{reply_text};
ghost use Rattle.api_replies.specs.Pieces as pieces;

use crate::bytes::{FIELDS, head_end, status_line};
use itoa::Buffer;
use json_text::NoMemory;
use std::alloc::Global;
use std::marker::Model;

/// The number of bytes that such a reply has at most.
const ROOM: usize = 256;

/// The number of bytes of its body that are no digits of a count.
const BODY_REST: usize = 53;

/// The number of bytes of the body of a reply to a StepReplays that are no digits of its count.
const STEPS_REST: usize = 10;

/// Room for the reply to a DeliverDue or a StepReplays. It is allocated before the steps are made, so the reply then needs no memory, whatever
/// the counts.
#[derive(Debug, Drop)]
pub struct CountsReply {
    bytes: Vec<u8>,
}

impl Model for CountsReply {
    ghost use Rattle.std.specs.Prelude.{ℕ, ◌≤◌, List, vec_capacity};
    ghost use Rattle.api_replies.specs.declared.counts.TheConstants.{ROOM};

    ghost Value = { List ℕ };

    ghost view = { λ r. r.bytes.items };

    ghost invariant = { λ r. ROOM ≤ vec_capacity r.bytes };
}

impl CountsReply {
    /// Allocates the room.
    pub fn new(alloc: Global) -> Result<CountsReply, NoMemory>
        ensures { IfOk result (λ r. r ≡ []) }
    {
        let bytes = Vec::with_capacity(alloc, ROOM)?;
        Ok(CountsReply { bytes })
    }

    /// The bytes of the reply. They replace those of an earlier one. `close` is true if the connection ends after the reply.
    pub fn fill(
        &mut self,
        attempts: u32,
        delivered: u32,
        dead_lettered: u32,
        dropped: u32,
        close: bool,
    ) -> &[u8]
        ensures { result.now ≡ reply_text (counted (record {
          attempts = attempts;
          delivered = delivered;
          dead_lettered = dead_lettered;
          dropped = dropped;
        })) close }
    {
        self.put_reply(attempts, delivered, dead_lettered, dropped, close);
        self.bytes.as_slice()
    }

    /// The bytes of the reply to a StepReplays that made this number of steps. They replace those of an earlier one. `close` is
    /// true if the connection ends after the reply.
    pub fn fill_steps(&mut self, steps: u32, close: bool) -> &[u8]
        ensures { result.now ≡ reply_text (stepped steps) close }
    {
        self.put_steps(steps, close);
        self.bytes.as_slice()
    }

    fn put_steps(&mut self, steps: u32, close: bool)
        ensures { self.new ≡ reply_text (stepped steps) close }
    {
        let mut digits = Buffer::new();
        let steps = digits.format(steps);
        self.put_head(STEPS_REST + steps.len(), close);
        self.put("{\"Steps\":");
        self.put(steps);
        self.put("}");
    }

    fn put_reply(
        &mut self,
        attempts: u32,
        delivered: u32,
        dead_lettered: u32,
        dropped: u32,
        close: bool,
    )
        ensures { self.new ≡ reply_text (counted (record {
          attempts = attempts;
          delivered = delivered;
          dead_lettered = dead_lettered;
          dropped = dropped;
        })) close }
    {
        let mut first = Buffer::new();
        let mut second = Buffer::new();
        let mut third = Buffer::new();
        let mut fourth = Buffer::new();
        let attempts = first.format(attempts);
        let delivered = second.format(delivered);
        let dead_lettered = third.format(dead_lettered);
        let dropped = fourth.format(dropped);
        self.put_head(
            BODY_REST + attempts.len() + delivered.len() + dead_lettered.len() + dropped.len(),
            close,
        );
        self.put("{\"Attempts\":");
        self.put(attempts);
        self.put(",\"Delivered\":");
        self.put(delivered);
        self.put(",\"DeadLettered\":");
        self.put(dead_lettered);
        self.put(",\"Dropped\":");
        self.put(dropped);
        self.put("}");
    }

    /// Writes the head of a reply with a body of `len` bytes.
    fn put_head(&mut self, len: usize, close: bool)
        ensures head { self.new ≡ pieces.head_text 200 len close }
        ensures short { length self.new ≤ 140 }
    {
        self.bytes.clear();
        self.put(status_line(200));
        self.put(FIELDS);
        self.put(Buffer::new().format(len));
        self.put(head_end(close));
    }

    /// Appends the piece. There is room for it.
    fn put(&mut self, piece: &str)
        requires { length self.old + length piece.now ≤ ROOM }
        ensures put { self.new ≡ self.old ++ piece.now }
        ensures len { length self.new ≡ length self.old + length piece.now }
    {
        match self.bytes.extend_from_slice(piece.as_bytes()) {
            Ok(()) => (),
            Err(_) => unreachable!(),
        }
    }
}
