// What a connection waits for, by the times of its bytes and its replies.
ghost use Rattle.std.specs.Prelude.{◌≡◌, ◌-◌, Some, None, true, false, MatchOption, IfSome, if◌then◌else◌};
ghost use Rattle.std.specs.Duration.{as_nanos};
ghost use Rattle.tcp_connections.specs.Ending.{idle_since, message_since};

use crate::ending::Waited;
use std::time::Duration;

/// The times of a connection, each in nanoseconds since its door was opened.
#[derive(Clone, Copy)]
pub struct Times {
    /// The last byte or the last reply, whichever came later; before both, the beginning of the connection.
    pub last: u64,
    /// The first byte of the unfinished message. `None` between messages.
    pub message: Option<u64>,
    /// Whether its session has bytes to answer. It does not wait for its client then.
    pub is_busy: bool,
}

impl Times {
    /// A connection that begins now.
    pub fn new(now: u64) -> Times
        ensures { result ≡ record { last = now; message = None; is_busy = false } }
    {
        Times {
            last: now,
            message: None,
            is_busy: false,
        }
    }

    /// A read begins. The session reads only if it has no whole message, so what is left after a reply came with the last
    /// bytes. `rests` says that nothing is left.
    pub fn at_read(self, now: u64, replied: bool, rests: bool) -> Times
        ensures busy { result.is_busy ≡ false }
        ensures last { result.last ≡ (if replied then now else self.last) }
        ensures message { result.message ≡ (if rests then None else (if replied then Some self.last else self.message)) }
    {
        let (last, message) = if replied {
            (now, Some(self.last))
        } else {
            (self.last, self.message)
        };
        Times {
            last,
            message: if rests { None } else { message },
            is_busy: false,
        }
    }

    /// Bytes came. Until the next read the session is busy, also while it writes a reply.
    pub fn at_bytes(self, now: u64) -> Times
        ensures busy { result.is_busy ≡ true }
        ensures last { result.last ≡ now }
        ensures message { MatchOption self.message (result.message ≡ Some now) (λ first. result.message ≡ Some first) }
    {
        Times {
            last: now,
            message: Some(self.message.unwrap_or(now)),
            is_busy: true,
        }
    }

    /// Since when it is idle between messages, if it is.
    pub fn idle_since(self) -> Option<u64>
        ensures { result ≡ idle_since self.is_busy self.message self.last }
    {
        match self.message {
            None if !self.is_busy => Some(self.last),
            _ => None,
        }
    }

    /// Since when it waits for the rest of a message, if it does.
    pub fn message_since(self) -> Option<u64>
        ensures { result ≡ message_since self.is_busy self.message }
    {
        if self.is_busy { None } else { self.message }
    }

    /// How long it has waited for its client.
    pub fn waited(self, now: u64) -> Waited
        ensures idle { as_nanos result.idle ≡ now - self.last }
        ensures message { MatchOption self.message (result.message ≡ None)
            (λ first. IfSome result.message (λ time. as_nanos time ≡ now - first)) }
    {
        Waited {
            idle: since(self.last, now),
            message: self.message.map(|first| since(first, now)),
        }
    }
}

/// The time from one time to another; none, if that is not later.
pub(crate) fn since(start: u64, now: u64) -> Duration
    ensures { as_nanos result ≡ now - start }
{
    Duration::from_nanos(now.saturating_sub(start))
}
