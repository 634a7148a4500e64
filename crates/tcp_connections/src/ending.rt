// When a connection ends without its client's doing.
ghost use Rattle.std.specs.Prelude.{◌≡◌, ◌↔◌, IsTrue, min};
ghost use Rattle.std.specs.Duration.{as_nanos};
ghost use Rattle.tcp_connections.specs.Ending.{IsOver, left_of, rest_of};

use std::time::Duration;

/// How many milliseconds a connection may be without a byte and a reply.
const IDLE: u64 = 20_000;

/// How many milliseconds a message may take from its first byte on.
const MESSAGE: u64 = 60_000;

/// How many milliseconds a connection may be idle between messages while another client waits.
const SPARED: u64 = 250;

/// How many milliseconds a message may take from its first byte on while another client waits.
const LONG: u64 = 5_000;

/// How long a connection has waited for its client.
#[derive(Clone, Copy, Debug)]
pub struct Waited {
    /// The time since the last byte or the last reply, whichever came later.
    pub idle: Duration,
    /// The time since the first byte of the unfinished message. `None` between messages.
    pub message: Option<Duration>,
}

impl Waited {
    /// Whether the connection is over: after 20 s without a byte and a reply, 60 s after the first byte of an unfinished
    /// message, and if another client waits for a connection after 0.25 s between messages, and 5 s after the first byte of
    /// an unfinished message.
    pub fn is_over(self, another_waits: bool) -> bool
        ensures { IsTrue result ↔ IsOver self.idle self.message another_waits }
    {
        match self.message {
            None => {
                self.idle >= Duration::from_millis(IDLE)
                    || another_waits && self.idle >= Duration::from_millis(SPARED)
            }
            Some(since) => {
                self.idle >= Duration::from_millis(IDLE)
                    || since >= Duration::from_millis(MESSAGE)
                    || another_waits && since >= Duration::from_millis(LONG)
            }
        }
    }

    /// How long it may still wait while no client waits. If it is its program's only one at a time, `spares` is true, and it
    /// may be idle between messages only as long as if another client waited.
    pub fn left(self, spares: bool) -> Duration
        ensures { as_nanos result ≡ left_of self.idle self.message spares }
    {
        match self.message {
            None if spares => rest(SPARED, self.idle),
            None => rest(IDLE, self.idle),
            Some(since) => shorter(rest(IDLE, self.idle), rest(MESSAGE, since)),
        }
    }
}

fn rest(millis: u64, spent: Duration) -> Duration
    ensures { as_nanos result ≡ rest_of millis spent }
{
    Duration::from_millis(millis).saturating_sub(spent)
}

/// The shorter one of two times.
pub(crate) fn shorter(one: Duration, other: Duration) -> Duration
    ensures { as_nanos result ≡ min (as_nanos one) (as_nanos other) }
{
    if other < one { other } else { one }
}
