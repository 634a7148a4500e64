// A connection's socket, which its source, its sink and its door share.
ghost use Rattle.std.specs.Prelude.{◌≡◌, ◌⊎◌, ◌↔◌, IsTrue, min};
ghost use Rattle.std.specs.Duration.{as_nanos};
ghost use Rattle.std.specs.Io.{ReadsAtMost, WritesAtMost};

use crate::ending::shorter;
use crate::times::Times;
use std::io;
use std::io::{ErrorKind, Read, Write};
use std::net::{Shutdown, TcpStream};
use std::sync::atomic::{AtomicBool, AtomicU64, Ordering};
use std::time::Duration;

/// How many milliseconds one wait of the system lasts at most. Linux ends a wait of 16.4 s or more up to 2 s late, and one of
/// 16 s within 0.3 s, if its timers tick 250 times a second.
const LONGEST_WAIT: u64 = 16_000;

/// In place of a time: the connection does not wait for that.
const NEVER: u64 = u64::MAX;

/// A socket; whether a reply was written since the source last looked; what the connection waits for, and since when, for
/// its door; and when its door will look at it. Its times are in nanoseconds since its door was opened.
#[derive(Drop)]
pub struct Connection {
    stream: TcpStream,
    replied: AtomicBool,
    number: u64,
    idle: AtomicU64,
    message: AtomicU64,
    /// The times by which its door has it among those that may be idle, and among those that may be inside a message.
    pub(crate) idle_place: AtomicU64,
    pub(crate) message_place: AtomicU64,
    ended: AtomicBool,
}

impl Connection {
    /// A connection that begins now over an accepted socket, with no Nagle delay. `number` is its place among those of its
    /// door, by which two that began in the same nanosecond differ. Fails if the system does.
    pub fn new(stream: TcpStream, number: u64, now: u64) -> io::Result<Connection> {
        stream.set_nodelay(true)?;
        Ok(Connection {
            stream,
            replied: AtomicBool::new(false),
            number,
            idle: AtomicU64::new(now),
            message: AtomicU64::new(NEVER),
            idle_place: AtomicU64::new(now),
            message_place: AtomicU64::new(now),
            ended: AtomicBool::new(false),
        })
    }

    pub(crate) fn number(&self) -> u64 {
        self.number
    }

    /// Sets how long a read waits at most. Fails if `wait` is zero, or the system fails.
    pub fn set_wait(&self, wait: Duration) -> io::Result<()> {
        self.stream.set_read_timeout(Some(wait))
    }

    /// Reads once. Waits for bytes, or until its time is over.
    pub fn read(&self, buf: &mut [u8]) -> io::Result<usize>
        ensures { ReadsAtMost result buf.new }
    {
        (&self.stream).read(buf)
    }

    /// Writes once. Waits at most `wait` for room.
    pub fn write(&self, bytes: &[u8], wait: Duration) -> io::Result<usize>
        ensures { WritesAtMost result bytes.now }
    {
        self.stream.set_write_timeout(Some(wait))?;
        (&self.stream).write(bytes)
    }

    /// Notes that a reply was written.
    pub fn note_reply(&self) {
        self.replied.store(true, Ordering::SeqCst);
    }

    /// Whether a reply was written since the last call.
    pub fn take_reply(&self) -> bool {
        self.replied.swap(false, Ordering::SeqCst)
    }

    /// Shows the door what the connection waits for.
    pub fn show(&self, times: Times) {
        self.idle
            .store(times.idle_since().unwrap_or(NEVER), Ordering::SeqCst);
        self.message
            .store(times.message_since().unwrap_or(NEVER), Ordering::SeqCst);
    }

    /// Since when it is idle between messages, if it is.
    pub(crate) fn idle_since(&self) -> Option<u64> {
        time_in(&self.idle)
    }

    /// Since when it waits for the rest of a message, if it does.
    pub(crate) fn message_since(&self) -> Option<u64> {
        time_in(&self.message)
    }

    /// Ends the receiving side: a read that waits returns, and later ones find what has arrived and then the end. What is
    /// written still goes to the client.
    pub(crate) fn end_receiving(&self) {
        self.ended.store(true, Ordering::SeqCst);
        let _ = self.stream.shutdown(Shutdown::Read);
    }

    /// Whether its door has ended the receiving side for a client that waits.
    pub fn is_ended(&self) -> bool {
        self.ended.load(Ordering::SeqCst)
    }

    /// Ends the sending side. From then on a read does not wait.
    pub(crate) fn end_sending(&self) -> io::Result<()> {
        self.stream.shutdown(Shutdown::Write)?;
        self.stream.set_nonblocking(true)
    }
}

fn time_in(word: &AtomicU64) -> Option<u64> {
    match word.load(Ordering::SeqCst) {
        NEVER => None,
        time => Some(time),
    }
}

/// How long one read or write waits if so much time is left: at most 16 s. After that it is made again.
pub fn one_wait(left: Duration) -> Duration
    ensures { as_nanos result ≡ min (as_nanos left) 16_000_000_000 }
{
    shorter(left, Duration::from_millis(LONGEST_WAIT))
}

/// Whether a call of the system that failed so may be made again.
pub fn is_waiting(kind: ErrorKind) -> bool
    ensures { IsTrue result ↔ ((kind ≡ ErrorKind.Interrupted) ⊎ (kind ≡ ErrorKind.WouldBlock) ⊎ (kind ≡ ErrorKind.TimedOut)) }
{
    matches!(
        kind,
        ErrorKind::Interrupted | ErrorKind::WouldBlock | ErrorKind::TimedOut
    )
}
