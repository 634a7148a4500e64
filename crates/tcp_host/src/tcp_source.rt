// The source of a connection over TCP. It ends the input of a client that waits too long.
ghost use Rattle.std.specs.Prelude.{◌≡◌, []};
ghost use Rattle.std.specs.Io.{ReadsAtMost};

use crate::alone::Alone;
use bus_host::raise;
use journal_disk::FaultFlag;
use router_disk::{Failed, Pieces, Source};
use std::sync::Arc;
use std::time::{Clock, Duration, Instant};
use tcp_connections::{Connection, Times, is_waiting};

/// How many milliseconds a read may wait too long or too short, so that not each read sets its time anew.
const SLACK: u64 = 50;

/// How many milliseconds a read of the socket waits at most. After that it is made again, so that a connection that waits for its client
/// notices within a second that the flag is set.
const LOOK: u64 = 1_000;

/// The bytes that a client sends. The input ends at the client's end, when `Waited::is_over` says so while no other client waits,
/// and when the door ends it for another client; a connection that had no reply yet is read once more then. By the monotonic
/// clock; if the clock fails, the read fails. Once the flag of the door is set, the input also ends between messages, within a
/// second, and at the first read after a reply, even if a part of the next message has come. A connection that has sent nothing yet
/// is read once more then.
#[derive(Drop)]
pub struct TcpSource<C> {
    pub(crate) connection: Arc<Connection>,
    alone: Arc<Alone>,
    flag: FaultFlag,
    clock: C,
    /// When the door was opened.
    start: Instant,
    times: Times,
    /// Whether the next read is between messages.
    rests: bool,
    /// Whether a reply was written. Before the first one the socket is read even if the door has ended the connection, so
    /// that a request that has arrived is not lost.
    answered: bool,
    /// Whether bytes have come. Before them the socket is read even if the flag is set.
    began: bool,
    /// How long a read of the socket waits, at most 1 s; zero, if no time is set yet.
    wait: Duration,
    gave: Pieces,
    faults: u64,
}

impl<C: Clock> TcpSource<C> {
    /// A source of a connection that begins now, in nanoseconds since the door was opened.
    pub(crate) fn new(
        connection: Arc<Connection>,
        alone: Arc<Alone>,
        flag: FaultFlag,
        clock: C,
        start: Instant,
        now: u64,
    ) -> Self
        ensures gave { result.gave ≡ [] }
        ensures faults { result.faults ≡ 0 }
    {
        TcpSource {
            connection,
            alone,
            flag,
            clock,
            start,
            times: Times::new(now),
            rests: false,
            answered: false,
            began: false,
            wait: Duration::ZERO,
            gave: Pieces::new(),
            faults: 0,
        }
    }

    fn now(&self) -> Result<u64, Failed> {
        match Instant::now(&self.clock) {
            Ok(now) => Ok(nanos_between(self.start, now)),
            Err(_) => Err(Failed),
        }
    }

    /// Reads until there are bytes or the input ends.
    fn read_on(&mut self, buf: &mut [u8]) -> Result<usize, Failed>
        ensures within { ReadsAtMost result buf.new }
        ensures gave { self.new.gave ≡ self.old.gave }
        ensures faults { self.new.faults ≡ self.old.faults }
    {
        let rests = self.rests;
        let replied = self.begin()?;
        if rests && self.answered && self.connection.is_ended() {
            return Ok(0);
        }
        if self.began && (rests || replied) && self.flag.is_set() {
            return Ok(0);
        }
        for _ in 0..u64::MAX {
            match self.connection.read(buf) {
                Ok(0) => return Ok(0),
                Ok(count) => {
                    self.note_bytes();
                    return Ok(count);
                }
                Err(fault) => {
                    if !is_waiting(fault.kind()) {
                        return Err(Failed);
                    }
                }
            }
            if self.is_over()? {
                return Ok(0);
            }
        }
        Err(Failed)
    }

    /// Takes note of the replies since the last read, shows the door that the session waits, and sets how long. Returns whether there
    /// was a reply.
    fn begin(&mut self) -> Result<bool, Failed>
        ensures gave { self.new.gave ≡ self.old.gave }
        ensures faults { self.new.faults ≡ self.old.faults }
    {
        let now = self.now()?;
        let replied = self.connection.take_reply();
        self.answered = self.answered | replied;
        self.times = self.times.at_read(now, replied, self.rests);
        self.rests = false;
        self.connection.show(self.times);
        self.set_wait(now)?;
        Ok(replied)
    }

    /// Takes note of bytes. A clock that fails does not lose them.
    fn note_bytes(&mut self)
        ensures gave { self.new.gave ≡ self.old.gave }
        ensures faults { self.new.faults ≡ self.old.faults }
    {
        let now = self.now().unwrap_or(self.times.last);
        self.times = self.times.at_bytes(now);
        self.began = true;
        self.connection.show(self.times);
    }

    /// Whether the input ends here. If it does not, sets how long the next read of the socket waits.
    fn is_over(&mut self) -> Result<bool, Failed>
        ensures gave { self.new.gave ≡ self.old.gave }
        ensures faults { self.new.faults ≡ self.old.faults }
    {
        let now = self.now()?;
        let waited = self.times.waited(now);
        let rests = waited.message.is_none();
        if waited.is_over(rests && self.alone.get()) || rests && self.flag.is_set() {
            return Ok(true);
        }
        self.set_wait(now)?;
        Ok(false)
    }

    /// Has a read of the socket wait until the input is over, within 50 ms, and at least 1 ms; but at most 1 s, after which
    /// it is made again.
    fn set_wait(&mut self, now: u64) -> Result<(), Failed>
        ensures gave { self.new.gave ≡ self.old.gave }
        ensures faults { self.new.faults ≡ self.old.faults }
    {
        let left = self.times.waited(now).left(self.alone.get());
        let left = left.min(Duration::from_millis(LOOK));
        let slack = Duration::from_millis(SLACK);
        if self.wait.saturating_sub(left) < slack
            && left.saturating_sub(self.wait) < slack
            && left >= slack
        {
            return Ok(());
        }
        let left = left.max(Duration::from_millis(1));
        match self.connection.set_wait(left) {
            Ok(()) => {
                self.wait = left;
                Ok(())
            }
            Err(_) => Err(Failed),
        }
    }
}

/// The nanoseconds from one time to another; 0, if that is not later.
pub(crate) fn nanos_between(start: Instant, now: Instant) -> u64 {
    u64::try_from(now.duration_since(start).as_nanos()).unwrap_or(u64::MAX)
}

impl<C: Clock + Send> Source for TcpSource<C> {
    ghost use Rattle.std.specs.Prelude.{None};

    ghost left = { λ s. None };

    ghost gave = { λ s. s.gave };

    ghost faults = { λ s. s.faults };

    fn faults(&self) -> u64 {
        self.faults
    }

    fn rests(&mut self) {
        self.rests = true;
    }

    fn read(&mut self, buf: &mut [u8]) -> Result<usize, Failed> {
        if self.faults == u64::MAX {
            return Err(Failed);
        }
        match self.read_on(buf) {
            Ok(count) => {
                self.gave.hear(&buf[..count]);
                Ok(count)
            }
            Err(Failed) => {
                raise(&mut self.faults);
                Err(Failed)
            }
        }
    }
}
