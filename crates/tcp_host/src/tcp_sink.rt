// The sink of a connection over TCP.
ghost use Rattle.std.specs.Prelude.{◌≡◌, []};
ghost use Rattle.router_disk.specs.Sink.{AddsBytes};

use bus_host::raise;
use router_disk::{Failed, Heard, Sink};
use std::sync::Arc;
use std::time::{Clock, Duration, Instant};
use tcp_connections::{Connection, is_waiting, one_wait};

/// How many seconds a reply may take until the system has taken all of it.
const LIMIT: u64 = 20;

/// The replies to a client. A reply that the system has not wholly taken within 20 s by the monotonic clock fails, and
/// so does one whose clock fails.
#[derive(Drop)]
pub struct TcpSink<C> {
    connection: Arc<Connection>,
    clock: C,
    wrote: Heard,
    faults: u64,
}

impl<C: Clock> TcpSink<C> {
    pub(crate) fn new(connection: Arc<Connection>, clock: C) -> Self
        ensures wrote { result.wrote ≡ [] }
        ensures faults { result.faults ≡ 0 }
    {
        TcpSink {
            connection,
            clock,
            wrote: Heard::new(),
            faults: 0,
        }
    }

    /// Writes until all is written or the time is over.
    fn write_on(&mut self, bytes: &[u8]) -> Result<(), Failed>
        ensures wrote { AddsBytes self.old.wrote self.new.wrote result bytes.now }
        ensures faults { self.new.faults ≡ self.old.faults }
    {
        let Ok(start) = Instant::now(&self.clock) else {
            return Err(Failed);
        };
        let mut rest = bytes;
        for _ in 0..u64::MAX {
            if rest.is_empty() {
                self.connection.note_reply();
                return Ok(());
            }
            let left = self.left(start);
            if left.is_zero() {
                break;
            }
            match self.connection.write(rest, one_wait(left)) {
                Ok(0) => break,
                Ok(count) => {
                    self.wrote.hear(&rest[..count]);
                    rest = &rest[count..]
                }
                Err(fault) => {
                    if !is_waiting(fault.kind()) {
                        break;
                    }
                }
            }
        }
        Err(Failed)
    }

    /// How much of the time is left. None, if the clock fails.
    fn left(&self, start: Instant) -> Duration {
        match start.elapsed(&self.clock) {
            Ok(spent) => Duration::from_secs(LIMIT).saturating_sub(spent),
            Err(_) => Duration::ZERO,
        }
    }
}

impl<C: Clock + Send> Sink for TcpSink<C> {
    ghost use Rattle.std.specs.Prelude.{None};

    ghost written = { λ s. None };

    ghost wrote = { λ s. s.wrote };

    ghost faults = { λ s. s.faults };

    fn faults(&self) -> u64 {
        self.faults
    }

    fn write_all(&mut self, bytes: &[u8]) -> Result<(), Failed> {
        if self.faults == u64::MAX {
            return Err(Failed);
        }
        match self.write_on(bytes) {
            Ok(()) => Ok(()),
            Err(Failed) => {
                raise(&mut self.faults);
                Err(Failed)
            }
        }
    }
}
