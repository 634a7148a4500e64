// Connections whose sending side has ended, while their clients may still send (RFC 9112, section 9.6).
ghost use Rattle.std.specs.Prelude.{◌≡◌};

use crate::connection::{Connection, is_waiting};
use circular_buffer::HeapCircularBuffer;
use std::alloc::{AllocError, Global};
use std::sync::Arc;
use std::time::{Clock, Duration, Instant};

/// How many connections wait for their client's end at once. With the connections, the sends, 8 clients that wait and the
/// program's other files, W workers then need at most 2 W + 36 open files.
const MOST: usize = 24;

/// How many milliseconds a connection waits for its client's end.
const WAIT: u64 = 1_000;

/// How many bytes are dropped at once, and how many times in one look: 256 KiB together. Each worker has the piece on its
/// stack, so it is smaller than a page.
const PIECE: usize = 2_048;

const PIECES: u32 = 128;

/// The connections that wait for their client's end, the oldest first. Their memory is taken at the start.
#[derive(Drop)]
pub struct Closing {
    ended: HeapCircularBuffer<Ended>,
    ghost few: { ended.capacity ≡ 24 },
}

#[derive(Drop)]
struct Ended {
    connection: Arc<Connection>,
    since: Instant,
}

impl Closing {
    /// None waits yet. At most 24 will.
    pub fn new(alloc: Global) -> Result<Closing, AllocError> {
        Ok(Closing {
            ended: HeapCircularBuffer::with_capacity(alloc, MOST)?,
        })
    }

    /// Whether no connection waits.
    pub fn is_empty(&self) -> bool {
        self.ended.is_empty()
    }

    /// Ends the sending side of a connection. It waits for its client's end; if as many wait as may, the oldest is closed.
    /// A connection that cannot be ended, or whose time is not known, is closed at once.
    pub fn add(&mut self, connection: Arc<Connection>, clock: &impl Clock) {
        let Ok(since) = Instant::now(clock) else {
            return;
        };
        if connection.end_sending().is_err() {
            return;
        }
        let _ = self.ended.push_back(Ended { connection, since });
    }

    /// Drops what has arrived, at most 256 KiB of each connection. Closes those whose client has ended, and those that
    /// have waited for 1 s; if the clock fails, all.
    pub fn drop_arrived(&mut self, clock: &impl Clock) {
        match Instant::now(clock) {
            Ok(now) => {
                for _ in 0..self.ended.len() {
                    self.look_at_oldest(now);
                }
            }
            Err(_) => self.ended.clear(),
        }
    }

    /// Closes the oldest one, or puts it at the end if it stays. So after a look at each one they are in their order again.
    fn look_at_oldest(&mut self, now: Instant) {
        if let Some(oldest) = self.ended.pop_front()
            && oldest.stays(now)
        {
            let _ = self.ended.push_back(oldest);
        }
    }
}

impl Ended {
    /// Drops what has arrived. Returns whether the client may send more and the time is not over.
    fn stays(&self, now: Instant) -> bool {
        let mut piece = [0u8; PIECE];
        for _ in 0..PIECES {
            match self.connection.read(&mut piece) {
                Ok(0) => return false,
                Ok(_) => {}
                Err(fault) => {
                    if !is_waiting(fault.kind()) {
                        return false;
                    }
                    break;
                }
            }
        }
        now.duration_since(self.since) < Duration::from_millis(WAIT)
    }
}
