//! How many workers and connections there are.
ghost use Rattle.std.specs.Prelude.{◌+◌, ◌<◌, ◌≤◌, ◌⊎◌, ◌↔◌, IsTrue};

use std::sync::Wait;
use std::sync::atomic::{AtomicU64, Ordering};

/// No worker knocks.
const FREE: u64 = 0;

/// A worker knocks.
const TAKEN: u64 = 1;

/// The door gives no more, and any number of workers may find that.
const OPEN: u64 = 2;

/// How many workers and connections there are. No clause depends on it: it only decides who stops knocking for a while.
#[derive(Drop)]
pub(crate) struct Counts {
    /// The workers that have begun.
    pub(crate) begun: AtomicU64,
    /// The workers that serve a connection, or do something else than knock.
    pub(crate) busy: AtomicU64,
    /// The connections that are out.
    pub(crate) out: AtomicU64,
    /// The number of connections that the door gives at once.
    pub(crate) limit: u64,
    /// Whether a worker knocks.
    knocking: AtomicU64,
}

impl Counts {
    /// No worker has begun. The door gives one connection fewer than there are workers, and at least one.
    pub(crate) fn new(workers: usize) -> Counts {
        Counts {
            begun: AtomicU64::new(0),
            busy: AtomicU64::new(0),
            out: AtomicU64::new(0),
            limit: (workers as u64).saturating_sub(1).max(1),
            knocking: AtomicU64::new(FREE),
        }
    }

    /// Waits until no other worker knocks. Workers wait here and not for the porch, so that a connection that ends waits for few
    /// knocks.
    pub(crate) fn enter<Rt: Wait>(&self, rt: &Rt) {
        for _ in rt.forever() {
            match self
                .knocking
                .compare_exchange(FREE, TAKEN, Ordering::SeqCst, Ordering::SeqCst)
            {
                Ok(_) => return,
                Err(found) => {
                    if found == OPEN {
                        return;
                    }
                    self.knocking.park(rt, 1);
                }
            }
        }
    }

    /// Lets another worker knock.
    pub(crate) fn leave(&self) {
        if self
            .knocking
            .compare_exchange(TAKEN, FREE, Ordering::SeqCst, Ordering::SeqCst)
            .is_ok()
        {
            self.knocking.wake_one();
        }
    }

    /// Lets all workers knock at once from now on. One after the other they would take a while to end.
    pub(crate) fn open(&self) {
        if self.knocking.swap(OPEN, Ordering::SeqCst) != OPEN {
            self.knocking.wake_all();
        }
    }
}

/// Whether a worker may stop knocking for a while. `busy` workers serve a connection or do something else than knock, this one
/// counted, and `begun` have begun; `out` connections are out, of which the door gives `limit` at once. It may if another one is
/// left to knock, if each other one serves a connection, or if the door gives none of them a connection.
pub fn may_leave(busy: u64, begun: u64, out: u64, limit: u64) -> bool
    ensures { IsTrue result ↔ ((busy < begun) ⊎ ((begun ≤ out + 1) ⊎ (limit ≤ out))) }
{
    busy < begun || begun <= 1 || begun - 1 <= out || limit <= out
}
