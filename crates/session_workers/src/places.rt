//! Places for the workers that make turns of deliveries and of replays. No clause depends on them: they only bound how many there are at once.
ghost use Rattle.std.specs.Prelude.{◌≡◌, ◌++◌};

use router_disk::{Link, LinkFault};
use std::sync::Wait;
use std::sync::atomic::{AtomicU64, Ordering};

/// How many workers make turns of deliveries and of replays at once. More would only wait for each other, and sessions for them.
const MOST: u64 = 6;

/// How often a worker tries to take a place that another one takes from it.
const TRIES: u32 = 100;

/// The places.
#[derive(Drop)]
pub(crate) struct Places {
    free: AtomicU64,
}

impl Places {
    /// All places are free.
    pub(crate) fn new() -> Places {
        Places {
            free: AtomicU64::new(MOST),
        }
    }

    /// Takes a place. Returns whether one was free.
    fn enter(&self) -> bool {
        let mut free = self.free.load(Ordering::SeqCst);
        for _ in 0..TRIES {
            if free == 0 {
                return false;
            }
            let fewer = free - 1;
            match self
                .free
                .compare_exchange(free, fewer, Ordering::SeqCst, Ordering::SeqCst)
            {
                Ok(_) => return true,
                Err(found) => free = found,
            }
        }
        false
    }

    /// Waits for a place, and takes it.
    fn enter_again<Rt: Wait>(&self, rt: &Rt) {
        self.free.wait_and_decrement(rt);
    }

    /// Gives a place back.
    fn leave(&self) {
        self.free.fetch_add(1, Ordering::SeqCst);
    }
}

/// A link whose worker takes a place while it delivers.
pub(crate) trait Placing: Link {
    /// Takes a place, if one is free. Returns whether it did.
    fn enter(&mut self) -> bool
        ensures same { (Self.exchanges self.new ≡ Self.exchanges self.old) × (Self.faults self.new ≡ Self.faults self.old) };

    /// Gives the place back, if it has one.
    fn leave(&mut self)
        ensures same { (Self.exchanges self.new ≡ Self.exchanges self.old) × (Self.faults self.new ≡ Self.faults self.old) };
}

/// A link with places. During a send it has none.
#[derive(Drop)]
pub(crate) struct Placed<'r, 'p, L, Rt> {
    rt: &'r Rt,
    places: &'p Places,
    link: L,
    is_inside: bool,
}

impl<'r, 'p, L, Rt> Placed<'r, 'p, L, Rt> {
    /// A link that has no place.
    pub(crate) fn new(rt: &'r Rt, places: &'p Places, link: L) -> Placed<'r, 'p, L, Rt>
        ensures { result.link ≡ link }
    {
        Placed {
            rt,
            places,
            link,
            is_inside: false,
        }
    }

    /// The link alone.
    pub(crate) fn into_link(self) -> L
        ensures { result ≡ self.entry.link }
    {
        let Placed {
            rt: _,
            places: _,
            link,
            is_inside: _,
        } = self;
        link
    }
}

impl<L: Link, Rt: Wait + Sync> Link for Placed<'_, '_, L, Rt> {
    ghost answered = { λ p. L.answered p.link };

    ghost exchanges = { λ p. L.exchanges p.link };

    ghost faults = { λ p. L.faults p.link };

    fn faults(&self) -> u64 {
        self.link.faults()
    }

    fn send(&mut self, to: &str, body: &str) -> Result<u16, LinkFault> {
        if !self.is_inside {
            return self.link.send(to, body);
        }
        self.places.leave();
        let sent = self.link.send(to, body);
        self.places.enter_again(self.rt);
        sent
    }
}

impl<L: Link, Rt: Wait + Sync> Placing for Placed<'_, '_, L, Rt> {
    fn enter(&mut self) -> bool {
        self.is_inside = self.places.enter();
        self.is_inside
    }

    fn leave(&mut self) {
        if self.is_inside {
            self.is_inside = false;
            self.places.leave();
        }
    }
}
