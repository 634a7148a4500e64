// The system's clock, which lends others.
ghost use Rattle.std.specs.Prelude.{◌≡◌, []};

use bus_host::Clocks;
use http_server::Log;
use router_disk::Clock;
use std::time::{SystemTime, UNIX_EPOCH};

/// The system's clock, as it is lent. If the system gives no time, it repeats its last reading, at first 0. A method of a trait cannot make
/// a `SystemClock` of router_disk, whose call asks for `Send`.
#[derive(Drop)]
pub struct LentClock<T> {
    system: T,
    gave: Log<u64, ()>,
    last: u64,
}

impl<T: std::time::Clock + Send> Clock for LentClock<T> {
    ghost use Rattle.std.specs.Prelude.{None, map};

    ghost ahead = { λ _. None };

    ghost gave = { λ c. map (λ pair. pair.0) c.gave.items };

    fn now(&mut self) -> u64 {
        if let Ok(time) = SystemTime::now(&self.system) {
            if let Ok(since) = time.duration_since(UNIX_EPOCH) {
                self.last = since.as_secs();
            }
        }
        self.gave = self.gave.and(&self.last, &());
        self.last
    }
}

/// The system's clock. Each clock that it lends is the system's too.
#[derive(Drop)]
pub struct SystemClocks<T> {
    system: T,
    own: LentClock<T>,
    given: Log<LentClock<T>, ()>,
    back: Log<LentClock<T>, ()>,
}

impl<T: std::time::Clock + Copy + Drop + Send> SystemClocks<T> {
    /// A clock over the system's, which has given no reading and lent no clock yet.
    pub fn new(system: T) -> Self
        ensures gave { ⟦<SystemClocks<T> as Clock>⟧.gave result ≡ [] }
        ensures given { ⟦<SystemClocks<T> as Clocks>⟧.clocks_given result ≡ [] }
        ensures back { ⟦<SystemClocks<T> as Clocks>⟧.clocks_back result ≡ [] }
    {
        SystemClocks {
            system,
            own: LentClock {
                system,
                gave: Log::new(),
                last: 0,
            },
            given: Log::new(),
            back: Log::new(),
        }
    }
}

impl<T: std::time::Clock + Copy + Drop + Send> Clock for SystemClocks<T> {
    ghost ahead = { λ c. ⟦<LentClock<T> as Clock>⟧.ahead c.own };

    ghost gave = { λ c. ⟦<LentClock<T> as Clock>⟧.gave c.own };

    fn now(&mut self) -> u64 {
        self.own.now()
    }
}

impl<T: std::time::Clock + Copy + Drop + Send> Clocks for SystemClocks<T> {
    ghost use Rattle.std.specs.Prelude.{map};

    type Lent = LentClock<T>;

    ghost clocks_given = { λ c. map (λ pair. pair.0) c.given.items };

    ghost clocks_back = { λ c. map (λ pair. pair.0) c.back.items };

    fn lend(&mut self) -> LentClock<T> {
        let clock = LentClock {
            system: self.system,
            gave: Log::new(),
            last: 0,
        };
        self.given = self.given.and(&clock, &());
        clock
    }

    fn back(&mut self, clock: LentClock<T>) {
        self.back = self.back.and(&clock, &());
    }
}
