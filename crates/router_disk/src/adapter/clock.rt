// The system's clock.
use crate::Clock;
use http_server::Log;
use std::time::{SystemTime, UNIX_EPOCH};

/// The system's clock. If the system gives no time, it repeats its last reading, at first 0.
#[derive(Drop)]
pub struct SystemClock<T> {
    system: T,
    gave: Log<u64, ()>,
    last: u64,
}

impl<T: std::time::Clock + Send> SystemClock<T> {
    ghost use Rattle.std.specs.Prelude.{◌≡◌, []};

    /// A clock over the system's, which has given no reading yet.
    pub fn new(system: T) -> Self
        ensures { ⟦<SystemClock<T> as Clock>⟧.gave result ≡ [] }
    {
        SystemClock {
            system,
            gave: Log::new(),
            last: 0,
        }
    }
}

impl<T: std::time::Clock + Send> Clock for SystemClock<T> {
    ghost use Rattle.std.specs.Prelude.{None, map};

    ghost ahead = { λ s. None };

    ghost gave = { λ s. map (λ pair. pair.0) s.gave.items };

    fn now(&mut self) -> u64 {
        if let Ok(time) = SystemTime::now(&self.system) {
            if let Ok(since) = time.duration_since(UNIX_EPOCH) {
                self.last = since.as_secs();
            }
        }
        self.gave = self.gave.and(&self.last, &());
        self.last
    }
}
