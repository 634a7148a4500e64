// A clock in memory.
use crate::Clock;
use http_server::Log;
use std::alloc::Global;

/// A clock that gives the readings that it holds, in order, and then its last one forever.
#[derive(Drop)]
pub struct MemClock {
    reading: u64,
    later: Vec<u64>,
    place: usize,
    gave: Log<u64, ()>,
}

impl MemClock {
    ghost use Rattle.std.specs.Prelude.{◌≡◌, Some, []};
    ghost use Rattle.router_disk.specs.Clock.{repeating};

    /// A clock that gives `reading`, and then those of `later`.
    pub fn new(reading: u64, later: Vec<u64>) -> Self
        ensures ahead { ⟦<MemClock as Clock>⟧.ahead result ≡ Some (repeating reading later.items) }
        ensures gave { ⟦<MemClock as Clock>⟧.gave result ≡ [] }
    {
        MemClock {
            reading,
            later,
            place: 0,
            gave: Log::new(),
        }
    }

    /// A clock whose every reading is `reading`. It takes no memory.
    pub fn always(alloc: Global, reading: u64) -> Self
        ensures ahead { ⟦<MemClock as Clock>⟧.ahead result ≡ Some (repeating reading []) }
        ensures gave { ⟦<MemClock as Clock>⟧.gave result ≡ [] }
    {
        MemClock::new(reading, Vec::new(alloc))
    }
}

impl Clock for MemClock {
    ghost use Rattle.std.specs.Prelude.{Some, drop, map};
    ghost use Rattle.router_disk.specs.Clock.{repeating};

    ghost ahead = { λ c. Some (repeating c.reading (drop c.place c.later.items)) };

    ghost gave = { λ c. map (λ pair. pair.0) c.gave.items };

    fn now(&mut self) -> u64 {
        let reading = self.reading;
        if let Some(&next) = self.later.get(self.place) {
            self.reading = next;
            self.place += 1;
        }
        self.gave = self.gave.and(&reading, &());
        reading
    }
}
