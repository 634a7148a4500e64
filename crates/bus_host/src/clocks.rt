// A clock that lends clocks, as a trait, and one in memory.
ghost use Rattle.std.specs.Prelude.{◌≡◌, [], ◌∷◌, ◌++◌, Some};
ghost use Rattle.router_disk.specs.Clock.{repeating};
ghost use Rattle.bus_host.specs.Clocks.{IsLent};

use http_server::Log;
use router_disk::{Clock, MemClock};
use std::alloc::Global;
use std::collections::LinkedList;

/// A clock that lends clocks, and takes them back. It shows those that it lent and took back.
pub trait Clocks: Clock {
    ghost use Rattle.std.specs.Prelude.{List};

    type Lent: Clock;

    /// The clocks lent so far, in order, as they were lent.
    ghost clocks_given: { Self → List Self.Lent };

    /// The clocks taken back so far, in order, as they were then.
    ghost clocks_back: { Self → List Self.Lent };

    /// A clock. The call needs no memory.
    fn lend(&mut self) -> Self::Lent
        ensures given { clocks_given self.new ≡ clocks_given self.old ++ result ∷ [] }
        ensures back { clocks_back self.new ≡ clocks_back self.old }
        ensures unread { Self.gave self.new ≡ Self.gave self.old };

    /// Takes a clock back.
    fn back(&mut self, clock: Self::Lent)
        ensures given { clocks_given self.new ≡ clocks_given self.old }
        ensures back { clocks_back self.new ≡ clocks_back self.old ++ clock ∷ [] }
        ensures unread { Self.gave self.new ≡ Self.gave self.old };
}

/// A clock whose every reading is the same, and that lends clocks in memory as it plans them. After the last planned one, each clock that
/// it lends has the same readings as it has itself.
#[derive(Drop)]
pub struct MemClocks {
    alloc: Global,
    reading: u64,
    own: MemClock,
    pub planned: LinkedList<MemClock>,
    given: Log<MemClock, ()>,
    back: Log<MemClock, ()>,
}

impl MemClocks {
    ghost use Rattle.std.specs.Prelude.{◌≡◌, []};

    /// A clock whose every reading is `reading`, which plans to lend these clocks.
    pub fn new(alloc: Global, reading: u64, planned: LinkedList<MemClock>) -> Self
        ensures planned { (result.reading ≡ reading) × (result.planned ≡ planned) }
        ensures ahead { ⟦<MemClocks as Clock>⟧.ahead result ≡ Some (repeating reading []) }
        ensures gave { ⟦<MemClocks as Clock>⟧.gave result ≡ [] }
        ensures given { ⟦<MemClocks as Clocks>⟧.clocks_given result ≡ [] }
        ensures back { ⟦<MemClocks as Clocks>⟧.clocks_back result ≡ [] }
    {
        MemClocks {
            alloc,
            reading,
            own: MemClock::always(alloc, reading),
            planned,
            given: Log::new(),
            back: Log::new(),
        }
    }
}

impl Clock for MemClocks {
    ghost ahead = { λ c. ⟦<MemClock as Clock>⟧.ahead c.own };

    ghost gave = { λ c. ⟦<MemClock as Clock>⟧.gave c.own };

    fn now(&mut self) -> u64 {
        self.own.now()
    }
}

impl Clocks for MemClocks {
    ghost use Rattle.std.specs.Prelude.{◌≡◌, ◌∷◌, ◌++◌, [], map};
    ghost use Rattle.bus_host.specs.Clocks.{IsLent};

    type Lent = MemClock;

    ghost clocks_given = { λ c. map (λ pair. pair.0) c.given.items };

    ghost clocks_back = { λ c. map (λ pair. pair.0) c.back.items };

    fn lend(&mut self) -> MemClock
        ensures given { ⟦<MemClocks as Clocks>⟧.clocks_given self.new ≡ ⟦<MemClocks as Clocks>⟧.clocks_given self.old ++ result ∷ [] }
        ensures rest { self.new ≡ record self.old { planned = self.new.planned; given = self.new.given } }
        ensures plan { IsLent ⟦<MemClock as Clock>⟧.ahead self.old.reading self.old.planned self.new.planned result }
    {
        let clock = match self.planned.pop_front() {
            Some(clock) => clock,
            None => MemClock::always(self.alloc, self.reading),
        };
        self.given = self.given.and(&clock, &());
        clock
    }

    fn back(&mut self, clock: MemClock) {
        self.back = self.back.and(&clock, &());
    }
}
