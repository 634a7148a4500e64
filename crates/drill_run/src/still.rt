//! A clock that stands still.
ghost use Rattle.std.specs.Prelude.{◌≡◌, All, []};

use http_server::Log;
use router_disk::Clock;
use std::marker::{Brand, Model, PhantomData};

/// Names the moment of a clock that stands still. Each call of a program picks it.
pub trait Moment {
    ghost use Rattle.std.specs.Prelude.{ℕ};

    ghost moment: { ℕ };
}

impl Moment for Brand {
    ghost moment = { 0 };
}

/// A clock whose every reading is the moment. Contracts see it as its readings so far.
#[derive(Drop)]
pub struct StillClock<N: Moment> {
    moment: u64,
    gave: Log<u64, ()>,
    of: PhantomData<N>,
}

impl<N: Moment> Model for StillClock<N> {
    ghost use Rattle.std.specs.Prelude.{◌≡◌, ℕ, List, All, map};

    ghost Value = { List ℕ };

    ghost view = { λ c. map (λ pair. pair.0) c.gave.items };

    ghost invariant = { λ c. (c.moment ≡ N.moment) × All (λ r. r ≡ N.moment) (map (λ pair. pair.0) c.gave.items) };
}

impl<N: Moment> StillClock<N> {
    pub fn new(moment: u64) -> StillClock<N>
        requires { moment ≡ N.moment }
        ensures { result ≡ [] }
    {
        StillClock {
            moment,
            gave: Log::new(),
            of: PhantomData,
        }
    }

    /// Each reading so far was the moment.
    pub fn always(&self)
        ensures { All (λ r. r ≡ N.moment) self.now }
    {
        // The invariant is known where a field is used.
        let _ = &self.gave;
    }
}

impl<N: Moment + Send> Clock for StillClock<N> {
    ghost use Rattle.std.specs.Prelude.{Some, []};
    ghost use Rattle.router_disk.specs.Clock.{repeating};

    ghost ahead = { λ _. Some (repeating N.moment []) };

    ghost gave = { λ c. c };

    fn now(&mut self) -> u64 {
        self.gave = self.gave.and(&self.moment, &());
        self.moment
    }
}
