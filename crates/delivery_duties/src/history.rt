//! The duties that ended. Only contracts see them; they take no memory.
ghost use Rattle.std.specs.Prelude.{◌≡◌, ◌+◌, ◌<◌, ◌^◌, ◌++◌, ◌∷◌, [], length};
ghost use Rattle.delivery_duties.specs.Duties as spec;
ghost use Rattle.delivery_duties.specs.declared.outcome.Fate.TheVariants.{Pending};

use crate::outcome::{Fate, SettledDuty};
use http_server::Log;
use std::marker::Model;

/// The duties that ended, in the order in which they ended, and their counts. Only the counts take memory.
#[derive(Drop)]
pub(crate) struct History {
    log: Log<SettledDuty, ()>,
    delivered: u64,
    dead_lettered: u64,
    dropped: u64,
}

impl Model for History {
    ghost use Rattle.std.specs.Prelude.{◌≡◌, List, map};
    ghost use Rattle.delivery_duties.specs.declared.outcome.SettledDuty.{SettledDuty};
    ghost use Rattle.delivery_duties.specs.Sound.{AreCounted};

    ghost Value = { List SettledDuty };

    ghost view = { λ h. map (λ p. p.0) h.log.items };

    ghost invariant = { λ h. AreCounted h.delivered h.dead_lettered h.dropped (map (λ p. p.0) h.log.items) };
}

impl History {
    pub(crate) fn new() -> History
        ensures { result ≡ [] }
    {
        History {
            log: Log::new(),
            delivered: 0,
            dead_lettered: 0,
            dropped: 0,
        }
    }

    /// Adds a duty that ended.
    pub(crate) fn push(&mut self, settled: &SettledDuty)
        requires ended { ¬ (settled.now.fate ≡ Pending) }
        requires room { length self.old + 1 < 2 ^ 63 }
        ensures { self.new ≡ self.old ++ settled.now ∷ [] }
    {
        match settled.fate {
            Fate::Pending => unreachable!(),
            Fate::Delivered => self.delivered += 1,
            Fate::DeadLettered => self.dead_lettered += 1,
            Fate::Dropped => self.dropped += 1,
        }
        self.log = self.log.and(settled, &());
    }

    /// The numbers of duties that were delivered, dead-lettered and dropped.
    pub(crate) fn counts(&self) -> (u64, u64, u64)
        ensures delivered { result.0 ≡ spec.delivered_of self.now }
        ensures dead_lettered { result.1 ≡ spec.dead_lettered_of self.now }
        ensures dropped { result.2 ≡ spec.dropped_of self.now }
        ensures all { length self.now ≡ spec.delivered_of self.now + spec.dead_lettered_of self.now + spec.dropped_of self.now }
    {
        (self.delivered, self.dead_lettered, self.dropped)
    }
}
