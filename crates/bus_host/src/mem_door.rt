// A door in memory.
ghost use Rattle.std.specs.Prelude.{◌≡◌, Some, [], false, map};
ghost use Rattle.bus_host.specs.Plans.{connections_of};

use crate::{Door, Ended, Knock, raise};
use http_server::Log;
use router_disk::{Sink, Source};
use std::alloc::Global;
use std::collections::LinkedList;

/// What a call of `next` of a door in memory is to return.
#[derive(Drop)]
pub enum Plan<I, O> {
    Conn(I, O),
    Quiet,
    Failed,
    NoMemory,
}

/// A door that returns what it plans, in order, and then `Closed` forever. `back` has the connections that it got back,
/// in order; one that there is no memory for is missing there, and only there.
#[derive(Drop)]
pub struct MemDoor<I, O> {
    plans: LinkedList<Plan<I, O>>,
    pub back: Vec<Ended<I, O>>,
    given: Log<I, O>,
    ended: Log<Ended<I, O>, ()>,
    closed: bool,
    faults: u64,
}

impl<I: Source + Drop, O: Sink + Drop> MemDoor<I, O> {
    /// A door with these plans, which has given no connection and has no fault yet.
    pub fn new(alloc: Global, plans: LinkedList<Plan<I, O>>) -> Self
        ensures ahead { ⟦<MemDoor<I, O> as Door>⟧.ahead result ≡ Some (connections_of plans) }
        ensures given { ⟦<MemDoor<I, O> as Door>⟧.given result ≡ Some [] }
        ensures ended { ⟦<MemDoor<I, O> as Door>⟧.ended result ≡ Some [] }
        ensures gave { ⟦<MemDoor<I, O> as Door>⟧.gave result ≡ [] }
        ensures took_back { ⟦<MemDoor<I, O> as Door>⟧.took_back result ≡ [] }
        ensures closed { ⟦<MemDoor<I, O> as Door>⟧.closed result ≡ false }
        ensures faults { ⟦<MemDoor<I, O> as Door>⟧.faults result ≡ 0 }
    {
        MemDoor {
            plans,
            back: Vec::new(alloc),
            given: Log::new(),
            ended: Log::new(),
            closed: false,
            faults: 0,
        }
    }
}

impl<I: Source + Drop, O: Sink + Drop> Door for MemDoor<I, O> {
    ghost use Rattle.std.specs.Prelude.{Some, map};
    ghost use Rattle.bus_host.specs.Plans.{connections_of};

    type In = I;

    type Out = O;

    ghost ahead = { λ d. Some (connections_of d.plans) };

    ghost given = { λ d. Some d.given.items };

    ghost ended = { λ d. Some (map (λ pair. pair.0) d.ended.items) };

    ghost gave = { λ d. d.given.items };

    ghost took_back = { λ d. map (λ pair. pair.0) d.ended.items };

    ghost closed = { λ d. d.closed };

    ghost faults = { λ d. d.faults };

    fn faults(&self) -> u64 {
        self.faults
    }

    fn next(&mut self) -> Knock<I, O> {
        if self.faults == u64::MAX {
            return Knock::Failed;
        }
        match self.plans.pop_front() {
            Some(Plan::Conn(input, output)) => {
                self.given = self.given.and(&input, &output);
                Knock::Conn(input, output)
            }
            Some(Plan::Quiet) => Knock::Quiet,
            Some(Plan::NoMemory) => Knock::NoMemory,
            Some(Plan::Failed) => {
                raise(&mut self.faults);
                Knock::Failed
            }
            None => {
                self.closed = true;
                Knock::Closed
            }
        }
    }

    fn done(&mut self, input: I, output: O, cut: bool) {
        let ended = Ended { input, output, cut };
        self.ended = self.ended.and(&ended, &());
        let _ = self.back.push(ended);
    }
}
