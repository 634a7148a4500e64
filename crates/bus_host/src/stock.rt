// What a host in memory gives of one kind, and takes back.
ghost use Rattle.std.specs.Prelude.{◌≡◌, [], map};
ghost use Rattle.router_disk.specs.Faults.{CountsFaults};
ghost use Rattle.bus_host.specs.HostFault.{host_outcome};
ghost use Rattle.bus_host.specs.Stock.{GivesOne, GoesByPlan, TookBack};

use crate::{HostFault, raise};
use http_server::Log;
use std::alloc::Global;
use std::collections::LinkedList;
use std::marker::Model;

/// What a host in memory has of one kind, doors or links. Each call for one has the result that is planned for it. After
/// the last planned result each call fails.
#[derive(Drop)]
pub struct Stock<T> {
    planned: LinkedList<Result<T, HostFault>>,
    given: Log<T, ()>,
    back: Log<T, ()>,
    held: Vec<T>,
    faults: u64,
}

impl<T> Model for Stock<T> {
    ghost use Rattle.std.specs.Prelude.{map};
    ghost use Rattle.bus_host.specs.Stock.{Stocked};

    ghost Value = { Stocked T };

    ghost view = { λ s. record {
      planned = s.planned;
      given = map (λ pair. pair.0) s.given.items;
      back = map (λ pair. pair.0) s.back.items;
      held = s.held.items;
      faults = s.faults;
    } };
}

impl<T: Drop> Stock<T> {
    /// A stock that plans these results. It has given nothing, and nothing came back.
    pub fn new(alloc: Global, planned: LinkedList<Result<T, HostFault>>) -> Self
        ensures { result ≡ record { planned = planned; given = []; back = []; held = []; faults = 0 } }
    {
        Stock {
            planned,
            given: Log::new(),
            back: Log::new(),
            held: Vec::new(alloc),
            faults: 0,
        }
    }

    /// What came back, in order, as it was then. What there was no memory for is missing, and only that.
    pub fn held(&self) -> &[T]
        ensures { result.now ≡ self.now.held }
    {
        &self.held
    }

    /// The number of calls that have failed. It stays at the last `u64`.
    pub fn faults(&self) -> u64
        ensures { result ≡ self.now.faults }
    {
        self.faults
    }

    /// The next planned result.
    pub(crate) fn give(&mut self) -> Result<T, HostFault>
        ensures count { CountsFaults self.old.faults self.new.faults (host_outcome result) }
        ensures plan { GoesByPlan self.old self.new result }
        ensures given { GivesOne self.old.given self.new.given result }
        ensures back { (self.new.back ≡ self.old.back) × (self.new.held ≡ self.old.held) }
    {
        if self.faults == u64::MAX {
            return Err(HostFault::Failed);
        }
        match self.planned.pop_front() {
            Some(Ok(object)) => {
                self.given = self.given.and(&object, &());
                Ok(object)
            }
            Some(Err(HostFault::NoMemory)) => Err(HostFault::NoMemory),
            Some(Err(HostFault::Failed)) => {
                raise(&mut self.faults);
                Err(HostFault::Failed)
            }
            None => {
                raise(&mut self.faults);
                Err(HostFault::Failed)
            }
        }
    }

    /// Takes one back.
    pub(crate) fn take_back(&mut self, object: T)
        ensures { TookBack self.old self.new object }
    {
        self.back = self.back.and(&object, &());
        let _ = self.held.push(object);
    }
}
