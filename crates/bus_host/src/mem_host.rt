// A host in memory.
ghost use Rattle.std.specs.Prelude.{◌≡◌, [], ◌∷◌, ◌++◌, IfOk, MatchResult};
ghost use Rattle.router_disk.specs.Faults.{CountsFaults};
ghost use Rattle.bus_host.specs.HostFault.{host_outcome};
ghost use Rattle.bus_host.specs.Files.{OpensByPlan, TookDiskBack};
ghost use Rattle.bus_host.specs.Stock.{GivesOne, GoesByPlan, TookBack};

use crate::{Host, HostFault, MemDoor, MemFile, MemFiles, Stock};
use http_server::Log;
use memory_disk::MemoryDisk;
use router_disk::{MemLink, Sink, Source};
use std::alloc::Global;
use std::collections::LinkedList;

/// A host that gives disks, doors and links in memory as it plans them, and takes them back.
#[derive(Drop)]
pub struct MemHost<I, O> {
    pub disks: MemFiles,
    ports: Log<u16, MemDoor<I, O>>,
    pub doors: Stock<MemDoor<I, O>>,
    pub links: Stock<MemLink>,
}

impl<I: Source + Drop, O: Sink + Drop> MemHost<I, O> {
    /// A host that plans these results for the calls of `disk`, of `door` and of `link`. After the last one of a list, each further call fails.
    pub fn new(
        alloc: Global,
        disks: LinkedList<Result<MemFile, HostFault>>,
        doors: LinkedList<Result<MemDoor<I, O>, HostFault>>,
        links: LinkedList<Result<MemLink, HostFault>>,
    ) -> Self
        ensures disks { result.disks ≡ record { planned = disks; given = []; back = []; held = []; faults = 0 } }
        ensures doors { result.doors ≡ record { planned = doors; given = []; back = []; held = []; faults = 0 } }
        ensures links { result.links ≡ record { planned = links; given = []; back = []; held = []; faults = 0 } }
        ensures doors_given { ⟦<MemHost<I, O> as Host>⟧.doors_given result ≡ [] }
    {
        MemHost {
            disks: MemFiles::new(alloc, disks),
            ports: Log::new(),
            doors: Stock::new(alloc, doors),
            links: Stock::new(alloc, links),
        }
    }
}

impl<I: Source + Drop, O: Sink + Drop> Host for MemHost<I, O> {
    type Disk = MemoryDisk;

    type Door = MemDoor<I, O>;

    type Link = MemLink;

    ghost disk_faults = { λ h. h.disks.faults };

    ghost door_faults = { λ h. h.doors.faults };

    ghost link_faults = { λ h. h.links.faults };

    ghost disks_given = { λ h. h.disks.given };

    ghost disks_back = { λ h. h.disks.back };

    ghost doors_given = { λ h. h.ports.items };

    ghost doors_back = { λ h. h.doors.back };

    ghost links_given = { λ h. h.links.given };

    ghost links_back = { λ h. h.links.back };

    fn disk_faults(&self) -> u64 {
        self.disks.faults()
    }

    fn door_faults(&self) -> u64 {
        self.doors.faults()
    }

    fn link_faults(&self) -> u64 {
        self.links.faults()
    }

    fn disk(&mut self, path: &str) -> Result<MemoryDisk, HostFault>
        ensures count { CountsFaults self.old.disks.faults self.new.disks.faults (host_outcome result) }
        ensures plan { OpensByPlan self.old.disks self.new.disks result }
        ensures opened { IfOk result (λ disk. disk.calls ≡ []) }
        ensures given { MatchResult result
            (λ disk. self.new.disks.given ≡ self.old.disks.given ++ (path.now, disk) ∷ [])
            (λ _. self.new.disks.given ≡ self.old.disks.given) }
        ensures back { self.new.disks.back ≡ self.old.disks.back }
        ensures rest { self.new ≡ record self.old { disks = self.new.disks } }
    {
        self.disks.open(path)
    }

    fn door(&mut self, port: u16) -> Result<MemDoor<I, O>, HostFault>
        ensures count { CountsFaults self.old.doors.faults self.new.doors.faults (host_outcome result) }
        ensures plan { GoesByPlan self.old.doors self.new.doors result }
        ensures given { GivesOne self.old.doors.given self.new.doors.given result }
        ensures back { self.new.doors.back ≡ self.old.doors.back }
        ensures port { MatchResult result (λ door. self.new.ports.items ≡ self.old.ports.items ++ (port, door) ∷ [])
            (λ _. self.new.ports.items ≡ self.old.ports.items) }
        ensures rest { self.new ≡ record self.old { ports = self.new.ports; doors = self.new.doors } }
    {
        match self.doors.give() {
            Ok(door) => {
                self.ports = self.ports.and(&port, &door);
                Ok(door)
            }
            Err(fault) => Err(fault),
        }
    }

    fn link(&mut self) -> Result<MemLink, HostFault>
        ensures count { CountsFaults self.old.links.faults self.new.links.faults (host_outcome result) }
        ensures plan { GoesByPlan self.old.links self.new.links result }
        ensures given { GivesOne self.old.links.given self.new.links.given result }
        ensures back { self.new.links.back ≡ self.old.links.back }
        ensures rest { self.new ≡ record self.old { links = self.new.links } }
    {
        self.links.give()
    }

    fn back_disk(&mut self, disk: MemoryDisk)
        ensures back { TookDiskBack self.old.disks self.new.disks disk }
        ensures rest { self.new ≡ record self.old { disks = self.new.disks } }
    {
        self.disks.take_back(disk);
    }

    fn back_door(&mut self, door: MemDoor<I, O>)
        ensures back { TookBack self.old.doors self.new.doors door }
        ensures rest { self.new ≡ record self.old { doors = self.new.doors } }
    {
        self.doors.take_back(door);
    }

    fn back_link(&mut self, link: MemLink)
        ensures back { TookBack self.old.links self.new.links link }
        ensures rest { self.new ≡ record self.old { links = self.new.links } }
    {
        self.links.take_back(link);
    }
}
