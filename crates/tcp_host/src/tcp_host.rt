// The host of the program: disks over files, doors and links over TCP.
ghost use Rattle.std.specs.Prelude.{◌≡◌, [], ◌∷◌, ◌++◌, map, length, IfOk, IsOk, MatchResult};
ghost use Rattle.router_disk.specs.Faults.{CountsFaults};
ghost use Rattle.bus_host.specs.HostFault.{host_outcome};
ghost use Rattle.tcp_host.specs.Places.{counted, fresh, limit_for};

use crate::TcpDoor;
use bus_host::{Host, HostFault, raise};
use http_link::HttpLink;
use http_server::Log;
use journal_disk::{FaultFlag, JournalDisk, open_disk};
use router_disk::{FileDisk, Heard};
use std::alloc::{AllocError, Global};
use std::fs::File;
use std::net::{Net, TcpListener, TcpStream};
use std::rt::Files;
use std::time::Clock;

/// A host whose disks are files of the system, and whose doors and links go over its sockets, by its monotonic clock. A door gives out one
/// connection fewer at once than the host had given links when it opened the door, and at least one: each worker has a link.
/// Once a call of one of its disks has failed, the connections of its doors end between messages.
#[derive(Drop)]
pub struct TcpHost<N> {
    alloc: Global,
    system: N,
    flag: FaultFlag,
    disk_faults: u64,
    door_faults: u64,
    /// The number of links given. It stays at the last `usize`.
    links: usize,
    disks_given: Log<Heard, JournalDisk<FileDisk<File, N>>>,
    disks_back: Log<JournalDisk<FileDisk<File, N>>, ()>,
    doors_given: Log<u16, TcpDoor<N>>,
    doors_back: Log<TcpDoor<N>, ()>,
    links_given: Log<HttpLink<N>, ()>,
    links_back: Log<HttpLink<N>, ()>,
    ghost counted: { links ≡ counted (length links_given.items) },
}

impl<
    N: Net<Stream = TcpStream, Listener = TcpListener>
        + Files<File = File>
        + Eprint
        + Clock
        + Copy
        + Send
        + Drop,
> TcpHost<N> {
    /// A host that has given no disk, no door and no link yet.
    pub fn new(alloc: Global, system: N) -> Result<Self, AllocError>
        ensures disk { IfOk result (λ host. ⟦<TcpHost<N> as Host>⟧.disk_faults host ≡ 0) }
        ensures door { IfOk result (λ host. ⟦<TcpHost<N> as Host>⟧.door_faults host ≡ 0) }
        ensures disks_given { IfOk result (λ host. ⟦<TcpHost<N> as Host>⟧.disks_given host ≡ []) }
        ensures disks_back { IfOk result (λ host. ⟦<TcpHost<N> as Host>⟧.disks_back host ≡ []) }
        ensures doors_given { IfOk result (λ host. ⟦<TcpHost<N> as Host>⟧.doors_given host ≡ []) }
        ensures doors_back { IfOk result (λ host. ⟦<TcpHost<N> as Host>⟧.doors_back host ≡ []) }
        ensures given { IfOk result (λ host. ⟦<TcpHost<N> as Host>⟧.links_given host ≡ []) }
        ensures back { IfOk result (λ host. ⟦<TcpHost<N> as Host>⟧.links_back host ≡ []) }
    {
        match FaultFlag::new(alloc) {
            Ok(flag) => Ok(TcpHost {
                alloc,
                system,
                flag,
                disk_faults: 0,
                door_faults: 0,
                links: 0,
                disks_given: Log::new(),
                disks_back: Log::new(),
                doors_given: Log::new(),
                doors_back: Log::new(),
                links_given: Log::new(),
                links_back: Log::new(),
            }),
            Err(AllocError) => Err(AllocError),
        }
    }
}

impl<
    N: Net<Stream = TcpStream, Listener = TcpListener>
        + Files<File = File>
        + Eprint
        + Clock
        + Copy
        + Send
        + Drop,
> Host for TcpHost<N> {
    ghost use Rattle.std.specs.Prelude.{◌≡◌, ◌∷◌, ◌++◌, [], map, length, IfOk, IsOk, MatchResult};
    ghost use Rattle.router_disk.specs.Faults.{CountsFaults};
    ghost use Rattle.bus_host.specs.HostFault.{host_outcome};
    ghost use Rattle.tcp_host.specs.Places.{counted, fresh, limit_for};

    type Disk = JournalDisk<FileDisk<File, N>>;

    type Door = TcpDoor<N>;

    type Link = HttpLink<N>;

    ghost disk_faults = { λ h. h.disk_faults };

    ghost door_faults = { λ h. h.door_faults };

    ghost link_faults = { λ h. 0 };

    ghost disks_given = { λ h. h.disks_given.items };

    ghost disks_back = { λ h. map (λ pair. pair.0) h.disks_back.items };

    ghost doors_given = { λ h. h.doors_given.items };

    ghost doors_back = { λ h. map (λ pair. pair.0) h.doors_back.items };

    ghost links_given = { λ h. map (λ pair. pair.0) h.links_given.items };

    ghost links_back = { λ h. map (λ pair. pair.0) h.links_back.items };

    fn disk_faults(&self) -> u64 {
        self.disk_faults
    }

    fn door_faults(&self) -> u64 {
        self.door_faults
    }

    fn link_faults(&self) -> u64 {
        0
    }

    /// A regular file that no other process has so; if it is missing it is made, for its owner alone. A line on standard error has the reason
    /// if it is not opened.
    fn disk(&mut self, path: &str) -> Result<JournalDisk<FileDisk<File, N>>, HostFault>
        ensures count { CountsFaults self.old.disk_faults self.new.disk_faults (host_outcome result) }
        ensures opened { IfOk result (λ disk. disk.disk.calls ≡ []) }
        ensures given { MatchResult result
            (λ disk. self.new.disks_given.items ≡ self.old.disks_given.items ++ (path.now, disk) ∷ [])
            (λ _. self.new.disks_given.items ≡ self.old.disks_given.items) }
        ensures rest { self.new ≡ record self.old { disk_faults = self.new.disk_faults; disks_given = self.new.disks_given } }
    {
        if self.disk_faults == u64::MAX {
            return Err(HostFault::Failed);
        }
        let Ok(flag) = self.flag.try_clone() else {
            return Err(HostFault::NoMemory);
        };
        match open_disk(self.alloc, self.system, path) {
            Ok(disk) => {
                let disk = JournalDisk::new(disk, flag);
                let mut name = Heard::new();
                name.hear(path.as_bytes());
                self.disks_given = self.disks_given.and(&name, &disk);
                Ok(disk)
            }
            Err(HostFault::NoMemory) => Err(HostFault::NoMemory),
            Err(HostFault::Failed) => {
                raise(&mut self.disk_faults);
                Err(HostFault::Failed)
            }
        }
    }

    /// A door at a port of 127.0.0.1. Its limit goes by the links given so far.
    fn door(&mut self, port: u16) -> Result<TcpDoor<N>, HostFault>
        ensures count { CountsFaults self.old.door_faults self.new.door_faults (host_outcome result) }
        ensures given { MatchResult result
            (λ door. self.new.doors_given.items ≡ self.old.doors_given.items ++ (port, door) ∷ [])
            (λ _. self.new.doors_given.items ≡ self.old.doors_given.items) }
        ensures limit { IfOk result (λ door. door ≡ fresh (limit_for (counted (length self.old.links_given.items)))) }
        ensures rest { self.new ≡ record self.old { door_faults = self.new.door_faults; doors_given = self.new.doors_given } }
    {
        if self.door_faults == u64::MAX {
            return Err(HostFault::Failed);
        }
        let Ok(flag) = self.flag.try_clone() else {
            return Err(HostFault::NoMemory);
        };
        match TcpDoor::open(self.alloc, self.system, port, self.links, flag) {
            Ok(door) => {
                self.doors_given = self.doors_given.and(&port, &door);
                Ok(door)
            }
            Err(HostFault::NoMemory) => Err(HostFault::NoMemory),
            Err(HostFault::Failed) => {
                raise(&mut self.door_faults);
                Err(HostFault::Failed)
            }
        }
    }

    /// A new link. It opens its connections at each send, so that this does not fail.
    fn link(&mut self) -> Result<HttpLink<N>, HostFault>
        ensures given { IfOk result (λ link. map (λ pair. pair.0) self.new.links_given.items
            ≡ map (λ pair. pair.0) self.old.links_given.items ++ link ∷ []) }
        ensures gives { IsOk result }
        ensures back { self.new.links_back ≡ self.old.links_back }
        ensures doors { (self.new.doors_given ≡ self.old.doors_given) × (self.new.doors_back ≡ self.old.doors_back) }
        ensures disks { (self.new.disks_given ≡ self.old.disks_given) × (self.new.disks_back ≡ self.old.disks_back) }
        ensures faults { (self.new.disk_faults ≡ self.old.disk_faults) × (self.new.door_faults ≡ self.old.door_faults) }
    {
        let link = HttpLink::new(self.alloc, self.system);
        self.links_given = self.links_given.and(&link, &());
        self.links = self.links.saturating_add(1);
        Ok(link)
    }

    /// Closes the file.
    fn back_disk(&mut self, disk: JournalDisk<FileDisk<File, N>>) {
        self.disks_back = self.disks_back.and(&disk, &());
    }

    /// Stops listening, and waits at most 1 s for connections whose clients may still send.
    fn back_door(&mut self, door: TcpDoor<N>) {
        self.doors_back = self.doors_back.and(&door, &());
        door.close();
    }

    fn back_link(&mut self, link: HttpLink<N>) {
        self.links_back = self.links_back.and(&link, &());
    }
}
