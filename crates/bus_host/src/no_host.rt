// A host whose every call fails, with a disk, a door and a link whose calls fail.
ghost use Rattle.std.specs.Prelude.{◌≡◌, [], ◌∷◌, ◌++◌, false, map, Err};
ghost use Rattle.router_disk.specs.Faults.{CountsFaults};
ghost use Rattle.bus_host.specs.HostFault.{host_outcome};

use crate::{Door, Ended, Host, HostFault, Knock, raise};
use http_server::Log;
use router_disk::{Disk, DiskCalls, Failed, Link, LinkFault, MemSink, MemSource};

/// A disk whose every call fails.
#[derive(Drop)]
pub struct NoDisk {
    calls: DiskCalls,
    faults: u64,
}

/// A door whose every call of `next` fails.
#[derive(Drop)]
pub struct NoDoor {
    took_back: Log<Ended<MemSource, MemSink>, ()>,
    faults: u64,
}

/// A link whose every send fails.
#[derive(Debug, Default, Drop)]
pub struct NoLink {
    faults: u64,
}

/// A host that opens nothing: each call that can fail fails.
#[derive(Drop)]
pub struct NoHost {
    disk_faults: u64,
    door_faults: u64,
    link_faults: u64,
    disks_back: Log<NoDisk, ()>,
    doors_back: Log<NoDoor, ()>,
    links_back: Log<NoLink, ()>,
}

impl NoHost {
    /// A host with no fault yet.
    pub fn new() -> Self
        ensures disk { ⟦<NoHost as Host>⟧.disk_faults result ≡ 0 }
        ensures door { ⟦<NoHost as Host>⟧.door_faults result ≡ 0 }
        ensures link { ⟦<NoHost as Host>⟧.link_faults result ≡ 0 }
        ensures disks_back { ⟦<NoHost as Host>⟧.disks_back result ≡ [] }
        ensures doors_back { ⟦<NoHost as Host>⟧.doors_back result ≡ [] }
        ensures links_back { ⟦<NoHost as Host>⟧.links_back result ≡ [] }
    {
        NoHost {
            disk_faults: 0,
            door_faults: 0,
            link_faults: 0,
            disks_back: Log::new(),
            doors_back: Log::new(),
            links_back: Log::new(),
        }
    }
}

impl NoDisk {
    /// A disk with no call and no fault yet.
    pub fn new() -> Self
        ensures calls { ⟦<NoDisk as Disk>⟧.calls result ≡ [] }
        ensures faults { ⟦<NoDisk as Disk>⟧.faults result ≡ 0 }
    {
        NoDisk {
            calls: DiskCalls::new(),
            faults: 0,
        }
    }
}

impl NoDoor {
    /// A door with no fault yet.
    pub fn new() -> Self
        ensures gave { ⟦<NoDoor as Door>⟧.gave result ≡ [] }
        ensures took_back { ⟦<NoDoor as Door>⟧.took_back result ≡ [] }
        ensures closed { ⟦<NoDoor as Door>⟧.closed result ≡ false }
        ensures faults { ⟦<NoDoor as Door>⟧.faults result ≡ 0 }
    {
        NoDoor {
            took_back: Log::new(),
            faults: 0,
        }
    }
}

impl Disk for NoDisk {
    ghost use Rattle.std.specs.Prelude.{IsErr};
    ghost use Rattle.router_disk.specs.declared.disk_call.DiskCall.TheVariants as calls;

    ghost calls = { λ d. d.calls };

    ghost faults = { λ d. d.faults };

    fn faults(&self) -> u64 {
        self.faults
    }

    fn size(&mut self) -> Result<u64, Failed>
        ensures call { self.new.calls ≡ self.old.calls ++ calls.Size result ∷ [] }
        ensures count { CountsFaults self.old.faults self.new.faults result }
        ensures fails { IsErr result }
    {
        self.calls.size(Err(Failed));
        raise(&mut self.faults);
        Err(Failed)
    }

    fn read(&mut self, at: u64, into: &mut [u8]) -> Result<(), Failed>
        ensures call { self.new.calls ≡ self.old.calls ++ calls.Read at into.new result ∷ [] }
        ensures count { CountsFaults self.old.faults self.new.faults result }
        ensures fails { IsErr result }
    {
        self.calls.read(at, into, Err(Failed));
        raise(&mut self.faults);
        Err(Failed)
    }

    fn write_at(&mut self, at: u64, bytes: &[u8]) -> Result<(), Failed>
        ensures call { self.new.calls ≡ self.old.calls ++ calls.Write at bytes.now result ∷ [] }
        ensures count { CountsFaults self.old.faults self.new.faults result }
        ensures fails { IsErr result }
    {
        self.calls.write_at(at, bytes, Err(Failed));
        raise(&mut self.faults);
        Err(Failed)
    }

    fn cut(&mut self, len: u64) -> Result<(), Failed>
        ensures call { self.new.calls ≡ self.old.calls ++ calls.Cut len result ∷ [] }
        ensures count { CountsFaults self.old.faults self.new.faults result }
        ensures fails { IsErr result }
    {
        self.calls.cut(len, Err(Failed));
        raise(&mut self.faults);
        Err(Failed)
    }

    fn sync(&mut self) -> Result<(), Failed>
        ensures call { self.new.calls ≡ self.old.calls ++ calls.Sync result ∷ [] }
        ensures count { CountsFaults self.old.faults self.new.faults result }
        ensures fails { IsErr result }
    {
        self.calls.sync(Err(Failed));
        raise(&mut self.faults);
        Err(Failed)
    }
}

impl Link for NoLink {
    ghost use Rattle.std.specs.Prelude.{Some, []};
    ghost use Rattle.router_disk.specs.Faults.{link_outcome};
    ghost use Rattle.router_disk.specs.Link.{Answered, exchanges_of};

    ghost answered = { λ l. Some [] };

    ghost exchanges = { λ l. [] };

    ghost faults = { λ l. l.faults };

    fn faults(&self) -> u64 {
        self.faults
    }

    fn send(&mut self, _to: &str, _body: &str) -> Result<u16, LinkFault>
        ensures answers { Answered (Some []) (Some []) (exchanges_of result _to.now _body.now) }
        ensures exchanges { [] ≡ [] ++ exchanges_of result _to.now _body.now }
        ensures count { CountsFaults self.old.faults self.new.faults (link_outcome result) }
        ensures fails { result ≡ Err LinkFault.Failed }
    {
        raise(&mut self.faults);
        Err(LinkFault::Failed)
    }
}

impl Door for NoDoor {
    ghost use Rattle.std.specs.Prelude.{Some, None, [], ◌++◌, false, map};
    ghost use Rattle.bus_host.specs.Doors.{closed_after, given_by};
    ghost use Rattle.bus_host.specs.Knock.{knock_outcome};

    type In = MemSource;

    type Out = MemSink;

    ghost ahead = { λ d. Some [] };

    ghost given = { λ d. Some [] };

    ghost ended = { λ d. None };

    ghost gave = { λ d. [] };

    ghost took_back = { λ d. map (λ pair. pair.0) d.took_back.items };

    ghost closed = { λ d. false };

    ghost faults = { λ d. d.faults };

    fn faults(&self) -> u64 {
        self.faults
    }

    fn next(&mut self) -> Knock<MemSource, MemSink>
        ensures count { CountsFaults self.old.faults self.new.faults (knock_outcome result) }
        ensures gave { [] ≡ [] ++ given_by result }
        ensures took_back { self.new.took_back ≡ self.old.took_back }
        ensures over { false ≡ closed_after false result }
        ensures fails { result ≡ Knock.Failed }
    {
        raise(&mut self.faults);
        Knock::Failed
    }

    fn done(&mut self, input: MemSource, output: MemSink, cut: bool) {
        let ended = Ended { input, output, cut };
        self.took_back = self.took_back.and(&ended, &());
    }
}

impl Host for NoHost {
    ghost use Rattle.std.specs.Prelude.{map, MatchResult};
    ghost use Rattle.bus_host.specs.Host.{SameGiven};

    type Disk = NoDisk;

    type Door = NoDoor;

    type Link = NoLink;

    ghost disk_faults = { λ h. h.disk_faults };

    ghost door_faults = { λ h. h.door_faults };

    ghost link_faults = { λ h. h.link_faults };

    ghost disks_given = { λ h. [] };

    ghost disks_back = { λ h. map (λ pair. pair.0) h.disks_back.items };

    ghost doors_given = { λ h. [] };

    ghost doors_back = { λ h. map (λ pair. pair.0) h.doors_back.items };

    ghost links_given = { λ h. [] };

    ghost links_back = { λ h. map (λ pair. pair.0) h.links_back.items };

    fn disk_faults(&self) -> u64 {
        self.disk_faults
    }

    fn door_faults(&self) -> u64 {
        self.door_faults
    }

    fn link_faults(&self) -> u64 {
        self.link_faults
    }

    fn disk(&mut self, _path: &str) -> Result<NoDisk, HostFault>
        ensures count { CountsFaults self.old.disk_faults self.new.disk_faults (host_outcome result) }
        ensures door { self.new.door_faults ≡ self.old.door_faults }
        ensures link { self.new.link_faults ≡ self.old.link_faults }
        ensures back { self.new.disks_back ≡ self.old.disks_back }
        ensures doors { self.new.doors_back ≡ self.old.doors_back }
        ensures links { self.new.links_back ≡ self.old.links_back }
        ensures fails { result ≡ Err HostFault.Failed }
    {
        raise(&mut self.disk_faults);
        Err(HostFault::Failed)
    }

    fn door(&mut self, _port: u16) -> Result<NoDoor, HostFault>
        ensures count { CountsFaults self.old.door_faults self.new.door_faults (host_outcome result) }
        ensures disk { self.new.disk_faults ≡ self.old.disk_faults }
        ensures link { self.new.link_faults ≡ self.old.link_faults }
        ensures disks { self.new.disks_back ≡ self.old.disks_back }
        ensures doors { self.new.doors_back ≡ self.old.doors_back }
        ensures links { self.new.links_back ≡ self.old.links_back }
        ensures fails { result ≡ Err HostFault.Failed }
    {
        raise(&mut self.door_faults);
        Err(HostFault::Failed)
    }

    fn link(&mut self) -> Result<NoLink, HostFault>
        ensures count { CountsFaults self.old.link_faults self.new.link_faults (host_outcome result) }
        ensures disk { self.new.disk_faults ≡ self.old.disk_faults }
        ensures door { self.new.door_faults ≡ self.old.door_faults }
        ensures disks { self.new.disks_back ≡ self.old.disks_back }
        ensures doors { self.new.doors_back ≡ self.old.doors_back }
        ensures links { self.new.links_back ≡ self.old.links_back }
        ensures fails { result ≡ Err HostFault.Failed }
    {
        raise(&mut self.link_faults);
        Err(HostFault::Failed)
    }

    fn back_disk(&mut self, disk: NoDisk) {
        self.disks_back = self.disks_back.and(&disk, &());
    }

    fn back_door(&mut self, door: NoDoor) {
        self.doors_back = self.doors_back.and(&door, &());
    }

    fn back_link(&mut self, link: NoLink) {
        self.links_back = self.links_back.and(&link, &());
    }
}
