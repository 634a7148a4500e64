// The host as a trait: what opens disks, doors and links.
ghost use Rattle.std.specs.Prelude.{◌≡◌, ℕ};

use crate::Door;
use router_disk::{Disk, Link};
use thiserror::Error;

/// Why a host opened nothing.
#[derive(Clone, Copy, Debug, PartialEq, Eq, Error)]
pub enum HostFault {
    /// The host failed. Its count of faults for that call shows it.
    #[error("the host failed")]
    Failed,
    /// Out of memory. The host's counts stay as they were.
    #[error("out of memory")]
    NoMemory,
}

/// What opens disks, doors and links, and takes them back. It shows those that it gave and took back.
pub trait Host {
    ghost use Rattle.std.specs.Prelude.{List, [], ◌∷◌, ◌++◌, IfOk, MatchResult};
    ghost use Rattle.router_disk.specs.Faults.{CountsFaults};
    ghost use Rattle.bus_host.specs.HostFault.{host_outcome};
    ghost use Rattle.bus_host.specs.Host.{SameFaults, SameGiven};

    type Disk: Disk;

    type Door: Door;

    type Link: Link;

    /// The number of calls of `disk` that have failed.
    ghost disk_faults: { Self → ℕ };

    /// The number of calls of `door` that have failed.
    ghost door_faults: { Self → ℕ };

    /// The number of calls of `link` that have failed.
    ghost link_faults: { Self → ℕ };

    /// The disks given so far, each after its path, in order, as they were given.
    ghost disks_given: { Self → List (List ℕ × Self.Disk) };

    /// The disks taken back so far, in order, as they were then.
    ghost disks_back: { Self → List Self.Disk };

    /// The doors given so far, each after its port, in order, as they were given.
    ghost doors_given: { Self → List (ℕ × Self.Door) };

    /// The doors taken back so far, in order, as they were then.
    ghost doors_back: { Self → List Self.Door };

    /// The links given so far, in order, as they were given.
    ghost links_given: { Self → List Self.Link };

    /// The links taken back so far, in order, as they were then.
    ghost links_back: { Self → List Self.Link };

    /// The count of faults of `disk`. It stays at the last `u64`.
    fn disk_faults(&self) -> u64
        ensures { result ≡ disk_faults self.now };

    /// The count of faults of `door`. It stays at the last `u64`.
    fn door_faults(&self) -> u64
        ensures { result ≡ door_faults self.now };

    /// The count of faults of `link`. It stays at the last `u64`.
    fn link_faults(&self) -> u64
        ensures { result ≡ link_faults self.now };

    /// The file at `path`, opened anew. A missing file is created, empty.
    fn disk(&mut self, path: &str) -> Result<Self::Disk, HostFault>
        ensures count { CountsFaults (disk_faults self.old) (disk_faults self.new) (host_outcome result) }
        ensures door { door_faults self.new ≡ door_faults self.old }
        ensures link { link_faults self.new ≡ link_faults self.old }
        ensures opened { IfOk result (λ disk. Self.Disk.calls disk ≡ []) }
        ensures given { MatchResult result
            (λ disk. disks_given self.new ≡ disks_given self.old ++ (path.now, disk) ∷ [])
            (λ _. disks_given self.new ≡ disks_given self.old) }
        ensures back { disks_back self.new ≡ disks_back self.old }
        ensures doors { SameGiven doors_given doors_back self.old self.new }
        ensures links { SameGiven links_given links_back self.old self.new };

    /// A door at `port` of this machine.
    fn door(&mut self, port: u16) -> Result<Self::Door, HostFault>
        ensures count { CountsFaults (door_faults self.old) (door_faults self.new) (host_outcome result) }
        ensures disk { disk_faults self.new ≡ disk_faults self.old }
        ensures link { link_faults self.new ≡ link_faults self.old }
        ensures disks { SameGiven disks_given disks_back self.old self.new }
        ensures given { MatchResult result
            (λ door. doors_given self.new ≡ doors_given self.old ++ (port, door) ∷ [])
            (λ _. doors_given self.new ≡ doors_given self.old) }
        ensures back { doors_back self.new ≡ doors_back self.old }
        ensures links { SameGiven links_given links_back self.old self.new };

    /// A link to other machines.
    fn link(&mut self) -> Result<Self::Link, HostFault>
        ensures count { CountsFaults (link_faults self.old) (link_faults self.new) (host_outcome result) }
        ensures disk { disk_faults self.new ≡ disk_faults self.old }
        ensures door { door_faults self.new ≡ door_faults self.old }
        ensures disks { SameGiven disks_given disks_back self.old self.new }
        ensures doors { SameGiven doors_given doors_back self.old self.new }
        ensures given { MatchResult result
            (λ link. links_given self.new ≡ links_given self.old ++ link ∷ [])
            (λ _. links_given self.new ≡ links_given self.old) }
        ensures back { links_back self.new ≡ links_back self.old };

    /// Takes a disk back.
    fn back_disk(&mut self, disk: Self::Disk)
        ensures faults { SameFaults disk_faults door_faults link_faults self.old self.new }
        ensures given { disks_given self.new ≡ disks_given self.old }
        ensures back { disks_back self.new ≡ disks_back self.old ++ disk ∷ [] }
        ensures doors { SameGiven doors_given doors_back self.old self.new }
        ensures links { SameGiven links_given links_back self.old self.new };

    /// Takes a door back.
    fn back_door(&mut self, door: Self::Door)
        ensures faults { SameFaults disk_faults door_faults link_faults self.old self.new }
        ensures disks { SameGiven disks_given disks_back self.old self.new }
        ensures given { doors_given self.new ≡ doors_given self.old }
        ensures back { doors_back self.new ≡ doors_back self.old ++ door ∷ [] }
        ensures links { SameGiven links_given links_back self.old self.new };

    /// Takes a link back.
    fn back_link(&mut self, link: Self::Link)
        ensures faults { SameFaults disk_faults door_faults link_faults self.old self.new }
        ensures disks { SameGiven disks_given disks_back self.old self.new }
        ensures doors { SameGiven doors_given doors_back self.old self.new }
        ensures given { links_given self.new ≡ links_given self.old }
        ensures back { links_back self.new ≡ links_back self.old ++ link ∷ [] };
}
