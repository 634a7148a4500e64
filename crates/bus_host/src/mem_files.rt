// The files of a host in memory.
ghost use Rattle.std.specs.Prelude.{◌≡◌, [], ◌∷◌, ◌++◌, MatchResult, map};
ghost use Rattle.router_disk.specs.Faults.{CountsFaults};
ghost use Rattle.bus_host.specs.HostFault.{host_outcome};
ghost use Rattle.bus_host.specs.Files.{OpensByPlan, TookDiskBack};

use crate::{HostFault, raise};
use http_server::Log;
use memory_disk::MemoryDisk;
use router_disk::Heard;
use std::alloc::Global;
use std::collections::LinkedList;
use std::marker::Model;

/// A file of a host in memory: its bytes, and which of the calls of a disk over it fail.
#[derive(Drop)]
pub struct MemFile {
    pub bytes: Vec<u8>,
    /// Of the calls to come, in order, whether they fail; later ones do not.
    pub fails: Vec<bool>,
}

/// The files of a host in memory, and the disks over them. Each call for a disk opens the file that is planned for it, or has the fault that
/// is planned. After the last planned result each call fails.
#[derive(Drop)]
pub struct MemFiles {
    alloc: Global,
    planned: LinkedList<Result<MemFile, HostFault>>,
    given: Log<Heard, MemoryDisk>,
    back: Log<MemoryDisk, ()>,
    held: Vec<MemoryDisk>,
    faults: u64,
}

impl Model for MemFiles {
    ghost use Rattle.std.specs.Prelude.{map};
    ghost use Rattle.bus_host.specs.Files.{HeldFiles};

    ghost Value = { HeldFiles };

    ghost view = { λ f. record {
      planned = f.planned;
      given = f.given.items;
      back = map (λ pair. pair.0) f.back.items;
      held = f.held.items;
      faults = f.faults;
    } };
}

impl MemFiles {
    /// Files that plan these results. No disk was given, and none came back.
    pub fn new(alloc: Global, planned: LinkedList<Result<MemFile, HostFault>>) -> Self
        ensures { result ≡ record { planned = planned; given = []; back = []; held = []; faults = 0 } }
    {
        MemFiles {
            alloc,
            planned,
            given: Log::new(),
            back: Log::new(),
            held: Vec::new(alloc),
            faults: 0,
        }
    }

    /// The disks that came back, in order, as they were then. What there was no memory for is missing, and only that.
    pub fn held(&self) -> &[MemoryDisk]
        ensures { result.now ≡ self.now.held }
    {
        &self.held
    }

    /// The number of calls that have failed. It stays at the last `u64`.
    pub fn faults(&self) -> u64
        ensures { result ≡ self.now.faults }
    {
        self.faults
    }

    /// A disk over the file that is planned next.
    pub(crate) fn open(&mut self, path: &str) -> Result<MemoryDisk, HostFault>
        ensures count { CountsFaults self.old.faults self.new.faults (host_outcome result) }
        ensures plan { OpensByPlan self.old self.new result }
        ensures given { MatchResult result
            (λ disk. self.new.given ≡ self.old.given ++ (path.now, disk) ∷ [])
            (λ _. self.new.given ≡ self.old.given) }
        ensures back { (self.new.back ≡ self.old.back) × (self.new.held ≡ self.old.held) }
    {
        if self.faults == u64::MAX {
            return Err(HostFault::Failed);
        }
        match self.planned.pop_front() {
            Some(Ok(file)) => {
                let MemFile { bytes, fails } = file;
                match MemoryDisk::new(self.alloc, &bytes, fails) {
                    Ok(disk) => {
                        let mut name = Heard::new();
                        name.hear(path.as_bytes());
                        self.given = self.given.and(&name, &disk);
                        Ok(disk)
                    }
                    Err(_) => Err(HostFault::NoMemory),
                }
            }
            Some(Err(HostFault::NoMemory)) => Err(HostFault::NoMemory),
            Some(Err(HostFault::Failed)) => {
                raise(&mut self.faults);
                Err(HostFault::Failed)
            }
            None => {
                raise(&mut self.faults);
                Err(HostFault::Failed)
            }
        }
    }

    /// Takes a disk back.
    pub(crate) fn take_back(&mut self, disk: MemoryDisk)
        ensures { TookDiskBack self.old self.new disk }
    {
        self.back = self.back.and(&disk, &());
        let _ = self.held.push(disk);
    }
}
