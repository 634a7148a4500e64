// The disk of a journal, whose failures the connections of a door see.
use crate::FaultFlag;
use router_disk::{Disk, Failed};

/// A disk with a flag that the first failed call sets. Its calls are those of the disk: each is passed on.
#[derive(Drop)]
pub struct JournalDisk<D> {
    disk: D,
    flag: FaultFlag,
}

impl<D> JournalDisk<D> {
    ghost use Rattle.std.specs.Prelude.{◌≡◌};

    /// `disk` with this flag.
    pub fn new(disk: D, flag: FaultFlag) -> Self
        ensures { result.disk ≡ disk }
    {
        JournalDisk { disk, flag }
    }
}

impl<D: Disk> Disk for JournalDisk<D> {
    ghost calls = { λ d. D.calls d.disk };

    ghost faults = { λ d. D.faults d.disk };

    fn faults(&self) -> u64 {
        self.disk.faults()
    }

    fn size(&mut self) -> Result<u64, Failed> {
        let answer = self.disk.size();
        self.flag.noted(answer)
    }

    fn read(&mut self, at: u64, into: &mut [u8]) -> Result<(), Failed> {
        let answer = self.disk.read(at, into);
        self.flag.noted(answer)
    }

    fn write_at(&mut self, at: u64, bytes: &[u8]) -> Result<(), Failed> {
        let answer = self.disk.write_at(at, bytes);
        self.flag.noted(answer)
    }

    fn cut(&mut self, len: u64) -> Result<(), Failed> {
        let answer = self.disk.cut(len);
        self.flag.noted(answer)
    }

    fn sync(&mut self) -> Result<(), Failed> {
        let answer = self.disk.sync();
        self.flag.noted(answer)
    }
}
