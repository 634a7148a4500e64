// A file on a disk as a trait.
ghost use Rattle.std.specs.Prelude.{◌≡◌, ◌++◌, ◌∷◌, [], ℕ, List};
ghost use Rattle.router_disk.specs.declared.disk_call.DiskCall.{DiskCall};
ghost use Rattle.router_disk.specs.Faults.{CountsFaults};

use crate::Failed;

/// A file on a disk, as it was opened and from then on. It shows its calls with their answers. What these say of what a read gives and of
/// what a crash may leave is defined in `specs/Disk.antt`, for each content that the file may have had at first.
pub trait Disk: Send {
    /// The calls so far with their answers, in order, from the moment when the file was opened.
    ghost calls: { Self → List DiskCall };

    /// The number of calls that have failed.
    ghost faults: { Self → ℕ };

    /// The count of faults. It stays at the last `u64`.
    fn faults(&self) -> u64
        ensures { result ≡ faults self.now };

    /// The length in bytes.
    fn size(&mut self) -> Result<u64, Failed>
        ensures call { calls self.new ≡ calls self.old ++ DiskCall.Size result ∷ [] }
        ensures count { CountsFaults (faults self.old) (faults self.new) result };

    /// Fills `into` with the bytes from place `at` on. Fails if the file ends early.
    fn read(&mut self, at: u64, into: &mut [u8]) -> Result<(), Failed>
        ensures call { calls self.new ≡ calls self.old ++ DiskCall.Read at into.new result ∷ [] }
        ensures count { CountsFaults (faults self.old) (faults self.new) result };

    /// Overwrites the file from place `at` on, and extends it if need be.
    fn write_at(&mut self, at: u64, bytes: &[u8]) -> Result<(), Failed>
        ensures call { calls self.new ≡ calls self.old ++ DiskCall.Write at bytes.now result ∷ [] }
        ensures count { CountsFaults (faults self.old) (faults self.new) result };

    /// Cuts the file to `len` bytes. Fails if the file is shorter.
    fn cut(&mut self, len: u64) -> Result<(), Failed>
        ensures call { calls self.new ≡ calls self.old ++ DiskCall.Cut len result ∷ [] }
        ensures count { CountsFaults (faults self.old) (faults self.new) result };

    /// Returns once all that was written is on the disk.
    fn sync(&mut self) -> Result<(), Failed>
        ensures call { calls self.new ≡ calls self.old ++ DiskCall.Sync result ∷ [] }
        ensures count { CountsFaults (faults self.old) (faults self.new) result };
}
