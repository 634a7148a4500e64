// A sink of bytes as a trait.
ghost use Rattle.std.specs.Prelude.{◌≡◌, ℕ, List, Option};
ghost use Rattle.router_disk.specs.Faults.{CountsFaults};
ghost use Rattle.router_disk.specs.Sink.{AddsBytes, WritesAll};

use crate::Failed;

/// A sink of bytes, as the standard output or a connection.
pub trait Sink: Send {
    /// The bytes written so far. `None` if they are not known.
    ghost written: { Self → Option (List ℕ) };

    /// The bytes written so far. After a write that failed, a first part of its bytes is among them.
    ghost wrote: { Self → List ℕ };

    /// The number of writes that have failed.
    ghost faults: { Self → ℕ };

    /// The count of faults. It stays at the last `u64`.
    fn faults(&self) -> u64
        ensures { result ≡ faults self.now };

    /// Writes all of `bytes`. After an `Err` a first part of them is written, which may be none or all.
    fn write_all(&mut self, bytes: &[u8]) -> Result<(), Failed>
        ensures bytes { WritesAll (written self.old) (written self.new) result bytes.now }
        ensures wrote { AddsBytes (wrote self.old) (wrote self.new) result bytes.now }
        ensures count { CountsFaults (faults self.old) (faults self.new) result };
}
