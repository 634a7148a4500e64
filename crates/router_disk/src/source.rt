// A source of bytes as a trait.
ghost use Rattle.std.specs.Prelude.{◌≡◌, ◌<◌, ℕ, List, Option, length};
ghost use Rattle.std.specs.Io.{ReadsAtMost};
ghost use Rattle.std.specs.Io.KnownBytes.{ReadConsumes};
ghost use Rattle.router_disk.specs.Faults.{CountsFaults};
ghost use Rattle.router_disk.specs.Source.{GivesPiece};

use crate::Failed;

/// A source of bytes, as the standard input or a connection.
pub trait Source: Send {
    /// The bytes that reads give from here on, up to the end. `None` if they are not known.
    ghost left: { Self → Option (List ℕ) };

    /// What each read so far gave, piece by piece. The empty piece is the end of the input.
    ghost gave: { Self → List (List ℕ) };

    /// The number of reads that have failed.
    ghost faults: { Self → ℕ };

    /// The count of faults. It stays at the last `u64`.
    fn faults(&self) -> u64
        ensures { result ≡ faults self.now };

    /// Says that the next read begins between messages. A source may use it to choose when the input ends.
    fn rests(&mut self)
        ensures left { left self.new ≡ left self.old }
        ensures gave { gave self.new ≡ gave self.old }
        ensures faults { faults self.new ≡ faults self.old }
    {}

    /// Reads bytes into the front of `buf`, which has room, and returns how many. 0 is the end: no byte is left.
    /// An `Err` consumes nothing. Bytes of `buf` after those that were read may have changed, at an `Err` all of them.
    fn read(&mut self, buf: &mut [u8]) -> Result<usize, Failed>
        requires room { 0 < length buf.old }
        ensures within { ReadsAtMost result buf.new }
        ensures bytes { ReadConsumes (left self.old) (left self.new) result buf.new }
        ensures piece { GivesPiece (gave self.old) (gave self.new) result buf.new }
        ensures count { CountsFaults (faults self.old) (faults self.new) result };
}
