// The two halves of an append. Each ends with a sync.
ghost use Rattle.std.specs.Prelude.{◌≡◌, ◌+◌, ◌∷◌, [], min};
ghost use Rattle.router_disk.specs.Faults.{CountsFaults};
ghost use Rattle.record_file.specs.Append.{AreAppended, IsWritten, last};

use router_disk::{Disk, Failed};

// Appends a text at the closed gate `gate`.
pub(crate) fn append_text<D: Disk>(disk: &mut D, gate: u64, text: &[u8]) -> Result<(), Failed>
    ensures calls { AreAppended (D.calls disk.old) gate text.now result (D.calls disk.new) }
    ensures count { CountsFaults (D.faults disk.old) (D.faults disk.new) result }
{
    match lay(disk, gate, text) {
        Ok(()) => open(disk, gate),
        Err(Failed) => Err(Failed),
    }
}

// Writes records and a closed gate after the gate, which stays closed.
fn lay<D: Disk>(disk: &mut D, gate: u64, text: &[u8]) -> Result<(), Failed>
    ensures calls { IsWritten (D.calls disk.old) (min (gate + 1) last) text.now result (D.calls disk.new) }
    ensures count { CountsFaults (D.faults disk.old) (D.faults disk.new) result }
{
    write(disk, gate.saturating_add(1), text)
}

// Opens the gate, after which all records that were laid count.
fn open<D: Disk>(disk: &mut D, gate: u64) -> Result<(), Failed>
    ensures calls { IsWritten (D.calls disk.old) gate (1 ∷ []) result (D.calls disk.new) }
    ensures count { CountsFaults (D.faults disk.old) (D.faults disk.new) result }
{
    write(disk, gate, &[1])
}

// Writes, and returns once the bytes are on the disk.
pub(crate) fn write<D: Disk>(disk: &mut D, at: u64, bytes: &[u8]) -> Result<(), Failed>
    ensures calls { IsWritten (D.calls disk.old) at bytes.now result (D.calls disk.new) }
    ensures count { CountsFaults (D.faults disk.old) (D.faults disk.new) result }
{
    match disk.write_at(at, bytes) {
        Ok(()) => {}
        Err(Failed) => return Err(Failed),
    }
    match disk.sync() {
        Ok(()) => Ok(()),
        Err(Failed) => Err(Failed),
    }
}
