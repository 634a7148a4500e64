// What a file is, before its records are read.
ghost use Rattle.std.specs.Prelude.{◌≡◌, ◌+◌, ◌<◌, ◌≤◌, [], ◌∷◌, ℕ, List, Some, length, OnOk};
ghost use Rattle.router_disk.specs.declared.disk_call.DiskCall.TheVariants as disk_calls;
ghost use Rattle.router_disk.specs.Disk.{AreAnswers, file_of};
ghost use Rattle.record_file.specs.State.{Counts, OnlyLooks};
ghost use Rattle.router_disk.specs.Faults.{CountsFaults};
ghost use Rattle.record_file.specs.FileKind.{IsKind, kind_outcome};
ghost use Rattle.record_file.specs.Kept.{IsOpened};

use router_disk::{Disk, Failed};

// The first bytes of a file of records.
const HEADER: [u8; 8] = *b"EBJRNL1\n";

/// The place of the first gate, after the header.
pub const FIRST_GATE: u64 = 8;

// A file with no record: header and closed gate.
pub(crate) const BEGUN: [u8; 9] = *b"EBJRNL1\n\0";

/// Syncs a disk that was just opened. A read then gives what it gave at first, and no crash leaves anything else.
pub fn settle<D: Disk>(disk: &mut D) -> Result<(), Failed>
    requires { D.calls disk.old ≡ [] }
    ensures call { D.calls disk.new ≡ disk_calls.Sync result ∷ [] }
    ensures opened { OnOk result (IsOpened (D.calls disk.new) 1) }
    ensures count { CountsFaults (D.faults disk.old) (D.faults disk.new) result }
{
    disk.sync()
}

/// What a file is, by its length and its first bytes.
pub enum FileKind {
    /// At most nine bytes: it was never begun.
    Empty,
    /// It has the header, and this length.
    Records(u64),
    /// Another header.
    NotOurs,
    /// A call failed. The disk's count of faults shows it.
    Failed,
}

/// What the file is. It writes nothing.
pub fn file_kind<D: Disk>(disk: &mut D) -> FileKind
    ensures looks { OnlyLooks (D.calls disk.old) (D.calls disk.new) }
    ensures count { Counts (D.faults disk.old) (D.faults disk.new) (kind_outcome result) }
    ensures opened { (since : ℕ) → IsOpened (D.calls disk.old) since → IsOpened (D.calls disk.new) since }
    ensures long { (size : ℕ) → result ≡ FileKind.Records size → 9 < size }
    ensures kind { (first file : List ℕ) → AreAnswers first (D.calls disk.new) → file_of first (D.calls disk.old) ≡ Some file →
        IsKind file result }
{
    let size = match disk.size() {
        Ok(size) => size,
        Err(Failed) => return FileKind::Failed,
    };
    if size <= 9 {
        return FileKind::Empty;
    }
    let mut begins = [0u8; 8];
    match disk.read(0, &mut begins) {
        Ok(()) => {}
        Err(Failed) => return FileKind::Failed,
    }
    if begins == HEADER {
        FileKind::Records(size)
    } else {
        FileKind::NotOurs
    }
}
