//! What a history has of a journal's disk. Only contracts see its calls, and they take no memory.
ghost use Rattle.std.specs.Prelude.{◌≡◌};
ghost use Rattle.router_history.specs.Book.{as_opened, opened_of};

use duty_journal::Journal;
use growing_list::{Listed, Shows};
use router_disk::{Disk, DiskCall};

/// Reads the calls of a journal's disk.
struct ShownCalls;

impl<D: Disk> Shows<Journal<D>, DiskCall> for ShownCalls {
    ghost items = { λ j. D.calls j.file.disk };
}

/// The disk of a journal when the book was opened.
#[derive(Drop)]
pub struct OpenedDisk {
    /// The number of faults that it had counted.
    pub faults: u64,
    /// Its calls.
    pub calls: Listed<DiskCall>,
}

impl OpenedDisk {
    /// The journal's disk as it is now.
    pub(crate) fn of<D: Disk>(journal: &Journal<D>) -> OpenedDisk
        ensures { opened_of result ≡ as_opened D.calls D.faults journal.now.file.disk }
    {
        OpenedDisk {
            faults: journal.faults(),
            calls: Listed::of::<Journal<D>, ShownCalls>(journal),
        }
    }
}
