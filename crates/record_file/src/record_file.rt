// A file of records that is open for appends.
ghost use Rattle.std.specs.Prelude.{◌≡◌, ◌++◌, [], ℕ, List, false, true, is_err, if◌then◌else◌, IsErr, IfOk};
ghost use Rattle.router_disk.specs.Disk.{AreAnswers};
ghost use Rattle.router_disk.specs.Faults.{CountsFaults};
ghost use Rattle.record_file.specs.Append.{LeavesBoth, MadeCalls, StaysKept};

use crate::Scan;
use crate::halves::{append_text, write};
use crate::kind::{BEGUN, FIRST_GATE};
use http_server::Log;
use router_disk::{Disk, Failed, Pieces};

/// A file of records that is open for appends. It is not `Drop`: `into_disk` ends it.
pub struct RecordFile<D> {
    pub disk: D,
    /// The place of the closed gate.
    pub gate: u64,
    /// The payloads that were found, and those of each append since. Only contracts see them.
    pub appended: Log<Pieces, ()>,
    pub broken: bool,
}

impl<D: Disk> RecordFile<D> {
    ghost use Rattle.record_file.specs.Records.{IsText, first_gate};
    ghost use Rattle.record_file.specs.Kept.{IsKept, IsOpened};
    ghost use Rattle.record_file.specs.State.{IsEmptyFile, IsScan, IsSound, disk_in, payloads_of};
    ghost use Rattle.record_file.specs.Next.{IsClosedScan};

    /// Appends these payloads, all or none: `text` has their records, and no memory is taken. After an `Err` it is broken, and writes
    /// no more.
    pub fn append(&mut self, text: &[u8], payloads: &Pieces) -> Result<(), Failed>
        requires sound { IsSound D.calls self.old }
        requires text { IsText payloads.now text.now }
        ensures sound { IsSound D.calls self.new }
        ensures payloads { payloads_of self.new ≡ (if is_err result then payloads_of self.old else payloads_of self.old ++ payloads.now) }
        ensures broken { self.new.broken ≡ is_err result }
        ensures no_more { self.old.broken ≡ true → IsErr result × (self.new ≡ self.old) }
        ensures count { self.old.broken ≡ false → CountsFaults (D.faults self.old.disk) (D.faults self.new.disk) result }
        ensures answers { (first : List ℕ) → AreAnswers first (D.calls self.new.disk) → AreAnswers first (D.calls self.old.disk) }
        ensures four_calls { MadeCalls (D.calls self.old.disk) (D.calls self.new.disk) result }
        ensures any_moment { self.old.broken ≡ false →
            LeavesBoth (D.calls self.old.disk) (D.calls self.new.disk) (payloads_of self.old) payloads.now }
        ensures kept { self.old.broken ≡ false →
            StaysKept (D.calls self.old.disk) (D.calls self.new.disk) (payloads_of self.old) payloads.now result }
    {
        if self.broken {
            return Err(Failed);
        }
        match append_text(&mut self.disk, self.gate, text) {
            Ok(()) => {
                let size = text.len() as u64;
                let gate = self.gate.saturating_add(size);
                let appended = self.appended.and(payloads, &());
                self.gate = gate;
                self.appended = appended;
                Ok(())
            }
            Err(Failed) => {
                self.broken = true;
                Err(Failed)
            }
        }
    }

    /// Begins a file that has at most nine bytes: header and closed gate, then a sync. If the disk fails it is returned.
    pub fn begin(mut disk: D) -> Result<RecordFile<D>, D>
        requires { IsEmptyFile (D.calls disk) }
        ensures made { IfOk result (λ f. (payloads_of f ≡ []) × (f.broken ≡ false)) }
        ensures sound { (since : ℕ) → IsOpened (D.calls disk) since → IfOk result (λ f. IsSound D.calls f) }
        ensures kept { (since : ℕ) → IsOpened (D.calls disk) since → (first : List ℕ) → AreAnswers first (D.calls (disk_in result)) →
            IsKept first (D.calls (disk_in result)) [] since [] [] }
        ensures answers { (first : List ℕ) → AreAnswers first (D.calls (disk_in result)) → AreAnswers first (D.calls disk) }
        ensures count { CountsFaults (D.faults disk) (D.faults (disk_in result)) result }
    {
        let appended = Log::new();
        match write(&mut disk, 0, &BEGUN) {
            Ok(()) => Ok(RecordFile {
                disk,
                gate: FIRST_GATE,
                appended,
                broken: false,
            }),
            Err(Failed) => Err(disk),
        }
    }

    /// Goes on with a file whose records were scanned up to a closed gate. It makes no call.
    pub fn resume(disk: D, scan: Scan) -> RecordFile<D>
        requires scan { IsScan (D.calls disk) scan }
        requires closed { IsClosedScan (D.calls disk) scan }
        requires first { scan.first ≡ first_gate }
        ensures made { (result.disk ≡ disk) × (payloads_of result ≡ scan.found) × (result.broken ≡ false) }
        ensures sound { (since : ℕ) → IsOpened (D.calls disk) since → IsSound D.calls result }
        ensures kept { (since : ℕ) → IsOpened (D.calls disk) since → (first : List ℕ) → AreAnswers first (D.calls disk) →
            IsKept first (D.calls disk) scan.found since scan.found scan.found }
    {
        let log = Log::new();
        let appended = log.and(&scan.found, &());
        RecordFile {
            disk,
            gate: scan.place,
            appended,
            broken: false,
        }
    }

    /// Whether an append failed.
    pub fn is_broken(&self) -> bool
        ensures { result ≡ self.now.broken }
    {
        self.broken
    }

    /// Ends it.
    pub fn into_disk(self) -> D
        ensures { result ≡ self.disk }
    {
        let RecordFile {
            disk,
            gate: _,
            appended: _,
            broken: _,
        } = self;
        disk
    }
}
