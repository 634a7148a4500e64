//! A journal: a file of records, each with the bytes of a batch, that is open for appends.
ghost use Rattle.std.specs.Prelude.{◌≡◌, ◌++◌, ◌∷◌, [], ℕ, List, map};
ghost use Rattle.router_requests.specs.Batch.{Batch};
ghost use Rattle.router_core.specs.Tables.{Tables};
ghost use Rattle.record_file.specs.Records.{IsText, laid};
ghost use Rattle.duty_journal.specs.Batch.{batch_bytes};

use crate::fault::DiskFault;
use crate::prepared::Prepared;
use record_file::RecordFile;
use router_disk::{Disk, Failed, Pieces};

/// A journal that is open for appends. It is not `Drop`: `into_disk` ends it.
pub struct Journal<D> {
    pub file: RecordFile<D>,
}

impl<D: Disk> Journal<D> {
    ghost use Rattle.duty_journal.specs.Journal.{AreRecordable, IsAppended, IsSoundJournal, batches_of};

    /// Appends the batches, all or none, and takes no memory. The records and a closed gate are laid and synced; then the gate before them
    /// is opened and synced. After an `Err` the journal is broken, and writes no more.
    pub fn append(&mut self, prepared: &Prepared) -> Result<(), DiskFault>
        requires sound { IsSoundJournal D.calls self.old }
        requires next { (start : Tables) × AreRecordable start (batches_of self.old ++ prepared.now) }
        ensures { IsAppended D.calls D.faults self.old self.new prepared.now result }
    {
        self.append_payloads(prepared.bytes(), prepared.payloads())
    }

    /// Appends the batch of one attempt, whose record `attempt_record` makes. Otherwise as `append`.
    pub fn append_attempt(&mut self, text: &[u8; 31]) -> Result<(), DiskFault>
        requires sound { IsSoundJournal D.calls self.old }
        requires next { (start : Tables) × (b : Batch) × (text.now ≡ laid (batch_bytes b ∷ [])) × AreRecordable start (batches_of self.old ++ b ∷ []) }
        ensures { (start : Tables) (b : Batch) → text.now ≡ laid (batch_bytes b ∷ []) → AreRecordable start (batches_of self.old ++ b ∷ []) →
            IsAppended D.calls D.faults self.old self.new (b ∷ []) result }
    {
        let mut payloads = Pieces::new();
        payloads.hear(&text[8..30]);
        self.append_payloads(text, &payloads)
    }

    // Appends the batches with these payloads.
    fn append_payloads(&mut self, text: &[u8], payloads: &Pieces) -> Result<(), DiskFault>
        requires sound { IsSoundJournal D.calls self.old }
        requires text { IsText payloads.now text.now }
        ensures { (start : Tables) (more : List Batch) → payloads.now ≡ map batch_bytes more → AreRecordable start (batches_of self.old ++ more) →
            IsAppended D.calls D.faults self.old self.new more result }
    {
        match self.file.append(text, payloads) {
            Ok(()) => Ok(()),
            Err(Failed) => Err(DiskFault),
        }
    }

    /// Whether an append failed.
    pub fn is_broken(&self) -> bool
        ensures { result ≡ self.now.file.broken }
    {
        self.file.is_broken()
    }

    /// The disk's count of faults.
    pub fn faults(&self) -> u64
        ensures { result ≡ D.faults self.now.file.disk }
    {
        self.file.disk.faults()
    }

    /// Ends it.
    pub fn into_disk(self) -> D
        ensures { result ≡ self.file.disk }
    {
        let Journal { file } = self;
        file.into_disk()
    }
}
