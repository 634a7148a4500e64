//! A journal is opened, or read.
ghost use Rattle.std.specs.Prelude.{◌≡◌, ◌<◌, [], ℕ, List, Some, false, IfOk, IfErr};
ghost use Rattle.router_disk.specs.Disk.{AreAnswers, file_of};
ghost use Rattle.record_file.specs.State.{Counts, IsScan, OnlyLooks};
ghost use Rattle.record_file.specs.Kept.{IsOpened};
ghost use Rattle.record_file.specs.Next.{IsClosedScan};
ghost use Rattle.record_file.specs.Records.{first_gate};
ghost use Rattle.router_core.specs.Tables.{first_tables};
ghost use Rattle.duty_journal.specs.Journal.{IsJournal, IsSoundJournal, batches_in, batches_of};
ghost use Rattle.duty_journal.specs.Redo.{HasNoClaim};
ghost use Rattle.duty_journal.specs.Recovery.{HasFault, IsFound, IsOfSize, IsPlaced, IsRead, IsReadTo, IsRedone, IsStep, batches_found, outcome_of, step_outcome};

use crate::fault::{JournalFault, ReplayFault};
use crate::journal::Journal;
use crate::redo::replay_batch;
use crate::take::take_batch;
use http_server::Log;
use json_text::NoMemory;
use record_file::{FIRST_GATE, FileKind, Next, RecordFile, Scan, file_kind, settle};
use router_core::Tables;
use router_disk::{Disk, Failed, Pieces};
use std::alloc::Global;

/// What a journal holds.
#[derive(Drop)]
pub struct Found {
    /// The tables after its batches.
    pub tables: Tables,
    /// The payloads of its records. Only contracts see them.
    pub payloads: Log<Pieces, ()>,
}

/// What was done with the next record.
pub enum Step {
    Went,
    Closed,
    Damaged(u64, u64),
    Failed,
    NoMemory,
}

/// Reads the journal whose file this is. It neither writes nor syncs.
pub fn inspect<D: Disk>(alloc: Global, disk: &mut D) -> Result<Found, JournalFault>
    ensures looks { OnlyLooks (D.calls disk.old) (D.calls disk.new) }
    ensures found { IfOk result (λ f. IsFound first_tables f) }
    ensures journal { IfOk result (λ f. (first file : List ℕ) → AreAnswers first (D.calls disk.new) → file_of first (D.calls disk.new) ≡ Some file →
        IsJournal file first_tables (batches_found f)) }
    ensures fault { IfErr result (λ fault. HasFault first_tables (D.calls disk.new) fault) }
    ensures count { Counts (D.faults disk.old) (D.faults disk.new) (outcome_of result) }
{
    match file_kind(disk) {
        FileKind::Records(size) => match read_records(alloc, disk, size) {
            Ok((scan, tables)) => Ok(found_in(&scan.found, tables)),
            Err(fault) => Err(fault),
        },
        FileKind::Empty => nothing_found(alloc),
        FileKind::NotOurs => Err(JournalFault::NotOurs),
        FileKind::Failed => Err(JournalFault::Failed),
    }
}

impl<D: Disk> Journal<D> {
    ghost use Rattle.duty_journal.specs.Recovery.{HasOpened, IsStoppedOpening, disk_left, opening_of};

    /// Opens the journal on a disk that was just opened, after a sync. A file of at most nine bytes is begun: header and closed gate are
    /// written, and synced. Otherwise nothing is written. An `Err` returns the disk.
    pub fn recover(alloc: Global, mut disk: D) -> Result<(Journal<D>, Found), (JournalFault, D)>
        requires just_opened { D.calls disk ≡ [] }
        ensures found { IfOk result (λ r. IsFound first_tables r.1 × (batches_of r.0 ≡ batches_found r.1) × (r.0.file.broken ≡ false)
            × IsSoundJournal D.calls r.0) }
        ensures opened { IfOk result (λ r. (first : List ℕ) → AreAnswers first (D.calls r.0.file.disk) →
            HasOpened first (D.calls r.0.file.disk) (batches_found r.1)) }
        ensures fault { IfErr result (λ e. HasFault first_tables (D.calls e.1) e.0) }
        ensures unwritten { IfErr result (λ e. ¬ (e.0 ≡ JournalFault.Failed) → IsOpened (D.calls e.1) 1) }
        ensures stopped { IfErr result (λ e. IsStoppedOpening (D.calls e.1)) }
        ensures count { Counts (D.faults disk) (D.faults (disk_left result)) (opening_of result) }
    {
        match settle(&mut disk) {
            Ok(()) => {}
            Err(Failed) => return Err((JournalFault::Failed, disk)),
        }
        match file_kind(&mut disk) {
            FileKind::Records(size) => match read_records(alloc, &mut disk, size) {
                Ok((scan, tables)) => {
                    let found = found_in(&scan.found, tables);
                    let file = RecordFile::resume(disk, scan);
                    Ok((Journal { file }, found))
                }
                Err(fault) => Err((fault, disk)),
            },
            FileKind::Empty => match nothing_found(alloc) {
                Ok(found) => match RecordFile::begin(disk) {
                    Ok(file) => Ok((Journal { file }, found)),
                    Err(disk) => Err((JournalFault::Failed, disk)),
                },
                Err(fault) => Err((fault, disk)),
            },
            FileKind::NotOurs => Err((JournalFault::NotOurs, disk)),
            FileKind::Failed => Err((JournalFault::Failed, disk)),
        }
    }
}

/// What a journal without a record holds.
fn nothing_found(alloc: Global) -> Result<Found, JournalFault>
    ensures found { IfOk result (λ f. IsFound first_tables f × (batches_found f ≡ [])) }
    ensures memory { IfErr result (λ fault. fault ≡ JournalFault.NoMemory) }
{
    match Tables::first(alloc) {
        Ok(tables) => Ok(Found {
            tables,
            payloads: Log::new(),
        }),
        Err(NoMemory) => Err(JournalFault::NoMemory),
    }
}

/// What records with these payloads hold.
fn found_in(payloads: &Pieces, tables: Tables) -> Found
    ensures tables { result.tables ≡ tables }
    ensures batches { batches_found result ≡ batches_in payloads.now }
{
    let none: Log<Pieces, ()> = Log::new();
    Found {
        tables,
        payloads: none.and(payloads, &()),
    }
}

/// Reads the records of a file that has the header and this size.
fn read_records<D: Disk>(
    alloc: Global,
    disk: &mut D,
    size: u64,
) -> Result<(Scan, Tables), JournalFault>
    requires long { 9 < size }
    requires records { IsOfSize size (D.calls disk.old) }
    ensures looks { OnlyLooks (D.calls disk.old) (D.calls disk.new) }
    ensures count { Counts (D.faults disk.old) (D.faults disk.new) (outcome_of result) }
    ensures ok { IfOk result (λ r. IsScan (D.calls disk.new) r.0 × IsClosedScan (D.calls disk.new) r.0 × IsReadTo first_tables r.0 r.1 × (r.0.first ≡ first_gate)) }
    ensures fault { IfErr result (λ fault. HasFault first_tables (D.calls disk.new) fault) }
{
    let mut tables = match Tables::first(alloc) {
        Ok(tables) => tables,
        Err(NoMemory) => return Err(JournalFault::NoMemory),
    };
    let mut scan = Scan::new(alloc, size, FIRST_GATE);
    match redo_all(alloc, disk, &mut scan, &mut tables) {
        Ok(()) => Ok((scan, tables)),
        Err(fault) => Err(fault),
    }
}

/// Applies the batches of the records from the scan's place on, up to a closed gate.
fn redo_all<D: Disk>(
    alloc: Global,
    disk: &mut D,
    scan: &mut Scan,
    tables: &mut Tables,
) -> Result<(), JournalFault>
    requires unclaimed { HasNoClaim tables.old }
    ensures looks { OnlyLooks (D.calls disk.old) (D.calls disk.new) }
    ensures count { Counts (D.faults disk.old) (D.faults disk.new) (outcome_of result) }
    ensures read { IsRead (D.calls disk.old) (D.calls disk.new) scan.old tables.old scan.new tables.new result }
{
    'records: loop {
        match read_next(alloc, disk, scan, tables) {
            Step::Went => {}
            Step::Closed => return Ok(()),
            Step::Damaged(place, byte) => return Err(JournalFault::Damaged { place, byte }),
            Step::Failed => return Err(JournalFault::Failed),
            Step::NoMemory => return Err(JournalFault::NoMemory),
        }
    }
}

/// Applies the batch of the next record.
fn read_next<D: Disk>(alloc: Global, disk: &mut D, scan: &mut Scan, tables: &mut Tables) -> Step
    requires unclaimed { HasNoClaim tables.old }
    ensures looks { OnlyLooks (D.calls disk.old) (D.calls disk.new) }
    ensures count { Counts (D.faults disk.old) (D.faults disk.new) (step_outcome result) }
    ensures step { IsStep (D.calls disk.old) (D.calls disk.new) scan.old tables.old scan.new tables.new result }
{
    match scan.next(disk) {
        Next::Record => redo_record(alloc, scan, tables),
        Next::Closed => Step::Closed,
        Next::Damaged => damage_at(scan),
        Next::Failed => Step::Failed,
        Next::NoMemory => Step::NoMemory,
    }
}

/// Applies the batch of the record that the scan shows.
fn redo_record(alloc: Global, scan: &mut Scan, tables: &mut Tables) -> Step
    requires unclaimed { HasNoClaim tables.old }
    ensures { IsRedone scan.old tables.old scan.new tables.new result }
{
    match take_batch(alloc, scan.payload()) {
        Ok(found) => match found {
            Some(batch) => match replay_batch(alloc, tables, batch) {
                Ok(redo) => {
                    redo.apply(tables);
                    scan.admit();
                    Step::Went
                }
                Err(ReplayFault::NotAdmitted) => damage_at(scan),
                Err(ReplayFault::NoMemory) => Step::NoMemory,
            },
            None => damage_at(scan),
        },
        Err(NoMemory) => Step::NoMemory,
    }
}

/// The place of the record that comes next.
fn damage_at(scan: &Scan) -> Step
    ensures { IsPlaced scan.now result }
{
    let (place, byte) = scan.place();
    Step::Damaged(place, byte)
}
