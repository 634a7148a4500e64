//! Where batches are appended: to a journal, or nowhere.
ghost use Rattle.std.specs.Prelude.{◌≡◌, IfOk};
ghost use Rattle.entry_bytes.specs.Duty.{IsOutcome};
ghost use Rattle.router_requests.specs.Batch.{Batch as BatchView};
ghost use Rattle.router_core.specs.Steps.{record_of};
ghost use Rattle.router_requests.specs.View.{batch_of};

use crate::fault::DiskFault;
use crate::journal::Journal;
use crate::prepared::{Prepared, prepare};
use crate::record::attempt_record;
use delivery_duties::Outcome;
use json_text::NoMemory;
use router_disk::Disk;
use router_requests::Batch;
use std::alloc::Global;

/// Where batches are appended. It is not `Drop`: `into_disk` ends it.
pub enum Home<D> {
    /// Nowhere: an append does nothing, and never fails.
    Nowhere,
    Journal(Journal<D>),
}

impl<D: Disk> Home<D> {
    ghost use Rattle.duty_journal.specs.Home.{CanAppend, HasAppended, IsPreparedFor, IsSoundHome, disk_in, is_broken_home};

    /// Allocates what the append of the batch needs. Without a journal that is nothing.
    pub fn prepare(&self, alloc: Global, batch: &Batch) -> Result<Option<Prepared>, NoMemory>
        ensures { IfOk result (λ p. IsPreparedFor self.now p (batch_of batch.now)) }
    {
        match self {
            Home::Nowhere => Ok(None),
            Home::Journal(_) => match prepare(alloc, batch) {
                Ok(prepared) => Ok(Some(prepared)),
                Err(NoMemory) => Err(NoMemory),
            },
        }
    }

    /// Appends the batch that was prepared, as `Journal::append`. Without a journal it does nothing.
    pub fn append(&mut self, prepared: &Option<Prepared>) -> Result<(), DiskFault>
        requires sound { IsSoundHome D.calls self.old }
        requires next { (b : BatchView) × IsPreparedFor self.old prepared.now b × CanAppend self.old b }
        ensures { (b : BatchView) → IsPreparedFor self.old prepared.now b → CanAppend self.old b →
            HasAppended D.calls D.faults self.old self.new b result }
    {
        match self {
            Home::Nowhere => Ok(()),
            Home::Journal(journal) => match prepared {
                Some(prepared) => journal.append(prepared),
                None => unreachable!(),
            },
        }
    }

    /// Appends the batch of one attempt, as `Journal::append_attempt`. It takes no memory.
    pub fn append_attempt(
        &mut self,
        moment: u64,
        duty: u64,
        outcome: Outcome,
    ) -> Result<(), DiskFault>
        requires sound { IsSoundHome D.calls self.old }
        requires next { CanAppend self.old (record_of moment duty outcome) }
        ensures { HasAppended D.calls D.faults self.old self.new (record_of moment duty outcome) result }
    {
        has_bytes(outcome);
        match self {
            Home::Nowhere => Ok(()),
            Home::Journal(journal) => {
                journal.append_attempt(&attempt_record(moment, duty, outcome))
            }
        }
    }

    /// Whether an append failed.
    pub fn is_broken(&self) -> bool
        ensures { result ≡ is_broken_home self.now }
    {
        match self {
            Home::Nowhere => false,
            Home::Journal(journal) => journal.is_broken(),
        }
    }

    /// Ends it, and returns the journal's disk, if there is a journal.
    pub fn into_disk(self) -> Option<D>
        ensures { result ≡ disk_in self }
    {
        match self {
            Home::Nowhere => None,
            Home::Journal(journal) => Some(journal.into_disk()),
        }
    }
}

// An outcome has bytes.
fn has_bytes(outcome: Outcome)
    ensures { IsOutcome outcome }
{
    match outcome {
        Outcome::Code(_code) => (),
        Outcome::Accepted | Outcome::NoAnswer | Outcome::NoQueue | Outcome::TooOld => (),
    }
}
