//! A book is opened.
ghost use Rattle.std.specs.Prelude.{◌≡◌, [], ℕ, IfOk, IfErr, IfSome, Some};
ghost use Rattle.turn_book.specs.Rule.{turns_by};
ghost use Rattle.router_history.specs.Book.{recorded_in};
ghost use Rattle.router_history.specs.Home.{IsSoundBook};
ghost use Rattle.book_recovery.specs.Opened.{HasOpenFault, IsOpenedOn};

use duty_journal::{Journal, JournalFault as OpenFault};
use json_text::NoMemory;
use router_disk::Disk;
use router_history::Book;
use std::alloc::Global;

/// A book that was opened. It is not `Drop`: `book` takes it.
pub struct Opened<D: Disk> {
    pub book: Book<D>,
}

impl<D: Disk> Opened<D> {
    /// The book, whose first turn has what was found.
    pub fn book(self) -> Book<D>
        ensures { result ≡ self.book }
    {
        let Opened { book } = self;
        book
    }
}

/// Opens the book of the journal on a disk that was just opened, as `Journal::recover`; without a disk, a book without a journal. An `Err` returns
/// the disk.
pub fn recover_book<D: Disk>(
    alloc: Global,
    disk: Option<D>,
) -> Result<Opened<D>, (OpenFault, Option<D>)>
    requires just_opened { IfSome disk (λ d. D.calls d ≡ []) }
    ensures opened { IfOk result (λ o. IsOpenedOn D.calls D.faults disk o.book) }
    ensures unmade { IfOk result (λ o. (n : ℕ) → turns_by (λ t. t.pass) n (recorded_in o.book.machine.history) ≡ []) }
    ensures book { IfOk result (λ o. IsSoundBook D.calls D.faults o.book) }
    ensures fault { IfErr result (λ e. HasOpenFault D.calls D.faults disk e.1 e.0) }
{
    match disk {
        Some(disk) => open_journal(alloc, disk),
        None => match Book::first(alloc) {
            Ok(book) => Ok(Opened { book }),
            Err(NoMemory) => Err((OpenFault::NoMemory, None)),
        },
    }
}

/// Opens the book of the journal on the disk.
fn open_journal<D: Disk>(alloc: Global, disk: D) -> Result<Opened<D>, (OpenFault, Option<D>)>
    requires just_opened { D.calls disk ≡ [] }
    ensures opened { IfOk result (λ o. IsOpenedOn D.calls D.faults (Some disk) o.book) }
    ensures unmade { IfOk result (λ o. (n : ℕ) → turns_by (λ t. t.pass) n (recorded_in o.book.machine.history) ≡ []) }
    ensures book { IfOk result (λ o. IsSoundBook D.calls D.faults o.book) }
    ensures fault { IfErr result (λ e. HasOpenFault D.calls D.faults (Some disk) e.1 e.0) }
{
    match Journal::recover(alloc, disk) {
        Ok((journal, found)) => match Book::opened(alloc, journal, found) {
            Ok(book) => Ok(Opened { book }),
            Err((NoMemory, journal)) => { Err((OpenFault::NoMemory, Some(journal.into_disk()))) }
        },
        Err((fault, disk)) => Err((fault, Some(disk))),
    }
}
