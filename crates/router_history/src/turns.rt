//! The turns of the router's guarded state. A batch is appended before it is applied.
ghost use Rattle.std.specs.Prelude.{◌≡◌, ◌∷◌, [], ℕ, Bool, List, Some, None, Err, false, IsSome, IfOk, IfSome, IfNone, IfErr};
ghost use Rattle.json_text.specs.Moment.{IsMoment};
ghost use Rattle.router_disk.specs.Disk.{AreAnswers};
ghost use Rattle.turn_book.specs.Rule.{turns_by};
ghost use Rattle.router_requests.specs.View.{action_of, request_of};
ghost use Rattle.router_requests.specs.Matching.{HasValue, IsSeen};
ghost use Rattle.router_core.specs.Tables.{first_tables, is_full};
ghost use Rattle.courier_run.specs.Claim.{FitsClaim};
ghost use Rattle.courier_run.specs.Book.{HasCause};
ghost use Rattle.router_history.specs.History.{state_of, IsAskable, IsReason};
ghost use Rattle.router_history.specs.Held.{held_claim};
ghost use Rattle.router_history.specs.Book.{why_of, recorded_in, turns_of, as_opened, opening, opening_on, Holds, Rests, HasGrown};
ghost use Rattle.router_history.specs.Acts.{IsIdle, IsFullAt, IsBrokenAt};
ghost use Rattle.router_history.specs.Answered.{IsDecided, IsAnswered, IsUnanswered, IsRenderable, IsClaimed, IsRecorded, IsUnrecordedBy, IsPutBack};

use crate::book::{Book, Machine, MadeTurn, Seat};
use crate::fault::RequestFault;
use crate::held::Held;
use crate::history::Why;
use crate::machine::turn_moment;
use crate::opened_disk::OpenedDisk;
use courier_run::BookFault;
use delivery_duties::{Fate, Outcome};
use duty_journal::{DiskFault, Found, Home, Journal};
use json_text::NoMemory;
use message_streams::reply_bytes;
use router_core::{Ready, Released, Reply, Tables};
use router_disk::Disk;
use router_requests::{Request, Seen};
use std::alloc::Global;

impl<D: Disk> Book<D> {
    ghost use Rattle.duty_journal.specs.Home as home;
    ghost use Rattle.duty_journal.specs.declared.home.Home.TheVariants as homes;
    ghost use Rattle.duty_journal.specs.Journal.{IsSoundJournal, batches_of};
    ghost use Rattle.duty_journal.specs.Recovery.{HasOpened, IsFound, batches_found};
    ghost use Rattle.router_history.specs.Home.{IsSoundBook};

    /// The book that was just opened with the first tables, without a journal: one turn, which no pass made.
    pub fn first(alloc: Global) -> Result<Book<D>, NoMemory>
        ensures first { IfOk result (λ b. turns_of b.machine ≡ opening ∷ []) }
        ensures unmade { IfOk result (λ b. (n : ℕ) → turns_by (λ t. t.pass) n (recorded_in b.machine.history) ≡ []) }
        ensures nowhere { IfOk result (λ b. b.home ≡ homes.Nowhere) }
        ensures book { IfOk result (λ b. IsSoundBook D.calls D.faults b) }
    {
        let machine = Machine::first(alloc)?;
        Ok(Book {
            machine,
            home: Home::Nowhere,
        })
    }

    /// The book of a journal that was just opened, with what it holds: one turn, which no pass made. An `Err` returns the journal.
    pub fn opened(
        alloc: Global,
        journal: Journal<D>,
        found: Found,
    ) -> Result<Book<D>, (NoMemory, Journal<D>)>
        requires found { IsFound first_tables found × (batches_of journal ≡ batches_found found) × (journal.file.broken ≡ false) × IsSoundJournal D.calls journal }
        requires opened { (first : List ℕ) → AreAnswers first (D.calls journal.file.disk) → HasOpened first (D.calls journal.file.disk) (batches_found found) }
        ensures opened { IfOk result (λ b. turns_of b.machine ≡ opening_on (batches_found found) (Some (as_opened D.calls D.faults journal.file.disk)) ∷ []) }
        ensures unmade { IfOk result (λ b. (n : ℕ) → turns_by (λ t. t.pass) n (recorded_in b.machine.history) ≡ []) }
        ensures home { IfOk result (λ b. b.home ≡ homes.Journal journal) }
        ensures book { IfOk result (λ b. IsSoundBook D.calls D.faults b) }
        ensures err { IfErr result (λ e. e.1 ≡ journal) }
    {
        let disk = OpenedDisk::of(&journal);
        match Machine::opened(alloc, found, Some(disk)) {
            Ok(machine) => Ok(Book {
                machine,
                home: Home::Journal(journal),
            }),
            Err(NoMemory) => Err((NoMemory, journal)),
        }
    }

    /// The tables after all turns.
    pub fn tables(&self) -> &Tables
        ensures { result.now ≡ self.now.machine.tables }
    {
        &self.machine.tables
    }

    /// Ends it, and returns the journal's disk, if there is a journal.
    pub fn into_disk(self) -> Option<D>
        ensures { result ≡ home.disk_in self.home }
    {
        let Book {
            machine: _machine,
            home,
        } = self;
        home.into_disk()
    }

    /// Matches the request on the board. `turn` takes the result.
    pub fn seen(&self, alloc: Global, request: &Request) -> Result<Seen, NoMemory>
        requires { HasValue (action_of request.now.action) }
        ensures { IfOk result (λ seen. IsSeen self.now.machine.tables.set (request_of request.now) seen) }
    {
        self.machine.board.seen(alloc, request)
    }

    /// Whether the book is broken.
    pub fn is_broken(&self) -> bool
        requires book { IsSoundBook D.calls D.faults self.now }
        ensures { result ≡ (state_of (turns_of self.now.machine)).broken }
    {
        self.home.is_broken()
    }

    /// Makes the turn of the request, for which matching found this, and returns its reply with what the turn released. The seat names the
    /// connection by which the request came. If the tables change, the memory of the next board and of the reply's bytes is allocated before,
    /// so `NoMemory` changes nothing. `Broken` means that the request would write, and that its batch cannot be appended: the book was
    /// broken before, or the turn breaks it.
    pub fn turn(
        &mut self,
        alloc: Global,
        seat: Seat,
        request: &Request,
        seen: Seen,
        close: bool,
    ) -> Result<MadeTurn, RequestFault>
        requires book { IsSoundBook D.calls D.faults self.old }
        requires askable { IsAskable (request_of request.now) }
        requires seen { IsSeen self.old.machine.tables.set (request_of request.now) seen }
        requires named { IsSome seat.connection }
        ensures book { IsSoundBook D.calls D.faults self.new }
        ensures grows { HasGrown seat self.old.machine self.new.machine }
        ensures answered { IfOk result (λ made. IsAnswered seat (turns_of self.old.machine) (turns_of self.new.machine) (request_of request.now) close made.reply) }
        ensures renderable { IfOk result (λ made. IsRenderable made.reply) }
        ensures unchanged { result ≡ Err RequestFault.NoMemory → turns_of self.new.machine ≡ turns_of self.old.machine }
        ensures broken { result ≡ Err RequestFault.Broken → IsUnanswered seat (turns_of self.old.machine) (turns_of self.new.machine) (request_of request.now) }
    {
        let (ready, reply) = self.machine.decided(alloc, request, seen)?;
        match ready {
            Some(ready) => self.write(alloc, seat, request, ready, reply, close),
            None => Ok(self.machine.show(seat, request, reply)),
        }
    }

    /// Makes the turn of a request that changes the tables. All memory is allocated before the first call of the disk.
    fn write(
        &mut self,
        alloc: Global,
        seat: Seat,
        request: &Request,
        ready: Ready,
        reply: Reply,
        close: bool,
    ) -> Result<MadeTurn, RequestFault>
        requires book { IsSoundBook D.calls D.faults self.old }
        requires askable { IsAskable (request_of request.now) }
        requires decided { IsDecided self.old.machine.tables (request_of request.now) (Some ready, reply) }
        requires named { IsSome seat.connection }
        ensures book { IsSoundBook D.calls D.faults self.new }
        ensures grows { HasGrown seat self.old.machine self.new.machine }
        ensures answered { IfOk result (λ made. IsAnswered seat (turns_of self.old.machine) (turns_of self.new.machine) (request_of request.now) close made.reply) }
        ensures renderable { IfOk result (λ made. IsRenderable made.reply) }
        ensures unchanged { result ≡ Err RequestFault.NoMemory → turns_of self.new.machine ≡ turns_of self.old.machine }
        ensures broken { result ≡ Err RequestFault.Broken → IsUnanswered seat (turns_of self.old.machine) (turns_of self.new.machine) (request_of request.now) }
    {
        if self.home.is_broken() {
            return Err(RequestFault::Broken);
        }
        let next = self.machine.next_board(alloc, &ready)?;
        let bytes = reply_bytes(alloc, &reply, close)?;
        let prepared = self.home.prepare(alloc, ready.batch())?;
        match self.home.append(&prepared) {
            Ok(()) => Ok(
                self.machine
                    .change(seat, request, ready, &reply, next, bytes, close),
            ),
            Err(DiskFault) => {
                self.machine.break_by(seat, ready.batch());
                Err(RequestFault::Broken)
            }
        }
    }

    /// Claims the duty that is due first at this reading of the clock: one turn. If none is due, or at the number limit, or if the book is broken,
    /// or out of memory, there is no turn.
    pub fn claim(
        &mut self,
        alloc: Global,
        seat: Seat,
        reading: u64,
    ) -> Result<Option<Held>, BookFault>
        requires book { IsSoundBook D.calls D.faults self.old }
        requires reading { IsMoment reading }
        requires rests { Rests seat.pass (turns_of self.old.machine) }
        ensures book { IsSoundBook D.calls D.faults self.new }
        ensures grows { HasGrown seat self.old.machine self.new.machine }
        ensures held { IfOk result (λ found. IfSome found (λ held. IsClaimed seat reading (turns_of self.old.machine) (turns_of self.new.machine) (held_claim held))) }
        ensures idle { IfOk result (λ found. IfNone found (IsIdle (state_of (turns_of self.old.machine)) reading × (turns_of self.new.machine ≡ turns_of self.old.machine))) }
        ensures refused { IfErr result (λ fault. HasCause (IsFullAt (state_of (turns_of self.old.machine)) reading)
            (IsBrokenAt (state_of (turns_of self.old.machine)) reading) fault
            × (turns_of self.new.machine ≡ turns_of self.old.machine)) }
    {
        let broken = self.home.is_broken();
        self.machine.claim(alloc, seat, reading, broken)
    }

    /// Records the outcome of an attempt of the held duty: one turn, and one batch. If a queue accepted the text, the turn decides whether the queue
    /// exists. At the number limit, or if the book is broken, the claim is put back instead. If the append of the batch fails, the book is broken
    /// first. Returns the duty's fate, and what the turn released.
    pub fn record(
        &mut self,
        seat: Seat,
        held: Held,
        outcome: Outcome,
    ) -> Result<(Fate, Released), BookFault>
        requires book { IsSoundBook D.calls D.faults self.old }
        requires holds { Holds seat.pass (turns_of self.old.machine) (held_claim held) }
        requires fits { FitsClaim (held_claim held) outcome }
        ensures book { IsSoundBook D.calls D.faults self.new }
        ensures grows { HasGrown seat self.old.machine self.new.machine }
        ensures rests { Rests seat.pass (turns_of self.new.machine) }
        ensures recorded { IfOk result (λ made. IsRecorded seat (held_claim held) outcome made.0 (turns_of self.old.machine) (turns_of self.new.machine)) }
        ensures refused { IfErr result (λ fault. IsUnrecordedBy seat (held_claim held) outcome fault (turns_of self.old.machine) (turns_of self.new.machine)) }
    {
        if self.machine.tables.full() {
            self.put_back(seat, held, Why::Limited);
            return Err(BookFault::NumberLimit);
        }
        if self.home.is_broken() {
            self.put_back(seat, held, Why::Unkept);
            return Err(BookFault::Broken);
        }
        self.append_record(seat, held, outcome)
    }

    /// The same below the number limit, if the book is not broken.
    fn append_record(
        &mut self,
        seat: Seat,
        held: Held,
        outcome: Outcome,
    ) -> Result<(Fate, Released), BookFault>
        requires book { IsSoundBook D.calls D.faults self.old }
        requires numbered { is_full self.old.machine.tables ≡ false }
        requires unbroken { home.is_broken_home self.old.home ≡ false }
        requires holds { Holds seat.pass (turns_of self.old.machine) (held_claim held) }
        requires fits { FitsClaim (held_claim held) outcome }
        ensures book { IsSoundBook D.calls D.faults self.new }
        ensures grows { HasGrown seat self.old.machine self.new.machine }
        ensures rests { Rests seat.pass (turns_of self.new.machine) }
        ensures recorded { IfOk result (λ made. IsRecorded seat (held_claim held) outcome made.0 (turns_of self.old.machine) (turns_of self.new.machine)) }
        ensures refused { IfErr result (λ fault. IsUnrecordedBy seat (held_claim held) outcome fault (turns_of self.old.machine) (turns_of self.new.machine)) }
    {
        let (held, recorded) = self.machine.attempted(seat, held, outcome);
        let moment = turn_moment(&self.machine.tables, held.reading);
        match self
            .home
            .append_attempt(moment, held.errand.number(), recorded)
        {
            Ok(()) => Ok(self.machine.record(seat, held, outcome, recorded)),
            Err(DiskFault) => {
                self.machine.break_by(seat, held.errand.batch());
                self.machine.put_back(seat, held, Why::Unkept);
                Err(BookFault::Broken)
            }
        }
    }

    /// Releases the claim of the held duty: one turn.
    pub fn put_back(&mut self, seat: Seat, held: Held, why: Why)
        requires book { IsSoundBook D.calls D.faults self.old }
        requires holds { Holds seat.pass (turns_of self.old.machine) (held_claim held) }
        requires reason { IsReason (state_of (turns_of self.old.machine)) (held_claim held) (why_of why) }
        ensures book { IsSoundBook D.calls D.faults self.new }
        ensures grows { HasGrown seat self.old.machine self.new.machine }
        ensures rests { Rests seat.pass (turns_of self.new.machine) }
        ensures put_back { IsPutBack seat (held_claim held) (why_of why) (turns_of self.old.machine) (turns_of self.new.machine) }
    {
        self.machine.put_back(seat, held, why);
    }
}
