//! The steps of a machine: what a turn does to tables, board and history.
ghost use Rattle.std.specs.Prelude.{◌≡◌, ◌∷◌, [], ℕ, Bool, Some, None, false, IsSome, IfOk, IfSome, IfNone, IfErr, MatchOption};
ghost use Rattle.std.specs.Option.{option_map};
ghost use Rattle.json_text.specs.Moment.{IsMoment};
ghost use Rattle.turn_book.specs.Rule.{turns_by};
ghost use Rattle.api_replies.specs.View.{reply_of};
ghost use Rattle.api_replies.specs.Written.{reply_text};
ghost use Rattle.router_requests.specs.View.{batch_of, request_of};
ghost use Rattle.router_requests.specs.Matching.{IsSeen};
ghost use Rattle.router_core.specs.Ready.{IsReadyFor};
ghost use Rattle.router_core.specs.Steps.{IsRecordedAs, record_of};
ghost use Rattle.router_core.specs.Tables.{after_batch, first_tables, is_full, moment_at};
ghost use Rattle.router_core.specs.Admitted.{IsAdmitted};
ghost use Rattle.duty_journal.specs.Recovery.{IsFound, batches_found};
ghost use Rattle.courier_run.specs.Claim.{FitsClaim};
ghost use Rattle.courier_run.specs.Book.{HasCause};
ghost use Rattle.router_history.specs.History.{asked, breaks, claims, records, puts_back, state_of, IsAskable, IsReason};
ghost use Rattle.router_history.specs.Held.{held_claim};
ghost use Rattle.router_history.specs.Book.{why_of, recorded_in, turns_of, opened_of, opening, opening_on, Holds, Rests, IsSoundMachine, HasGrown};
ghost use Rattle.router_history.specs.Acts.{IsIdle, IsFullAt, IsBrokenAt};
ghost use Rattle.router_history.specs.Answered.{IsAdded, IsBroken, IsDecided, IsAnswered, IsRenderable, IsClaimed, IsRecorded, IsPutBack};

use crate::book::{Machine, MadeTurn, Seat, TurnReply};
use crate::held::Held;
use crate::history::{Ask, History, Turn, Why, Written};
use crate::opened_disk::OpenedDisk;
use board_publish::Board;
use courier_run::BookFault;
use delivery_duties::{Fate, Outcome};
use duty_journal::Found;
use http_server::Log;
use json_text::{Bytes, NoMemory};
use router_calls::decide;
use router_core::{Ready, Released, Reply, Tables};
use router_requests::{Batch, Request, Seen};
use std::alloc::Global;
use std::mem;
use std::snapshot::Snapshot;

impl Machine {
    /// The machine that was just opened with the first tables: one turn, which no pass made.
    pub(crate) fn first(alloc: Global) -> Result<Machine, NoMemory>
        ensures first { IfOk result (λ m. turns_of m ≡ opening ∷ []) }
        ensures unmade { IfOk result (λ m. (n : ℕ) → turns_by (λ t. t.pass) n (recorded_in m.history) ≡ []) }
        ensures kept { IfOk result (λ m. IsSoundMachine m) }
    {
        let tables = Tables::first(alloc)?;
        let none = Found {
            tables,
            payloads: Log::new(),
        };
        Machine::opened(alloc, none, None)
    }

    /// The machine that was just opened with what was found, on this disk, if there is a journal: one turn, which no pass made.
    pub(crate) fn opened(
        alloc: Global,
        found: Found,
        disk: Option<OpenedDisk>,
    ) -> Result<Machine, NoMemory>
        requires found { IsFound first_tables found }
        requires none_found { disk ≡ None → batches_found found ≡ [] }
        ensures opened { IfOk result (λ m. turns_of m ≡ opening_on (batches_found found) (option_map opened_of disk) ∷ []) }
        ensures unmade { IfOk result (λ m. (n : ℕ) → turns_by (λ t. t.pass) n (recorded_in m.history) ≡ []) }
        ensures kept { IfOk result (λ m. IsSoundMachine m) }
    {
        let Found { tables, payloads } = found;
        let board = Board::of(alloc, tables.set())?;
        let mut history = History::new();
        history.push(&Turn {
            pass: None,
            connection: None,
            ask: Ask::Opens {
                found: payloads,
                disk,
            },
            k: 0,
            written: Written::Nothing,
        });
        Ok(Machine {
            tables,
            board,
            history,
        })
    }

    /// The board after this batch, if the batch changes the rule set.
    pub(crate) fn next_board(&self, alloc: Global, ready: &Ready) -> Result<Option<Board>, NoMemory>
        requires { IsReadyFor self.now.tables ready.now }
        ensures { IfOk result (λ next. MatchOption next
            ((after_batch (batch_of ready.now.batch) self.now.tables).set ≡ self.now.tables.set)
            (λ board. board ≡ (after_batch (batch_of ready.now.batch) self.now.tables).set)) }
    {
        match ready.control() {
            Some((control, set)) => {
                let next = self.board.after(alloc, control, set)?;
                Ok(Some(next))
            }
            None => Ok(None),
        }
    }

    /// The batch that the request writes, if any, and its reply. Matching was on the tables' own rule set.
    pub(crate) fn decided(
        &self,
        alloc: Global,
        request: &Request,
        seen: Seen,
    ) -> Result<(Option<Ready>, Reply), NoMemory>
        requires askable { IsAskable (request_of request.now) }
        requires seen { IsSeen self.now.tables.set (request_of request.now) seen }
        ensures { IfOk result (λ p. IsDecided self.now.tables (request_of request.now) p) }
    {
        let moment = turn_moment(&self.tables, request.reading);
        let _version = self.tables.set().control_count();
        let (ready, reply) = decide(alloc, &self.tables, request, moment, seen)?;
        Ok((ready, reply))
    }

    /// Makes the turn of a request that changes the tables. The next board and the reply's bytes are made before.
    pub(crate) fn change(
        &mut self,
        seat: Seat,
        request: &Request,
        ready: Ready,
        reply: &Reply,
        next: Option<Board>,
        bytes: Bytes,
        close: bool,
    ) -> MadeTurn
        requires kept { IsSoundMachine self.old }
        requires unbroken { (state_of (turns_of self.old)).broken ≡ false }
        requires askable { IsAskable (request_of request.now) }
        requires decided { IsDecided self.old.tables (request_of request.now) (Some ready, reply.now) }
        requires text { bytes ≡ reply_text (reply_of reply.now) close }
        requires next { MatchOption next
            ((after_batch (batch_of ready.batch) self.old.tables).set ≡ self.old.tables.set)
            (λ board. board ≡ (after_batch (batch_of ready.batch) self.old.tables).set) }
        requires named { IsSome seat.connection }
        ensures kept { IsSoundMachine self.new }
        ensures grows { HasGrown seat self.old self.new }
        ensures added { IsAdded (asked (request_of request.now)) (Some (batch_of ready.batch)) (turns_of self.old) (turns_of self.new) }
        ensures answered { IsAnswered seat (turns_of self.old) (turns_of self.new) (request_of request.now) close result.reply }
        ensures renderable { IsRenderable result.reply }
    {
        let _as_written = reply;
        let _at_the_end = close;
        self.history.push(&Turn {
            pass: Some(seat.pass),
            connection: seat.connection,
            ask: Ask::Asked(Snapshot::of(request)),
            k: self.tables.set().control_count(),
            written: Written::Changes(Snapshot::of(ready.batch())),
        });
        let (released, board) = enter(&mut self.tables, &mut self.board, ready, next);
        MadeTurn {
            reply: TurnReply::Rendered(bytes),
            released: Some(released),
            board,
        }
    }

    /// Makes the turn of a request that changes nothing.
    pub(crate) fn show(&mut self, seat: Seat, request: &Request, reply: Reply) -> MadeTurn
        requires kept { IsSoundMachine self.old }
        requires askable { IsAskable (request_of request.now) }
        requires decided { IsDecided self.old.tables (request_of request.now) (None, reply) }
        requires named { IsSome seat.connection }
        ensures kept { IsSoundMachine self.new }
        ensures grows { HasGrown seat self.old self.new }
        ensures added { IsAdded (asked (request_of request.now)) None (turns_of self.old) (turns_of self.new) }
        ensures answered { (close : Bool) → IsAnswered seat (turns_of self.old) (turns_of self.new) (request_of request.now) close result.reply }
        ensures renderable { IsRenderable result.reply }
    {
        self.history.push(&Turn {
            pass: Some(seat.pass),
            connection: seat.connection,
            ask: Ask::Asked(Snapshot::of(request)),
            k: self.tables.set().control_count(),
            written: Written::Nothing,
        });
        MadeTurn {
            reply: TurnReply::Unrendered(reply),
            released: None,
            board: None,
        }
    }

    /// Makes the mark: the book is broken, since the append of this batch failed.
    pub(crate) fn break_by(&mut self, seat: Seat, batch: &Batch)
        requires kept { IsSoundMachine self.old }
        requires unbroken { (state_of (turns_of self.old)).broken ≡ false }
        requires journal { IsSome (state_of (turns_of self.old)).disk }
        requires admitted { IsAdmitted self.old.tables (batch_of batch.now) }
        ensures kept { IsSoundMachine self.new }
        ensures tables { self.new.tables ≡ self.old.tables }
        ensures grows { HasGrown seat self.old self.new }
        ensures broken { IsBroken seat (batch_of batch.now) (turns_of self.old) (turns_of self.new) }
        ensures added { IsAdded (breaks (batch_of batch.now ∷ [])) None (turns_of self.old) (turns_of self.new) }
    {
        let none: Log<Batch, ()> = Log::new();
        self.history.push(&Turn {
            pass: Some(seat.pass),
            connection: seat.connection,
            ask: Ask::Breaks {
                unacknowledged: none.and(batch, &()),
            },
            k: self.tables.set().control_count(),
            written: Written::Nothing,
        });
    }

    /// Claims the duty that is due first at this reading of the clock: one turn. If none is due, or at the number limit, or if the book is broken,
    /// or out of memory, there is no turn.
    pub(crate) fn claim(
        &mut self,
        alloc: Global,
        seat: Seat,
        reading: u64,
        broken: bool,
    ) -> Result<Option<Held>, BookFault>
        requires kept { IsSoundMachine self.old }
        requires broken { broken ≡ (state_of (turns_of self.old)).broken }
        requires reading { IsMoment reading }
        requires rests { Rests seat.pass (turns_of self.old) }
        ensures kept { IsSoundMachine self.new }
        ensures grows { HasGrown seat self.old self.new }
        ensures held { IfOk result (λ found. IfSome found (λ held. IsClaimed seat reading (turns_of self.old) (turns_of self.new) (held_claim held)
            × IsAdded (claims (held_claim held)) None (turns_of self.old) (turns_of self.new))) }
        ensures idle { IfOk result (λ found. IfNone found (IsIdle (state_of (turns_of self.old)) reading × (turns_of self.new ≡ turns_of self.old))) }
        ensures refused { IfErr result (λ fault. HasCause (IsFullAt (state_of (turns_of self.old)) reading)
            (IsBrokenAt (state_of (turns_of self.old)) reading) fault
            × (turns_of self.new ≡ turns_of self.old)) }
    {
        let moment = turn_moment(&self.tables, reading);
        let full = self.tables.full();
        let errand = match self.tables.claim(alloc, moment) {
            Ok(Some(errand)) => errand,
            Ok(None) => return Ok(None),
            Err(NoMemory) => return Err(BookFault::NoMemory),
        };
        if full {
            self.tables.put_back(errand);
            return Err(BookFault::NumberLimit);
        }
        if broken {
            self.tables.put_back(errand);
            return Err(BookFault::Broken);
        }
        let held = Held { errand, reading };
        self.history.push(&Turn {
            pass: Some(seat.pass),
            connection: seat.connection,
            ask: Ask::Claims(Snapshot::of(&held)),
            k: self.tables.set().control_count(),
            written: Written::Nothing,
        });
        Ok(Some(held))
    }

    /// The held duty with the batch that records this outcome of its attempt, and the outcome that it records.
    pub(crate) fn attempted(&self, seat: Seat, held: Held, outcome: Outcome) -> (Held, Outcome)
        requires kept { IsSoundMachine self.now }
        requires holds { Holds seat.pass (turns_of self.now) (held_claim held) }
        requires numbered { is_full self.now.tables ≡ false }
        ensures claim { held_claim result.0 ≡ held_claim held }
        ensures recorded { IsRecordedAs self.now.tables.duties.queues held.errand.target.endpoint outcome result.1
            × (batch_of result.0.errand.batch ≡ record_of (moment_at self.now.tables held.reading) held.errand.claim.number result.1) }
        ensures admitted { IsAdmitted self.now.tables (batch_of result.0.errand.batch) }
    {
        let _whose = seat;
        let Held {
            mut errand,
            reading,
        } = held;
        let moment = turn_moment(&self.tables, reading);
        let outcome = self.tables.record_outcome(&mut errand, outcome, moment);
        (Held { errand, reading }, outcome)
    }

    /// Records this outcome of the attempt of the held duty, whose batch is made already: one turn. Returns the duty's fate, and what the turn
    /// released.
    pub(crate) fn record(
        &mut self,
        seat: Seat,
        held: Held,
        had: Outcome,
        outcome: Outcome,
    ) -> (Fate, Released)
        requires kept { IsSoundMachine self.old }
        requires unbroken { (state_of (turns_of self.old)).broken ≡ false }
        requires numbered { is_full self.old.tables ≡ false }
        requires holds { Holds seat.pass (turns_of self.old) (held_claim held) }
        requires fits { FitsClaim (held_claim held) had }
        requires admitted { IsAdmitted self.old.tables (batch_of held.errand.batch) }
        requires recorded { IsRecordedAs self.old.tables.duties.queues held.errand.target.endpoint had outcome
            × (batch_of held.errand.batch ≡ record_of (moment_at self.old.tables held.reading) held.errand.claim.number outcome) }
        ensures kept { IsSoundMachine self.new }
        ensures grows { HasGrown seat self.old self.new }
        ensures rests { Rests seat.pass (turns_of self.new) }
        ensures recorded { IsRecorded seat (held_claim held) had result.0 (turns_of self.old) (turns_of self.new) }
        ensures added { IsAdded (records (record { claim = held_claim held; outcome = outcome; fate = result.0 }))
            (Some (batch_of held.errand.batch)) (turns_of self.old) (turns_of self.new) }
    {
        let _attempt = had;
        let about = Snapshot::of(&held);
        let Held { errand, reading: _ } = held;
        let k = self.tables.set().control_count();
        let written = Written::Changes(Snapshot::of(errand.batch()));
        let (fate, released) = self.tables.finish(errand);
        self.history.push(&Turn {
            pass: Some(seat.pass),
            connection: seat.connection,
            ask: Ask::Records {
                held: about,
                outcome,
                fate,
            },
            k,
            written,
        });
        (fate, released)
    }

    /// Releases the claim of the held duty: one turn.
    pub(crate) fn put_back(&mut self, seat: Seat, held: Held, why: Why)
        requires kept { IsSoundMachine self.old }
        requires holds { Holds seat.pass (turns_of self.old) (held_claim held) }
        requires reason { IsReason (state_of (turns_of self.old)) (held_claim held) (why_of why) }
        ensures kept { IsSoundMachine self.new }
        ensures grows { HasGrown seat self.old self.new }
        ensures rests { Rests seat.pass (turns_of self.new) }
        ensures put_back { IsPutBack seat (held_claim held) (why_of why) (turns_of self.old) (turns_of self.new) }
        ensures added { IsAdded (puts_back (held_claim held) (why_of why)) None (turns_of self.old) (turns_of self.new) }
    {
        self.history.push(&Turn {
            pass: Some(seat.pass),
            connection: seat.connection,
            ask: Ask::PutsBack {
                held: Snapshot::of(&held),
                why,
            },
            k: self.tables.set().control_count(),
            written: Written::Nothing,
        });
        let Held { errand, reading: _ } = held;
        self.tables.put_back(errand);
    }
}

/// Applies the batch, and puts the next board, if there is one, in place of the old one. Returns what the batch leaves over, and the old board.
fn enter(
    tables: &mut Tables,
    board: &mut Board,
    ready: Ready,
    next: Option<Board>,
) -> (Released, Option<Board>)
    requires ready { IsReadyFor tables.old ready }
    requires board { board.old ≡ tables.old.set }
    requires next { MatchOption next
        ((after_batch (batch_of ready.batch) tables.old).set ≡ tables.old.set)
        (λ board. board ≡ (after_batch (batch_of ready.batch) tables.old).set) }
    ensures tables { tables.new ≡ after_batch (batch_of ready.batch) tables.old }
    ensures board { board.new ≡ tables.new.set }
{
    let released = tables.apply(ready);
    match next {
        Some(next) => (released, Some(mem::replace(board, next))),
        None => (released, None),
    }
}

/// The moment of a turn at this reading of the clock.
pub(crate) fn turn_moment(tables: &Tables, reading: u64) -> u64
    ensures moment { result ≡ moment_at tables.now reading }
    ensures bound { IsMoment reading → IsMoment result }
{
    let _full = tables.full();
    reading.max(tables.moment())
}
