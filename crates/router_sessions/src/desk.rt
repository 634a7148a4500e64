//! Turns of a pass: each takes the book from the hall, makes at most one turn, and gives the book back.
ghost use Rattle.std.specs.Prelude.{◌≡◌, ◌∷◌, [], IsSome, IfOk, IfErr, IfSome, IfNone, Ok, Err, is_some, MatchBool, MatchResult};
ghost use Rattle.json_text.specs.Moment.{IsMoment};
ghost use Rattle.turn_book.specs.Passes.{IsFree, IsSamePass};
ghost use Rattle.router_requests.specs.View.{request_of};
ghost use Rattle.courier_run.specs.Act.{looks};
ghost use Rattle.courier_run.specs.Claim.{FitsClaim, NeedsSend};
ghost use Rattle.courier_run.specs.Book.{HasCause};
ghost use Rattle.courier_run.specs.Steps.{unsent};
ghost use Rattle.router_history.specs.History.{state_of, IsAskable};
ghost use Rattle.router_history.specs.Held.{held_claim};
ghost use Rattle.router_history.specs.Book.{turns_of, Holds, Rests, IsBook, HasGrown};
ghost use Rattle.router_history.specs.Home.{IsSoundBook};
ghost use Rattle.router_history.specs.Acts.{IsIdle, IsFullAt, IsBrokenAt, Makes};
ghost use Rattle.router_history.specs.Answered.{IsAnswered, IsUnanswered, IsRenderable, IsClaimed, IsRecorded, IsUnrecordedBy, IsPutBack};
ghost use Rattle.router_history.specs.Answered.{IsRepeated, HasNoRepeat, IsUnrepeated};
ghost use Rattle.router_sessions.specs.Desk.{turns_seen, number_of, seat_of, SeesMore};

use courier_run::BookFault;
use delivery_duties::{Fate, Outcome};
use router_core::Released;
use router_disk::Disk;
use router_history::{Book, Held, MadeTurn, RequestFault, Seat, TurnReply, Why};
use router_requests::Request;
use std::alloc::{AllocError, Global};
use std::sync::Wait;
use step_run::StepFault;
use turn_book::{Hall, Pass};

/// Where a pass makes its turns. Nothing is held between two of them.
pub(crate) struct Desk<'a, Rt, D: Disk> {
    pub(crate) rt: &'a Rt,
    pub(crate) alloc: Global,
    pub(crate) hall: &'a Hall<Book<D>>,
    /// The number of the connection that the turns name, if one is served.
    pub(crate) connection: Option<u64>,
}

impl<Rt, D: Disk> Clone for Desk<'_, Rt, D> {
    fn clone(&self) -> Result<Self, AllocError> {
        Ok(*self)
    }
}

impl<Rt, D: Disk> Copy for Desk<'_, Rt, D> {}

impl<Rt: Wait, D: Disk> Desk<'_, Rt, D> {
    fn seat(self, pass: &Pass<Book<D>>) -> Seat
        ensures { result ≡ seat_of self.entry.connection pass.now.seat }
    {
        Seat {
            pass: pass.number(),
            connection: self.connection,
        }
    }

    /// Makes no turn. The pass then knows the history as it is. Returns whether the book is broken.
    pub(crate) fn look(self, pass: &mut Pass<Book<D>>) -> bool
        requires here { pass.old.seat.table_id ≡ self.hall.now.table.shared.table_id }
        requires free { IsFree pass.old.seat }
        ensures pass { IsSamePass pass.old.seat pass.new.seat × IsFree pass.new.seat }
        ensures book { IsBook (turns_seen pass.new.seat) }
        ensures more { SeesMore pass.old.seat pass.new.seat }
        ensures looked { Makes (seat_of self.entry.connection pass.old.seat) (looks (state_of (turns_seen pass.new.seat)) ∷ [])
            (turns_seen pass.old.seat) (turns_seen pass.new.seat) }
        ensures rests { Rests (number_of pass.old.seat) (turns_seen pass.old.seat) → Rests (number_of pass.old.seat) (turns_seen pass.new.seat) }
        ensures broken { result ≡ (state_of (turns_seen pass.new.seat)).broken }
    {
        let book = self.hall.take(self.rt, pass);
        let broken = book.is_broken();
        self.hall.give(pass, book);
        broken
    }

    /// Matches the request on the book's board, and makes its turn, as `Book::turn`. The request and what the turn released are freed once other passes can have the book.
    pub(crate) fn turn(
        self,
        pass: &mut Pass<Book<D>>,
        request: Request,
        close: bool,
    ) -> Result<TurnReply, RequestFault>
        requires here { pass.old.seat.table_id ≡ self.hall.now.table.shared.table_id }
        requires free { IsFree pass.old.seat }
        requires book { IsBook (turns_seen pass.old.seat) }
        requires askable { IsAskable (request_of request) }
        requires named { IsSome self.connection }
        ensures pass { IsSamePass pass.old.seat pass.new.seat × IsFree pass.new.seat }
        ensures book { IsBook (turns_seen pass.new.seat) }
        ensures more { SeesMore pass.old.seat pass.new.seat }
        ensures answered { IfOk result (λ reply. IsAnswered (seat_of self.entry.connection pass.old.seat)
            (turns_seen pass.old.seat) (turns_seen pass.new.seat) (request_of request) close reply) }
        ensures renderable { IfOk result (λ reply. IsRenderable reply) }
        ensures unchanged { result ≡ Err RequestFault.NoMemory → Makes (seat_of self.entry.connection pass.old.seat) [] (turns_seen pass.old.seat) (turns_seen pass.new.seat) }
        ensures broken { result ≡ Err RequestFault.Broken → IsUnanswered (seat_of self.entry.connection pass.old.seat)
            (turns_seen pass.old.seat) (turns_seen pass.new.seat) (request_of request) }
    {
        let made = self.make_turn(pass, &request, close);
        made_reply(made)
    }

    /// The same; what the turn released is not freed yet.
    fn make_turn(
        self,
        pass: &mut Pass<Book<D>>,
        request: &Request,
        close: bool,
    ) -> Result<MadeTurn, RequestFault>
        requires here { pass.old.seat.table_id ≡ self.hall.now.table.shared.table_id }
        requires free { IsFree pass.old.seat }
        requires book { IsBook (turns_seen pass.old.seat) }
        requires askable { IsAskable (request_of request.now) }
        requires named { IsSome self.connection }
        ensures pass { IsSamePass pass.old.seat pass.new.seat × IsFree pass.new.seat }
        ensures book { IsBook (turns_seen pass.new.seat) }
        ensures more { SeesMore pass.old.seat pass.new.seat }
        ensures answered { IfOk result (λ made. IsAnswered (seat_of self.entry.connection pass.old.seat)
            (turns_seen pass.old.seat) (turns_seen pass.new.seat) (request_of request.now) close made.reply) }
        ensures renderable { IfOk result (λ made. IsRenderable made.reply) }
        ensures unchanged { result ≡ Err RequestFault.NoMemory → Makes (seat_of self.entry.connection pass.old.seat) [] (turns_seen pass.old.seat) (turns_seen pass.new.seat) }
        ensures broken { result ≡ Err RequestFault.Broken → IsUnanswered (seat_of self.entry.connection pass.old.seat)
            (turns_seen pass.old.seat) (turns_seen pass.new.seat) (request_of request.now) }
    {
        let seat = self.seat(pass);
        let mut book = self.hall.take(self.rt, pass);
        let made = match_and_turn(&mut book, self.alloc, seat, request, close);
        self.hall.give(pass, book);
        made
    }

    /// Claims the duty that is due first at this reading of the clock, as `Book::claim`.
    pub(crate) fn claim(
        self,
        pass: &mut Pass<Book<D>>,
        reading: u64,
    ) -> Result<Option<Held>, BookFault>
        requires here { pass.old.seat.table_id ≡ self.hall.now.table.shared.table_id }
        requires free { IsFree pass.old.seat }
        requires book { IsBook (turns_seen pass.old.seat) }
        requires reading { IsMoment reading }
        requires rests { Rests (number_of pass.old.seat) (turns_seen pass.old.seat) }
        ensures pass { IsSamePass pass.old.seat pass.new.seat × IsFree pass.new.seat }
        ensures book { IsBook (turns_seen pass.new.seat) }
        ensures more { SeesMore pass.old.seat pass.new.seat }
        ensures held { IfOk result (λ found. IfSome found (λ held. IsClaimed (seat_of self.entry.connection pass.old.seat) reading
            (turns_seen pass.old.seat) (turns_seen pass.new.seat) (held_claim held))) }
        ensures idle { IfOk result (λ found. IfNone found (IsIdle (state_of (turns_seen pass.new.seat)) reading
            × Makes (seat_of self.entry.connection pass.old.seat) (looks (state_of (turns_seen pass.new.seat)) ∷ [])
            (turns_seen pass.old.seat) (turns_seen pass.new.seat) × Rests (number_of pass.old.seat) (turns_seen pass.new.seat))) }
        ensures refused { IfErr result (λ fault. HasCause (IsFullAt (state_of (turns_seen pass.new.seat)) reading)
            (IsBrokenAt (state_of (turns_seen pass.new.seat)) reading) fault
            × Makes (seat_of self.entry.connection pass.old.seat) (looks (state_of (turns_seen pass.new.seat)) ∷ [])
            (turns_seen pass.old.seat) (turns_seen pass.new.seat) × Rests (number_of pass.old.seat) (turns_seen pass.new.seat)) }
    {
        let seat = self.seat(pass);
        let mut book = self.hall.take(self.rt, pass);
        let held = book.claim(self.alloc, seat, reading);
        self.hall.give(pass, book);
        held
    }

    /// Records the outcome of an attempt of the held duty, as `Book::record`.
    pub(crate) fn record(
        self,
        pass: &mut Pass<Book<D>>,
        held: Held,
        outcome: Outcome,
    ) -> Result<Fate, BookFault>
        requires here { pass.old.seat.table_id ≡ self.hall.now.table.shared.table_id }
        requires free { IsFree pass.old.seat }
        requires book { IsBook (turns_seen pass.old.seat) }
        requires holds { Holds (number_of pass.old.seat) (turns_seen pass.old.seat) (held_claim held) }
        requires fits { FitsClaim (held_claim held) outcome }
        ensures pass { IsSamePass pass.old.seat pass.new.seat × IsFree pass.new.seat }
        ensures book { IsBook (turns_seen pass.new.seat) }
        ensures more { SeesMore pass.old.seat pass.new.seat }
        ensures rests { Rests (number_of pass.old.seat) (turns_seen pass.new.seat) }
        ensures recorded { IfOk result (λ fate. IsRecorded (seat_of self.entry.connection pass.old.seat) (held_claim held) outcome fate
            (turns_seen pass.old.seat) (turns_seen pass.new.seat)) }
        ensures refused { IfErr result (λ fault. IsUnrecordedBy (seat_of self.entry.connection pass.old.seat) (held_claim held) outcome fault
            (turns_seen pass.old.seat) (turns_seen pass.new.seat)) }
    {
        let seat = self.seat(pass);
        let mut book = self.hall.take(self.rt, pass);
        let recorded = book.record(seat, held, outcome);
        self.hall.give(pass, book);
        // Other passes have the book from here on, so none waits while what the turn released is freed.
        match recorded {
            Ok((fate, _released)) => Ok(fate),
            Err(fault) => Err(fault),
        }
    }

    /// Releases the claim of the held duty, of which nothing was sent, as `Book::put_back`.
    pub(crate) fn put_back(self, pass: &mut Pass<Book<D>>, held: Held)
        requires here { pass.old.seat.table_id ≡ self.hall.now.table.shared.table_id }
        requires free { IsFree pass.old.seat }
        requires book { IsBook (turns_seen pass.old.seat) }
        requires holds { Holds (number_of pass.old.seat) (turns_seen pass.old.seat) (held_claim held) }
        requires needed { NeedsSend (held_claim held) }
        ensures pass { IsSamePass pass.old.seat pass.new.seat × IsFree pass.new.seat }
        ensures book { IsBook (turns_seen pass.new.seat) }
        ensures more { SeesMore pass.old.seat pass.new.seat }
        ensures rests { Rests (number_of pass.old.seat) (turns_seen pass.new.seat) }
        ensures put_back { IsPutBack (seat_of self.entry.connection pass.old.seat) (held_claim held) unsent
            (turns_seen pass.old.seat) (turns_seen pass.new.seat) }
    {
        let seat = self.seat(pass);
        let mut book = self.hall.take(self.rt, pass);
        book.put_back(seat, held, Why::Unsent);
        self.hall.give(pass, book);
    }

    /// Makes the next step of the replays at this reading of the clock, as `Book::step`. Returns whether there was one to make.
    pub(crate) fn step(self, pass: &mut Pass<Book<D>>, reading: u64) -> Result<bool, StepFault>
        requires here { pass.old.seat.table_id ≡ self.hall.now.table.shared.table_id }
        requires free { IsFree pass.old.seat }
        requires book { IsBook (turns_seen pass.old.seat) }
        requires reading { IsMoment reading }
        requires rests { Rests (number_of pass.old.seat) (turns_seen pass.old.seat) }
        ensures pass { IsSamePass pass.old.seat pass.new.seat × IsFree pass.new.seat }
        ensures book { IsBook (turns_seen pass.new.seat) }
        ensures more { SeesMore pass.old.seat pass.new.seat }
        ensures rests { Rests (number_of pass.old.seat) (turns_seen pass.new.seat) }
        ensures stepped { IfOk result (λ made. MatchBool made
            (IsRepeated (seat_of self.entry.connection pass.old.seat) reading (turns_seen pass.old.seat) (turns_seen pass.new.seat))
            (HasNoRepeat (seat_of self.entry.connection pass.old.seat) reading (turns_seen pass.old.seat) (turns_seen pass.new.seat))) }
        ensures refused { IfErr result (λ fault. IsUnrepeated (seat_of self.entry.connection pass.old.seat) reading fault
            (turns_seen pass.old.seat) (turns_seen pass.new.seat)) }
    {
        let seat = self.seat(pass);
        let mut book = self.hall.take(self.rt, pass);
        let stepped = book.step(self.alloc, seat, reading);
        self.hall.give(pass, book);
        // Other passes have the book from here on, so none waits while what the turn released is freed.
        was_made(stepped)
    }
}

/// The reply of a turn that was made. What the turn released is freed.
fn made_reply(made: Result<MadeTurn, RequestFault>) -> Result<TurnReply, RequestFault>
    ensures { MatchResult made (λ turn. result ≡ Ok turn.reply) (λ fault. result ≡ Err fault) }
{
    match made {
        Ok(made) => Ok(made.into_reply()),
        Err(fault) => Err(fault),
    }
}

/// Whether a step was made. What its turn released is freed.
fn was_made(stepped: Result<Option<Released>, StepFault>) -> Result<bool, StepFault>
    ensures { MatchResult stepped (λ found. result ≡ Ok (is_some found)) (λ fault. result ≡ Err fault) }
{
    match stepped {
        Ok(Some(_released)) => Ok(true),
        Ok(None) => Ok(false),
        Err(fault) => Err(fault),
    }
}

/// Matches the request on the book's board, and makes its turn.
fn match_and_turn<D: Disk>(
    book: &mut Book<D>,
    alloc: Global,
    seat: Seat,
    request: &Request,
    close: bool,
) -> Result<MadeTurn, RequestFault>
    requires book { IsSoundBook D.calls D.faults book.old }
    requires askable { IsAskable (request_of request.now) }
    requires named { IsSome seat.connection }
    ensures book { IsSoundBook D.calls D.faults book.new }
    ensures grows { HasGrown seat book.old.machine book.new.machine }
    ensures answered { IfOk result (λ made. IsAnswered seat (turns_of book.old.machine) (turns_of book.new.machine) (request_of request.now) close made.reply) }
    ensures renderable { IfOk result (λ made. IsRenderable made.reply) }
    ensures unchanged { result ≡ Err RequestFault.NoMemory → turns_of book.new.machine ≡ turns_of book.old.machine }
    ensures broken { result ≡ Err RequestFault.Broken → IsUnanswered seat (turns_of book.old.machine) (turns_of book.new.machine) (request_of request.now) }
{
    let seen = book.seen(alloc, request)?;
    book.turn(alloc, seat, request, seen, close)
}
