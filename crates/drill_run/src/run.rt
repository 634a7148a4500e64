//! A drill.
ghost use Rattle.std.specs.Prelude.{◌≡◌, ◌≢◌, ◌∷◌, ℕ, [], IsTrue, IfSome};
ghost use Rattle.router_disk.specs.Faults.{Rose};
ghost use Rattle.program_lines.specs.declared.status.Status.TheVariants as statuses;
ghost use Rattle.drill_requests.specs.Messages.{drill_messages};
ghost use Rattle.turn_book.specs.Passes.{view, IsFree, IsSamePass};
ghost use Rattle.router_history.specs.Book.{opening, IsBook, Rests};
ghost use Rattle.router_sessions.specs.Desk.{number_of, turns_seen};
ghost use Rattle.message_streams.specs.declared.farewell.SessionEnd.TheVariants as ends;
ghost use Rattle.drill_run.specs.Drill as spec;
ghost use Rattle.drill_run.specs.Drill.{no_attempt_text, EndsRound, HasReply, IsDelivering, IsDrill, IsDrilled, IsRound, LeadTo};

use crate::script::{Given, Script};
use crate::still::{Moment, StillClock};
use bus_host::{NoDisk, NoGate, NoLink};
use drill_requests::{DrillMessages, deliver_due_message};
use json_text::NoMemory;
use program_lines::Status;
use router_disk::{MemSink, MemSource, Sink, Source};
use router_history::Book;
use router_sessions::{SessionEnd, serve_session};
use std::alloc::Global;
use std::marker::Brand;
use std::sync::Wait;
use tables_summary::sum_up;
use turn_book::{Hall, Pass};

/// The number of the connection in a program that has one at a time.
pub const ONLY_CONNECTION: u64 = 0;

/// Every reading of the clock, in seconds since 1970.
const MOMENT: u64 = 1_700_000_000;

/// How a reply begins that has status 200.
const SUCCESS: &[u8] = b"HTTP/1.1 200 ";

/// The moment at which the clock of a drill stands still.
struct DrillMoment;

impl Moment for DrillMoment {
    ghost use Rattle.drill_run.specs.Drill.{drill_moment};

    ghost moment = { drill_moment };
}

/// What a DeliverDue came to.
enum Round {
    /// Attempts were made.
    More,
    /// None was made.
    Last,
    /// Its reply is no 200.
    Failed,
}

/// Serves sessions over the messages of a drill, and prints the summary. The book is in memory. A reply other than 200 ends it.
pub fn drill<Rt: Wait, K: Sink>(
    rt: &Rt,
    alloc: Global,
    seed: u32,
    events: u32,
    output: &mut K,
) -> Status
    ensures drill { IsDrill seed events (K.wrote output.old) (K.wrote output.new) result }
    ensures write_fault { result ≡ statuses.WriteFault → Rose (K.faults output.old) (K.faults output.new) }
    ensures output_faultless { result ≢ statuses.WriteFault → K.faults output.new ≡ K.faults output.old }
{
    match Book::first(alloc) {
        Ok(book) => match Hall::make(alloc, book, 1) {
            Ok((hall, pass)) => drilled(rt, alloc, hall, pass, seed, events, output),
            Err((_, book)) => {
                let _none = book.into_disk();
                Status::NoMemory
            }
        },
        Err(NoMemory) => Status::NoMemory,
    }
}

/// A drill over the hall's book, whose only pass this is.
fn drilled<Rt: Wait, K: Sink>(
    rt: &Rt,
    alloc: Global,
    hall: Hall<Book<NoDisk>>,
    mut pass: Pass<Book<NoDisk>>,
    seed: u32,
    events: u32,
    output: &mut K,
) -> Status
    requires here { pass.seat.table_id ≡ hall.table.shared.table_id }
    requires opener { ((view pass.seat).number ≡ 0) × ((view pass.seat).made ≡ 1) × (turns_seen pass.seat ≡ opening ∷ []) }
    requires free { IsFree pass.seat }
    ensures drill { IsDrill seed events (K.wrote output.old) (K.wrote output.new) result }
    ensures write_fault { result ≡ statuses.WriteFault → Rose (K.faults output.old) (K.faults output.new) }
    ensures output_faultless { result ≢ statuses.WriteFault → K.faults output.new ≡ K.faults output.old }
{
    let is_done = serve_all(rt, alloc, &hall, &mut pass, seed, events);
    let book = hall.close(pass, Vec::new(alloc));
    if is_done {
        let status = sum_up(alloc, book.tables(), output);
        let _none = book.into_disk();
        status
    } else {
        let _none = book.into_disk();
        Status::NoMemory
    }
}

/// Serves all messages of a drill. Returns whether each was answered with 200.
fn serve_all<Rt: Wait>(
    rt: &Rt,
    alloc: Global,
    hall: &Hall<Book<NoDisk>>,
    pass: &mut Pass<Book<NoDisk>>,
    seed: u32,
    events: u32,
) -> bool
    requires here { pass.old.seat.table_id ≡ hall.now.table.shared.table_id }
    requires opener { (number_of pass.old.seat ≡ 0) × (turns_seen pass.old.seat ≡ opening ∷ []) }
    requires free { IsFree pass.old.seat }
    ensures pass { IsSamePass pass.old.seat pass.new.seat × IsFree pass.new.seat }
    ensures rests { Rests 0 (turns_seen pass.new.seat) }
    ensures drilled { IsTrue result → IsBook (turns_seen pass.new.seat) × IsDrilled seed events (turns_seen pass.new.seat) }
{
    if load(rt, alloc, hall, pass, seed, events) {
        deliver(rt, alloc, hall, pass)
    } else {
        false
    }
}

/// Serves the messages up to the last event. Returns whether each was answered with 200.
fn load<Rt: Wait>(
    rt: &Rt,
    alloc: Global,
    hall: &Hall<Book<NoDisk>>,
    pass: &mut Pass<Book<NoDisk>>,
    seed: u32,
    events: u32,
) -> bool
    requires here { pass.old.seat.table_id ≡ hall.now.table.shared.table_id }
    requires opener { (number_of pass.old.seat ≡ 0) × (turns_seen pass.old.seat ≡ opening ∷ []) }
    requires free { IsFree pass.old.seat }
    ensures pass { IsSamePass pass.old.seat pass.new.seat × IsFree pass.new.seat }
    ensures rests { Rests 0 (turns_seen pass.new.seat) }
    ensures loaded { IsTrue result → LeadTo (drill_messages seed events) (turns_seen pass.new.seat) }
{
    let mut messages = DrillMessages::new(seed, events);
    'messages: loop {
        match messages.next(alloc) {
            Ok(next) => match next {
                Some(message) => match reply_to(rt, alloc, hall, pass, message) {
                    Some(_reply) => (),
                    None => return false,
                },
                None => return true,
            },
            Err(NoMemory) => return false,
        }
    }
}

/// Asks for attempts until none is made. Returns whether each answer was 200.
fn deliver<Rt: Wait>(
    rt: &Rt,
    alloc: Global,
    hall: &Hall<Book<NoDisk>>,
    pass: &mut Pass<Book<NoDisk>>,
) -> bool
    requires here { pass.old.seat.table_id ≡ hall.now.table.shared.table_id }
    requires number { number_of pass.old.seat ≡ 0 }
    requires free { IsFree pass.old.seat }
    requires rests { Rests 0 (turns_seen pass.old.seat) }
    ensures pass { IsSamePass pass.old.seat pass.new.seat × IsFree pass.new.seat }
    ensures rests { Rests 0 (turns_seen pass.new.seat) }
    ensures drilled { IsTrue result → IsBook (turns_seen pass.new.seat)
        × ((seed events : ℕ) → IsDelivering seed events (turns_seen pass.old.seat) → IsDrilled seed events (turns_seen pass.new.seat)) }
{
    'rounds: for _ in rt.forever() {
        match attempt(rt, alloc, hall, pass) {
            Round::More => (),
            Round::Last => return true,
            Round::Failed => return false,
        }
    }
    unreachable!()
}

/// Asks for attempts once.
fn attempt<Rt: Wait>(
    rt: &Rt,
    alloc: Global,
    hall: &Hall<Book<NoDisk>>,
    pass: &mut Pass<Book<NoDisk>>,
) -> Round
    requires here { pass.old.seat.table_id ≡ hall.now.table.shared.table_id }
    requires number { number_of pass.old.seat ≡ 0 }
    requires free { IsFree pass.old.seat }
    requires rests { Rests 0 (turns_seen pass.old.seat) }
    ensures pass { IsSamePass pass.old.seat pass.new.seat × IsFree pass.new.seat }
    ensures rests { Rests 0 (turns_seen pass.new.seat) }
    ensures round { EndsRound result (turns_seen pass.old.seat) (turns_seen pass.new.seat) }
{
    match deliver_due_message(alloc) {
        Ok(message) => match reply_to(rt, alloc, hall, pass, message) {
            Some(reply) => round_of(reply.bytes()),
            None => Round::Failed,
        },
        Err(NoMemory) => Round::Failed,
    }
}

/// What the reply to a DeliverDue says.
fn round_of(reply: &[u8]) -> Round
    ensures { IsRound reply.now result }
{
    if reply == no_attempt_reply() {
        Round::Last
    } else {
        Round::More
    }
}

/// The reply to a DeliverDue that made no attempt.
fn no_attempt_reply() -> &'static [u8]
    ensures { result.now ≡ no_attempt_text }
{
    b"HTTP/1.1 200 OK\r\nContent-Type: application/x-amz-json-1.1\r\nContent-Length: 57\r\n\r\n{\"Attempts\":0,\"Delivered\":0,\"DeadLettered\":0,\"Dropped\":0}"
}

/// The reply to a message in a session of its own, if it has status 200.
fn reply_to<Rt: Wait>(
    rt: &Rt,
    alloc: Global,
    hall: &Hall<Book<NoDisk>>,
    pass: &mut Pass<Book<NoDisk>>,
    message: Vec<u8>,
) -> Option<MemSink>
    requires here { pass.old.seat.table_id ≡ hall.now.table.shared.table_id }
    requires number { number_of pass.old.seat ≡ 0 }
    requires free { IsFree pass.old.seat }
    requires rests { Rests 0 (turns_seen pass.old.seat) }
    ensures pass { IsSamePass pass.old.seat pass.new.seat × IsFree pass.new.seat }
    ensures rests { Rests 0 (turns_seen pass.new.seat) }
    ensures book { IsBook (turns_seen pass.new.seat) }
    ensures reply { IfSome result (λ sink. HasReply message.items sink.bytes (turns_seen pass.old.seat) (turns_seen pass.new.seat)) }
{
    reply_by::<Brand, Rt>(rt, alloc, hall, pass, message)
}

fn reply_by<N: Given + Send, Rt: Wait>(
    rt: &Rt,
    alloc: Global,
    hall: &Hall<Book<NoDisk>>,
    pass: &mut Pass<Book<NoDisk>>,
    message: Vec<u8>,
) -> Option<MemSink>
    requires here { pass.old.seat.table_id ≡ hall.now.table.shared.table_id }
    requires number { number_of pass.old.seat ≡ 0 }
    requires free { IsFree pass.old.seat }
    requires rests { Rests 0 (turns_seen pass.old.seat) }
    requires bytes { message.items ≡ N.bytes }
    ensures pass { IsSamePass pass.old.seat pass.new.seat × IsFree pass.new.seat }
    ensures rests { Rests 0 (turns_seen pass.new.seat) }
    ensures book { IsBook (turns_seen pass.new.seat) }
    ensures reply { IfSome result (λ sink. HasReply N.bytes sink.bytes (turns_seen pass.old.seat) (turns_seen pass.new.seat)) }
{
    let mut link = NoLink::default();
    let mut input: Script<N> = Script::new(message);
    let mut output = MemSink::new(alloc);
    let mut clock: StillClock<DrillMoment> = StillClock::new(MOMENT);
    let end = serve_session(
        rt,
        alloc,
        hall,
        pass,
        &mut link,
        &mut input,
        &mut output,
        &mut clock,
        ONLY_CONNECTION,
        &NoGate,
    );
    clock.always();
    if is_closed(end) && input.is_read() && has_status_200(output.bytes()) {
        Some(output)
    } else {
        None
    }
}

fn is_closed(end: SessionEnd) -> bool
    ensures { IsTrue result → (end ≡ ends.Closed) }
{
    match end {
        SessionEnd::Closed => true,
        SessionEnd::Cut => false,
        SessionEnd::Refused => false,
        SessionEnd::Long => false,
        SessionEnd::ReadFault => false,
        SessionEnd::WriteFault => false,
        SessionEnd::NoMemory => false,
    }
}

fn has_status_200(reply: &[u8]) -> bool
    ensures { result ≡ spec.has_status_200 reply.now }
{
    reply.starts_with(SUCCESS)
}
