//! One message and its reply.
ghost use Rattle.std.specs.Prelude.{◌≡◌, ℕ, List, IsSome};
ghost use Rattle.router_disk.specs.Link.{Exchange};
ghost use Rattle.router_disk.specs.Faults.{CountsFaults};
ghost use Rattle.turn_book.specs.Passes.{IsFree, IsSamePass};
ghost use Rattle.router_requests.specs.Request.{IsOneTurn, Request as Asking};
ghost use Rattle.router_requests.specs.View.{action_of, request_of};
ghost use Rattle.message_streams.specs.Reply.{IsAskedBy};
ghost use Rattle.router_history.specs.History.{IsAskable};
ghost use Rattle.router_history.specs.Book.{Rests, IsBook};
ghost use Rattle.router_sessions.specs.Desk.{turns_seen, number_of, seat_of, SeesMore};
ghost use Rattle.router_history.specs.Acts.{world};
ghost use Rattle.router_sessions.specs.Reply.{HasAnswered, HasReplied, IsAnswerTo, IsDelivery, IsRepetition};

use crate::delivery::deliver;
use crate::desk::Desk;
use crate::replays::repeat;
use crate::text::turn_bytes;
use api_wire::{Message, Method, no_memory_reply, not_post_head, not_post_reply, read_call};
use bus_host::Gate;
use json_text::{LAST_MOMENT, NoMemory};
use message_streams::{
    Gated, StepsAsked, fault_bytes, journal_failed_reply, respond, steps_asked, steps_room,
    write_delivery, write_replays,
};
use router_disk::{Clock, Disk, Failed, Link, Sink};
use router_history::{Book, RequestFault};
use router_requests::Request;
use std::sync::Wait;
use turn_book::Pass;

/// Answers the message, and writes the reply. `close` is true if the session ends after it. A HEAD gets the reply's head alone.
#[tactic(auto, using(crate::proofs::BoundLemmas::asked_askable))]
pub(crate) fn answer_message<Rt: Wait, D: Disk, K: Sink, L: Link, C: Clock, G: Gate>(
    desk: Desk<'_, Rt, D>,
    pass: &mut Pass<Book<D>>,
    message: &Message,
    close: bool,
    gated: Gated<'_, Rt, G>,
    output: &mut K,
    link: &mut L,
    clock: &mut C,
) -> Result<(), Failed>
    requires here { pass.old.seat.table_id ≡ desk.hall.now.table.shared.table_id }
    requires named { IsSome desk.connection }
    requires free { IsFree pass.old.seat }
    requires book { IsBook (turns_seen pass.old.seat) }
    requires rests { Rests (number_of pass.old.seat) (turns_seen pass.old.seat) }
    ensures pass { IsSamePass pass.old.seat pass.new.seat × IsFree pass.new.seat }
    ensures book { IsBook (turns_seen pass.new.seat) }
    ensures more { SeesMore pass.old.seat pass.new.seat }
    ensures rests { Rests (number_of pass.old.seat) (turns_seen pass.new.seat) }
    ensures answered { (gave : List (List ℕ)) → HasAnswered (seat_of desk.entry.connection pass.old.seat) message.now close
        (world (turns_seen pass.old.seat) gave (K.wrote output.old) (C.gave clock.old) (L.exchanges link.old) (L.faults link.old))
        (world (turns_seen pass.new.seat) gave (K.wrote output.new) (C.gave clock.new) (L.exchanges link.new) (L.faults link.new)) result }
    ensures count { CountsFaults (K.faults output.old) (K.faults output.new) result }
{
    let reading = clock.now();
    match message.method {
        Method::Post => {}
        Method::Head => {
            gated.at_reply();
            return output.write_all(not_post_head(close));
        }
        Method::Other => {
            gated.at_reply();
            return output.write_all(not_post_reply(close));
        }
    }
    match read_call(desk.alloc, message, reading.min(LAST_MOMENT)) {
        Ok(request) => answer_request(desk, pass, request, close, gated, output, link, clock),
        Err(fault) => {
            let bytes = fault_bytes(desk.alloc, fault, close);
            gated.at_reply();
            respond(bytes, close, output)
        }
    }
}

/// Carries out the request, and writes its reply.
fn answer_request<Rt: Wait, D: Disk, K: Sink, L: Link, C: Clock, G: Gate>(
    desk: Desk<'_, Rt, D>,
    pass: &mut Pass<Book<D>>,
    request: Request,
    close: bool,
    gated: Gated<'_, Rt, G>,
    output: &mut K,
    link: &mut L,
    clock: &mut C,
) -> Result<(), Failed>
    requires here { pass.old.seat.table_id ≡ desk.hall.now.table.shared.table_id }
    requires named { IsSome desk.connection }
    requires free { IsFree pass.old.seat }
    requires book { IsBook (turns_seen pass.old.seat) }
    requires rests { Rests (number_of pass.old.seat) (turns_seen pass.old.seat) }
    requires askable { IsOneTurn (action_of request.action) → IsAskable (request_of request) }
    ensures pass { IsSamePass pass.old.seat pass.new.seat × IsFree pass.new.seat }
    ensures book { IsBook (turns_seen pass.new.seat) }
    ensures more { SeesMore pass.old.seat pass.new.seat }
    ensures rests { Rests (number_of pass.old.seat) (turns_seen pass.new.seat) }
    ensures replied { (gave : List (List ℕ)) → HasReplied (IsAnswerTo (request_of request)) (seat_of desk.entry.connection pass.old.seat) close
        (world (turns_seen pass.old.seat) gave (K.wrote output.old) (C.gave clock.old) (L.exchanges link.old) (L.faults link.old))
        (world (turns_seen pass.new.seat) gave (K.wrote output.new) (C.gave clock.new) (L.exchanges link.new) (L.faults link.new)) result }
    ensures count { CountsFaults (K.faults output.old) (K.faults output.new) result }
{
    match steps_asked(&request.action) {
        Some(asked) => answer_steps(desk, pass, asked, close, gated, output, link, clock),
        None => answer_turn(desk, pass, request, close, gated, output),
    }
}

/// Makes the steps that were asked for, and writes the reply.
fn answer_steps<Rt: Wait, D: Disk, K: Sink, L: Link, C: Clock, G: Gate>(
    desk: Desk<'_, Rt, D>,
    pass: &mut Pass<Book<D>>,
    asked: StepsAsked,
    close: bool,
    gated: Gated<'_, Rt, G>,
    output: &mut K,
    link: &mut L,
    clock: &mut C,
) -> Result<(), Failed>
    requires here { pass.old.seat.table_id ≡ desk.hall.now.table.shared.table_id }
    requires free { IsFree pass.old.seat }
    requires book { IsBook (turns_seen pass.old.seat) }
    requires rests { Rests (number_of pass.old.seat) (turns_seen pass.old.seat) }
    ensures pass { IsSamePass pass.old.seat pass.new.seat × IsFree pass.new.seat }
    ensures book { IsBook (turns_seen pass.new.seat) }
    ensures more { SeesMore pass.old.seat pass.new.seat }
    ensures rests { Rests (number_of pass.old.seat) (turns_seen pass.new.seat) }
    ensures replied { (q : Asking) (gave : List (List ℕ)) → IsAskedBy q.action asked → HasReplied (IsAnswerTo q) (seat_of desk.entry.connection pass.old.seat) close
        (world (turns_seen pass.old.seat) gave (K.wrote output.old) (C.gave clock.old) (L.exchanges link.old) (L.faults link.old))
        (world (turns_seen pass.new.seat) gave (K.wrote output.new) (C.gave clock.new) (L.exchanges link.new) (L.faults link.new)) result }
    ensures count { CountsFaults (K.faults output.old) (K.faults output.new) result }
{
    match asked {
        StepsAsked::Deliveries(budget) => {
            answer_delivery(desk, pass, budget, close, gated, output, link, clock)
        }
        StepsAsked::Replays(budget) => {
            answer_replays(desk, pass, budget, close, gated, output, clock)
        }
    }
}

/// Makes the turn of the request, and writes its reply.
fn answer_turn<Rt: Wait, D: Disk, K: Sink, G: Gate>(
    desk: Desk<'_, Rt, D>,
    pass: &mut Pass<Book<D>>,
    request: Request,
    close: bool,
    gated: Gated<'_, Rt, G>,
    output: &mut K,
) -> Result<(), Failed>
    requires here { pass.old.seat.table_id ≡ desk.hall.now.table.shared.table_id }
    requires named { IsSome desk.connection }
    requires free { IsFree pass.old.seat }
    requires book { IsBook (turns_seen pass.old.seat) }
    requires rests { Rests (number_of pass.old.seat) (turns_seen pass.old.seat) }
    requires askable { IsAskable (request_of request) }
    ensures pass { IsSamePass pass.old.seat pass.new.seat × IsFree pass.new.seat }
    ensures book { IsBook (turns_seen pass.new.seat) }
    ensures more { SeesMore pass.old.seat pass.new.seat }
    ensures rests { Rests (number_of pass.old.seat) (turns_seen pass.new.seat) }
    ensures replied { (gave : List (List ℕ)) (readings : List ℕ) (answered : List Exchange) (faults : ℕ)
        → HasReplied (IsAnswerTo (request_of request)) (seat_of desk.entry.connection pass.old.seat) close
        (world (turns_seen pass.old.seat) gave (K.wrote output.old) readings answered faults)
        (world (turns_seen pass.new.seat) gave (K.wrote output.new) readings answered faults) result }
    ensures count { CountsFaults (K.faults output.old) (K.faults output.new) result }
{
    match desk.turn(pass, request, close) {
        Ok(reply) => {
            let bytes = turn_bytes(desk.alloc, reply, close);
            gated.at_reply();
            respond(bytes, close, output)
        }
        Err(RequestFault::NoMemory) => {
            gated.at_reply();
            respond(Err(NoMemory), close, output)
        }
        Err(RequestFault::Broken) => {
            gated.at_reply();
            output.write_all(journal_failed_reply(close))
        }
    }
}

/// Makes the steps of a DeliverDue, and writes its reply. The memory of the reply is allocated before the first step.
fn answer_delivery<Rt: Wait, D: Disk, K: Sink, L: Link, C: Clock, G: Gate>(
    desk: Desk<'_, Rt, D>,
    pass: &mut Pass<Book<D>>,
    budget: u32,
    close: bool,
    gated: Gated<'_, Rt, G>,
    output: &mut K,
    link: &mut L,
    clock: &mut C,
) -> Result<(), Failed>
    requires here { pass.old.seat.table_id ≡ desk.hall.now.table.shared.table_id }
    requires free { IsFree pass.old.seat }
    requires book { IsBook (turns_seen pass.old.seat) }
    requires rests { Rests (number_of pass.old.seat) (turns_seen pass.old.seat) }
    ensures pass { IsSamePass pass.old.seat pass.new.seat × IsFree pass.new.seat }
    ensures book { IsBook (turns_seen pass.new.seat) }
    ensures more { SeesMore pass.old.seat pass.new.seat }
    ensures rests { Rests (number_of pass.old.seat) (turns_seen pass.new.seat) }
    ensures replied { (gave : List (List ℕ)) → HasReplied (IsDelivery budget) (seat_of desk.entry.connection pass.old.seat) close
        (world (turns_seen pass.old.seat) gave (K.wrote output.old) (C.gave clock.old) (L.exchanges link.old) (L.faults link.old))
        (world (turns_seen pass.new.seat) gave (K.wrote output.new) (C.gave clock.new) (L.exchanges link.new) (L.faults link.new)) result }
    ensures count { CountsFaults (K.faults output.old) (K.faults output.new) result }
{
    match steps_room(desk.alloc, close) {
        Ok((room, limit)) => {
            let made = deliver(desk, pass, link, clock, budget);
            gated.at_reply();
            write_delivery(room, limit.as_slice(), made, close, output)
        }
        Err(NoMemory) => {
            gated.at_reply();
            output.write_all(no_memory_reply(close))
        }
    }
}

/// Makes the steps of a StepReplays, and writes its reply. The memory of the reply is allocated before the first step.
fn answer_replays<Rt: Wait, D: Disk, K: Sink, C: Clock, G: Gate>(
    desk: Desk<'_, Rt, D>,
    pass: &mut Pass<Book<D>>,
    budget: u32,
    close: bool,
    gated: Gated<'_, Rt, G>,
    output: &mut K,
    clock: &mut C,
) -> Result<(), Failed>
    requires here { pass.old.seat.table_id ≡ desk.hall.now.table.shared.table_id }
    requires free { IsFree pass.old.seat }
    requires book { IsBook (turns_seen pass.old.seat) }
    requires rests { Rests (number_of pass.old.seat) (turns_seen pass.old.seat) }
    ensures pass { IsSamePass pass.old.seat pass.new.seat × IsFree pass.new.seat }
    ensures book { IsBook (turns_seen pass.new.seat) }
    ensures more { SeesMore pass.old.seat pass.new.seat }
    ensures rests { Rests (number_of pass.old.seat) (turns_seen pass.new.seat) }
    ensures replied { (gave : List (List ℕ)) (answered : List Exchange) (faults : ℕ)
        → HasReplied (IsRepetition budget) (seat_of desk.entry.connection pass.old.seat) close
        (world (turns_seen pass.old.seat) gave (K.wrote output.old) (C.gave clock.old) answered faults)
        (world (turns_seen pass.new.seat) gave (K.wrote output.new) (C.gave clock.new) answered faults) result }
    ensures count { CountsFaults (K.faults output.old) (K.faults output.new) result }
{
    match steps_room(desk.alloc, close) {
        Ok((room, limit)) => {
            let made = repeat(desk, pass, clock, budget);
            gated.at_reply();
            write_replays(room, limit.as_slice(), made, close, output)
        }
        Err(NoMemory) => {
            gated.at_reply();
            output.write_all(no_memory_reply(close))
        }
    }
}
