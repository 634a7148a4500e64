//! Tests of sessions over the first book.
ghost use Rattle.std.specs.Prelude.{◌≡◌};
ghost use Rattle.turn_book.specs.Passes.{view, IsFree};
ghost use Rattle.router_sessions.specs.Desk.{number_of, seen_by};
ghost use Rattle.router_history.specs.Visit.{OwesNothing};

use crate::halls::{hall_of, send, session};
use bus_host::NoDisk;
use router_disk::{Clock, Failing, MemClock, MemSink, MemSource, Sink, Source};
use router_history::Book;
use router_sessions::SessionEnd;
use std::alloc::Global;
use std::process::Abort;
use std::sync::Wait;
use test_exchanges::{messages, wanted};
use test_rows::four;
use turn_book::{Hall, Pass};

/// A hall for so many passes, with the first book and the first pass.
fn first_hall<R: Abort>(
    rt: &R,
    alloc: Global,
    seats: u32,
) -> (Hall<Book<NoDisk>>, Pass<Book<NoDisk>>)
    ensures here { result.1.seat.table_id ≡ result.0.table.shared.table_id }
    ensures free { IsFree result.1.seat }
    ensures seats { result.0.seats ≡ seats }
    ensures first { (view result.1.seat).made ≡ 1 }
    ensures owes { OwesNothing (number_of result.1.seat) (seen_by result.1.seat) }
{
    hall_of(rt, alloc, Book::first(alloc).expect(rt, "a book"), seats)
}

/// A session of the one pass of a new book.
fn first_session<R: Wait + Abort, S: Source, K: Sink, C: Clock>(
    rt: &R,
    alloc: Global,
    input: &mut S,
    output: &mut K,
    clock: &mut C,
) -> SessionEnd {
    let (hall, mut pass) = first_hall(rt, alloc, 1);
    let end = session(rt, alloc, &hall, &mut pass, 0, input, output, clock);
    let _disk = hall.close(pass, Vec::new(alloc)).into_disk();
    end
}

/// The messages of exchanges without their last `missing` bytes. A read gives `most` bytes at most.
fn source<R: Abort>(rt: &R, alloc: Global, sent: &str, missing: &str, most: &str) -> MemSource {
    let messages = messages(alloc, sent).expect(rt, "messages");
    let mut bytes = messages.into_bytes();
    let missing = missing.parse::<usize>().unwrap_or(0);
    bytes.truncate(bytes.len().saturating_sub(missing));
    MemSource::new(bytes).in_pieces(most.parse::<usize>().unwrap_or(usize::MAX).max(1))
}

/// A clock with these readings.
fn clock<R: Abort>(rt: &R, alloc: Global, readings: &str) -> MemClock {
    let (first, rest) = readings.split_once(' ').unwrap_or((readings, ""));
    let mut later = Vec::new(alloc);
    for reading in rest.split_whitespace() {
        later
            .push(reading.parse::<u64>().expect(rt, "a reading"))
            .expect(rt, "readings");
    }
    MemClock::new(first.parse::<u64>().expect(rt, "a reading"), later)
}

/// Fails unless a session goes as a row wants. The row has the exchanges whose messages are sent, how many bytes are missing of them,
/// and how many a read gives at most; after how many reads and after how many writes one fails; the readings of the clock; then the
/// end of the session with the faults of input and output, and the output.
fn meet<R: Wait + Abort>(rt: &R, alloc: Global, row: &str) {
    let (sent, missing, most, rest) = four(row);
    let (reads, writes, readings, want) = four(rest);
    let mut input = Failing {
        inner: source(rt, alloc, sent, missing, most),
        sound: reads.parse::<u64>().ok(),
        faults: 0,
    };
    let mut output = Failing {
        inner: MemSink::new(alloc),
        sound: writes.parse::<u64>().ok(),
        faults: 0,
    };
    let mut clock = clock(rt, alloc, readings);
    let end = first_session(rt, alloc, &mut input, &mut output, &mut clock);
    let (reads, writes) = (input.faults, output.faults);
    let text = str::from_utf8(output.inner.bytes()).expect(rt, "text");
    let got = format!(in alloc; "|{end:?} {reads} {writes}|{text}").expect(rt, "a session");
    let want = wanted(alloc, want).expect(rt, "a row");
    assert_eq!(*rt; got.as_str(), want.as_str(), "{row}");
}

#[test]
fn the_first_run_has_its_replies(rt: HostRuntime) {
    let row =
        "queue rule target event delivered peek|||||1700000000|Closed 0 0|=queue rule target event delivered peek";
    meet(&rt, rt.alloc(), row);
}

#[test]
fn input_cut_inside_a_message_gets_the_replies_before_it(rt: HostRuntime) {
    meet(
        &rt,
        rt.alloc(),
        "queue queue|1||||1700000000|Cut 0 0|=queue",
    );
}

#[test]
fn a_failed_read_ends_the_session_after_the_replies(rt: HostRuntime) {
    meet(
        &rt,
        rt.alloc(),
        "queue rule||112|1||1700000000|ReadFault 1 0|=queue",
    );
}

// A second read would fail.
#[test]
fn a_failed_first_write_ends_the_session_before_the_next_read(rt: HostRuntime) {
    meet(
        &rt,
        rt.alloc(),
        "queue rule||112|1|0|1700000000|WriteFault 0 1|",
    );
}

#[test]
fn a_failed_third_write_leaves_two_replies(rt: HostRuntime) {
    let row = "queue rule target event delivered peek||||2|1700000000|WriteFault 0 1|=queue rule";
    meet(&rt, rt.alloc(), row);
}

// The fourth message puts the event.
#[test]
fn an_event_has_the_reading_of_its_own_request(rt: HostRuntime) {
    let row =
        "queue rule target event delivered peek|||||0 1 2 1700000000|Closed 0 0|=queue rule target event delivered peek";
    meet(&rt, rt.alloc(), row);
}

// The event is older than 86,400 seconds when its delivery is due, so it is dropped.
#[test]
fn a_delivery_has_the_reading_of_its_own_step(rt: HostRuntime) {
    let row =
        "queue rule target event dropped peek-none|||||1700000000 1700000000 1700000000 1700000000 1700086401|Closed 0 0|=queue rule target event dropped peek-none";
    meet(&rt, rt.alloc(), row);
}

// The replay starts before there is a rule, so the steps alone make deliveries. The message that asks for the steps has a reading, and so has
// each of the two steps, which their texts show, and the look that finds no further one.
#[test]
fn a_step_of_a_replay_has_a_reading_of_its_own(rt: HostRuntime) {
    let row =
        "queue archive events replay rule stamp steps both-delivered peek-stamps|||||1700000000 1700000000 1700000000 1700000000 1700000000 1700000000 1700000000 1700000001 1700000003 1700000004|Closed 0 0|=queue archive events replay rule stamp steps both-delivered peek-stamps";
    meet(&rt, rt.alloc(), row);
}

#[test]
fn a_reading_past_the_last_moment_counts_as_the_last_moment(rt: HostRuntime) {
    let row =
        "queue rule target event delivered peek-last|||||250000000001|Closed 0 0|=queue rule target event delivered peek-last";
    meet(&rt, rt.alloc(), row);
}

// The first pass makes the queue and the rule. The second puts the event, so it matches that rule. The first has the version of
// its own rule still, and looks for deliveries at a history that has gone on.
#[test]
fn two_passes_go_on_from_what_the_other_did(rt: HostRuntime) {
    let alloc = rt.alloc();
    let (hall, mut one) = first_hall(&rt, alloc, 2);
    let mut two = hall.another(&mut one);
    let mut output = MemSink::new(alloc);
    send(&rt, alloc, &hall, &mut one, 0, "queue rule", &mut output);
    send(&rt, alloc, &hall, &mut two, 1, "target event", &mut output);
    send(&rt, alloc, &hall, &mut one, 2, "delivered", &mut output);
    send(&rt, alloc, &hall, &mut two, 3, "peek", &mut output);
    let others = Vec::from_array(alloc, [two]).expect(&rt, "passes");
    let book = hall.close(one, others);
    let events = book.tables().events();
    let _disk = book.into_disk();
    assert_eq!(rt; events, 1);
    let text = str::from_utf8(output.bytes()).expect(&rt, "text");
    let got = format!(in alloc; "|{text}").expect(&rt, "replies");
    let want = wanted(alloc, "=queue rule target event delivered peek").expect(&rt, "replies");
    assert_eq!(rt; got.as_str(), want.as_str());
}
