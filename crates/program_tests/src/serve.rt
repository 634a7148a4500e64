//! Tests of the program while it serves connections, over a host in memory. The form of a row is that of `left_by` in runs.rt.
use crate::runs::{clocks, door, host, left, left_by, meet};
use bus_host::{Door, Gate, NoDisk, Point};
use router_disk::{LinkFault, MemClock, MemLink};
use router_history::Book;
use session_workers::{DoorEnd, Serving, serve_door};
use std::alloc::Global;
use std::hint::spin_loop;
use std::process::Abort;
use std::sync::Wait;
use std::sync::atomic::{AtomicU64, Ordering};
use std::thread::Threads;
use test_exchanges::NOW;
use turn_book::Hall;

#[test]
fn two_workers_serve_the_first_run(rt: HostRuntime) {
    let row =
        "ebusd serve --port 8080 --workers 2 --connections 1||queue rule target event delivered peek|16 failed|";
    let want =
        "Done 0||listening 8080\nrecords 5 entries 5 control 3\nevents 1 archived 0 replays 0\n\
        duties 1 pending 0 delivered 1 dead-lettered 0 dropped 0\nmessages 1\n|0 0|+0+0|door 0|=queue rule target event delivered peek";
    meet(&rt, rt.alloc(), row, want);
}

#[test]
fn a_quiet_door_lets_its_worker_deliver(rt: HostRuntime) {
    let row =
        "ebusd serve --workers 1 --connections 2 --port 8080||queue rule target event;quiet|16 failed|";
    let want =
        "Done 0||listening 8080\nrecords 5 entries 5 control 3\nevents 1 archived 0 replays 0\n\
        duties 1 pending 0 delivered 1 dead-lettered 0 dropped 0\nmessages 1\n|0 0|+0|door 0|=queue rule target event";
    meet(&rt, rt.alloc(), row, want);
}

// The worker makes both steps of the replay while the door is quiet for the first time, and delivers what they made the next time.
#[test]
fn a_quiet_door_lets_its_worker_step_and_then_deliver(rt: HostRuntime) {
    let once =
        "ebusd serve --workers 1 --connections 2 --port 8080||queue archive events replay rule target;quiet|16 failed|";
    let stepped =
        "Done 0||listening 8080\nrecords 8 entries 9 control 4\nevents 2 archived 2 replays 1\n\
        duties 2 pending 2 delivered 0 dead-lettered 0 dropped 0\nmessages 0\n|0 0|+0|door 0|=queue archive events replay rule target";
    meet(&rt, rt.alloc(), once, stepped);
    let twice =
        "ebusd serve --workers 1 --connections 2 --port 8080||queue archive events replay rule target;quiet;quiet|16 failed|";
    let delivered =
        "Done 0||listening 8080\nrecords 10 entries 11 control 4\nevents 2 archived 2 replays 1\n\
        duties 2 pending 0 delivered 2 dead-lettered 0 dropped 0\nmessages 2\n|0 0|+0|door 0|=queue archive events replay rule target";
    meet(&rt, rt.alloc(), twice, delivered);
}

#[test]
fn a_delivery_to_an_endpoint_goes_by_the_workers_link(rt: HostRuntime) {
    let row =
        "ebusd serve --port 8080 --workers 1 --connections 1||queue rule address event delivered peek-none|16 200|";
    let want = r#"Done 0||listening 8080
records 5 entries 5 control 3
events 1 archived 0 replays 0
duties 1 pending 0 delivered 1 dead-lettered 0 dropped 0
messages 0
|0 0|+0 200 http://127.0.0.1:9000/x {"version":"0","id":"00000000-0000-8000-8000-000000000001","detail-type":"Order","source":"shop.orders","account":"111122223333","time":"2023-11-14T22:13:20Z","region":"us-east-1","resources":[],"detail":{"total":12.50}}|door 0|=queue rule address event delivered peek-none"#;
    meet(&rt, rt.alloc(), row, want);
}

// The fourth reading of the worker's clock is that of the event, 5 seconds after the first. The clock of the program is not read.
#[test]
fn a_lent_clock_gives_the_moments_of_its_workers_turns(rt: HostRuntime) {
    let alloc = rt.alloc();
    let line = "ebusd serve --port 8080 --workers 1 --connections 1";
    let mut host = host(&rt, alloc, "queue rule address event delivered", "1 200");
    let mut clock = clocks(&rt, alloc, "1 2 5 7;");
    let left = left(&rt, alloc, line, "", "", &mut host, &mut clock);
    assert!(rt; left.as_str().starts_with("|Done 0||listening 8080\n"));
    assert!(rt; left.as_str().contains("\"time\":\"2023-11-14T22:13:25Z\""));
}

// Each event is owed to an endpoint, and each attempt that was recorded as delivered is an answer of a worker's link.
#[test]
fn the_recorded_attempts_are_the_answers_of_all_links(rt: HostRuntime) {
    let more = ";quiet;event event"
        .repeat(rt.alloc(), 10)
        .expect(&rt, "plans");
    let more = more.as_str();
    let row = format!(in rt.alloc();
        "ebusd serve --port 8080 --workers 4||queue rule address{more}|4 200|"
    ).expect(&rt, "a row");
    let left = left_by(&rt, rt.alloc(), row.as_str());
    let answers = left
        .as_str()
        .matches(" 200 http://127.0.0.1:9000/x ")
        .count();
    let delivered = format!(in rt.alloc(); " delivered {answers} dead-lettered 0 ").expect(
        &rt, "a count",
    );
    assert!(rt; left.as_str().contains("\nevents 20 archived 0 replays 0\n"));
    assert!(rt; left.as_str().contains(delivered.as_str()));
}

#[test]
fn a_rule_of_one_connection_holds_for_the_next(rt: HostRuntime) {
    let row = "ebusd serve --port 8080 --workers 1||queue rule target;event delivered|16 failed|";
    let want =
        "Done 0||listening 8080\nrecords 5 entries 5 control 3\nevents 1 archived 0 replays 0\n\
        duties 1 pending 0 delivered 1 dead-lettered 0 dropped 0\nmessages 1\n|0 0|+0|door 0|=queue rule target|=event delivered";
    meet(&rt, rt.alloc(), row, want);
}

#[test]
fn a_new_rule_holds_beside_another_connection(rt: HostRuntime) {
    let row =
        "ebusd serve --port 8080 --workers 2||queue rule target event;delivered delivered|16 failed|";
    let left = left_by(&rt, rt.alloc(), row);
    assert!(rt;
        left.as_str()
            .starts_with("|Done 0||listening 8080\nrecords ")
    );
    assert!(rt;
        left.as_str().contains("records 5 entries 5 control 3")
            || left.as_str().contains("records 4 entries 4 control 3")
    );
    assert!(rt;
        left.as_str().contains("\nduties 1 "),
        "the new rule matches"
    );
    assert!(rt; left.as_str().contains("|0 0|+0+0|door 0|"));
}

#[test]
fn sixteen_workers_serve_more_connections_than_they_are(rt: HostRuntime) {
    let more = ";quiet;event event;memory"
        .repeat(rt.alloc(), 40)
        .expect(&rt, "plans");
    let more = more.as_str();
    let row = format!(in rt.alloc();
        "ebusd serve --port 8080 --workers 16||queue rule target{more}|16 failed|"
    ).expect(&rt, "a row");
    let left = left_by(&rt, rt.alloc(), row.as_str());
    assert!(rt;
        left.as_str()
            .starts_with("|Done 0||listening 8080\nrecords ")
    );
    assert!(rt; left.as_str().contains("\nevents 80 archived 0 replays 0\n"));
    assert!(rt;
        left.as_str()
            .contains("|0 0|+0+0+0+0+0+0+0+0+0+0+0+0+0+0+0+0|door 0|")
    );
    assert_eq!(rt; left.as_str().matches("|HTTP").count(), 41);
}

#[test]
fn a_door_that_fails_ends_the_run(rt: HostRuntime) {
    let row = "ebusd serve --port 8080 --workers 3||memory;failed|16 failed|";
    let want = "DoorFault 8|ebusd: door failed\n|listening 8080\n|0 0|+0+0+0|door 1";
    meet(&rt, rt.alloc(), row, want);
}

#[test]
fn a_port_that_is_not_open_serves_nothing(rt: HostRuntime) {
    let alloc = rt.alloc();
    let line = "ebusd serve --port 8080 --workers 2";
    let mut host = host(&rt, alloc, "closed", "2 200");
    let mut clock = clocks(&rt, alloc, "");
    let first = left(&rt, alloc, line, "", "", &mut host, &mut clock);
    assert_eq!(rt;
        first.as_str(),
        "|DoorFault 8|ebusd: door failed\n||0 1|+0+0"
    );
    let second = left(&rt, alloc, line, "", "", &mut host, &mut clock);
    assert_eq!(rt;
        second.as_str(),
        "|DoorFault 8|ebusd: door failed\n||1 1|+0+0",
        "no link is left"
    );
}

#[test]
fn without_its_first_line_nothing_is_served(rt: HostRuntime) {
    let row = "ebusd serve --port 8080 --workers 2||queue|16 200|0";
    meet(
        &rt,
        rt.alloc(),
        row,
        "WriteFault 4|ebusd: output failed\n||0 0|+0+0|door 0",
    );
}

#[test]
fn bad_words_open_no_port(rt: HostRuntime) {
    let row = "ebusd serve --port 0 --workers 2||quiet|16 200|";
    let want =
        "Usage 2|error: invalid value '0' for '--port <N>': not a whole number from 1 to 65535\n\nFor more information, try '--help'.\nebusd: bad arguments\n||0 0|";
    meet(&rt, rt.alloc(), row, want);
}

/// How often the gate looks before it gives up.
const LOOKS: u32 = 1_000_000_000;

/// Holds the first reply of connection 1 until the first reply of connection 2 was written. It counts how often it was asked, and
/// whether that took too long.
#[derive(Drop)]
struct Behind {
    asked: AtomicU64,
    answered: AtomicU64,
    late: AtomicU64,
}

impl Gate for Behind {
    fn hold<Rt: Wait>(&self, _rt: &Rt, conn: u64, call: u64, _at: Point) {
        self.asked.fetch_add(1, Ordering::SeqCst);
        if conn == 2 && call == 2 {
            self.answered.store(1, Ordering::SeqCst);
        }
        if conn == 1 && call == 1 {
            for _ in 0..LOOKS {
                if self.answered.load(Ordering::SeqCst) == 1 {
                    return;
                }
                spin_loop();
            }
            self.late.store(1, Ordering::SeqCst);
        }
    }
}

/// A door that two workers served by the gate.
fn gated<R: Wait + Threads + Sync + Abort, D: Door, G: Gate + Sync>(
    rt: &R,
    alloc: Global,
    door: D,
    gate: &G,
) -> D {
    let owns = [
        (
            MemLink::always(alloc, Err(LinkFault::Failed)),
            MemClock::always(alloc, NOW),
        ),
        (
            MemLink::always(alloc, Err(LinkFault::Failed)),
            MemClock::always(alloc, NOW),
        ),
    ];
    let owns = Vec::from_array(alloc, owns).expect(rt, "links and clocks");
    let book: Book<NoDisk> = Book::first(alloc).expect(rt, "a book");
    match Hall::make(alloc, book, 4) {
        Ok((hall, mut pass)) => {
            let serving = serve_door(rt, alloc, &hall, &mut pass, owns, door, None, gate);
            let Serving {
                door,
                owns: _,
                passes,
                end,
            } = serving;
            let _none = hall.close(pass, passes).into_disk();
            assert_eq!(*rt; end, DoorEnd::Done);
            door
        }
        Err((_, book)) => {
            let _none = book.into_disk();
            panic!(rt; "a hall")
        }
    }
}

#[test]
fn a_held_reply_holds_no_other_connection(rt: HostRuntime) {
    let gate = Behind {
        asked: AtomicU64::new(0),
        answered: AtomicU64::new(0),
        late: AtomicU64::new(0),
    };
    let door = door(&rt, rt.alloc(), "queue delivered;rule rule");
    let door = gated(&rt, rt.alloc(), door, &gate);
    assert_eq!(rt;
        gate.late.load(Ordering::SeqCst),
        0,
        "connection 2 was answered meanwhile"
    );
    assert_eq!(rt; gate.asked.load(Ordering::SeqCst), 4, "once for each reply");
    assert_eq!(rt; door.back.len(), 2, "both connections end");
    for ended in &door.back {
        assert!(rt; !ended.cut);
    }
}
