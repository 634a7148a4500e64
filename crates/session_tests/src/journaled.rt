//! Tests of books that are opened from a journal in memory: the first run with a call of its disk that fails, what crashes leave of it, and
//! its messages in two sessions.
ghost use Rattle.std.specs.Prelude.{◌≡◌, [], ℕ};
ghost use Rattle.turn_book.specs.Rule.{turns_by};
ghost use Rattle.router_history.specs.Book.{recorded_in};
ghost use Rattle.router_history.specs.Home.{IsSoundBook};

use crate::halls::{hall_of, send};
use book_recovery::{OpenFault, recover_book};
use memory_disk::{MemoryDisk, Tear};
use router_disk::{Disk, MemSink};
use router_history::Book;
use std::alloc::Global;
use std::fmt::Write;
use std::process::Abort;
use std::sync::Wait;
use test_exchanges::wanted;
use test_rows::{three, two};

/// The exchanges of the first run, whose messages are sent.
const SENT: &str = "queue rule target event delivered peek";

/// How a crash tears each write since the last sync: how many of its first bytes are on the disk, and what each other byte is there (nothing:
/// what was there before). Then the number of records of what a crash leaves of the first run: one digit for a crash after 4 calls of the disk,
/// one for a crash after 5, and so on. The run makes 24 calls: opening makes 4, and so does each append: it writes the record, syncs, opens
/// its gate, and syncs.
const CRASHES: &str = "0||000011112222333344445
1000||000111122223333444455
0|255|000011112222333344445
20|1|000111122223333444455
";

/// The number of the call that fails, from 1, the replies, and for each row of `CRASHES` the number of records of what is left by a crash
/// after that call, and after each later one. There is no later one.
const FAULTS: &str = "25|=queue rule target event delivered peek||||
13|=queue rule failed failed idle peek-none|2|2|2|2
14|=queue rule failed failed idle peek-none|2|2|2|2
15|=queue rule failed failed idle peek-none|2|3|2|3
16|=queue rule failed failed idle peek-none|2|3|2|3
17|=queue rule target failed idle peek-none|3|3|3|3
18|=queue rule target failed idle peek-none|3|3|3|3
19|=queue rule target failed idle peek-none|3|4|3|4
20|=queue rule target failed idle peek-none|3|4|3|4
21|=queue rule target event failed peek-none|4|4|4|4
22|=queue rule target event failed peek-none|4|4|4|4
23|=queue rule target event failed peek-none|4|5|4|5
24|=queue rule target event failed peek-none|4|5|4|5
";

/// The exchanges of a session, and of one after the next opening.
const CUTS: &str = "|queue rule target event delivered peek
queue|rule target event delivered peek
queue rule|target event delivered peek
queue rule target|event delivered peek
queue rule target event|delivered peek
queue rule target event delivered|peek
";

/// A disk whose file has these bytes. The call with this number fails, from 1; 0: none.
fn disk<R: Abort>(rt: &R, alloc: Global, file: &[u8], fails: usize) -> MemoryDisk
    ensures { result.calls ≡ [] }
{
    let mut plan = Vec::new(alloc);
    plan.resize(fails.saturating_sub(1), false)
        .expect(rt, "a plan");
    plan.push(fails != 0).expect(rt, "a plan");
    match MemoryDisk::new(alloc, file, plan) {
        Ok(disk) => disk,
        Err(_) => panic!(rt; "a disk"),
    }
}

/// The book of the journal on the disk.
fn opened<R: Abort>(rt: &R, alloc: Global, disk: MemoryDisk) -> Book<MemoryDisk>
    requires { disk.calls ≡ [] }
    ensures book { IsSoundBook ⟦<MemoryDisk as Disk>⟧.calls ⟦<MemoryDisk as Disk>⟧.faults result }
    ensures unmade { (n : ℕ) → turns_by (λ t. t.pass) n (recorded_in result.machine.history) ≡ [] }
{
    match recover_book(alloc, Some(disk)) {
        Ok(opened) => opened.book(),
        Err(_) => panic!(rt; "a book"),
    }
}

/// Sends the messages of exchanges in a session over the book of the journal on the disk. Returns the disk.
fn served<R: Wait + Abort>(
    rt: &R,
    alloc: Global,
    disk: MemoryDisk,
    names: &str,
    output: &mut MemSink,
) -> MemoryDisk
    requires { disk.calls ≡ [] }
{
    let (hall, mut pass) = hall_of(rt, alloc, opened(rt, alloc, disk), 1);
    send(rt, alloc, &hall, &mut pass, 0, names, output);
    match hall.close(pass, Vec::new(alloc)).into_disk() {
        Some(disk) => disk,
        None => panic!(rt; "a journal"),
    }
}

/// What was written, after a `|`.
fn replies<R: Abort>(rt: &R, alloc: Global, output: &MemSink) -> String {
    let text = str::from_utf8(output.bytes()).expect(rt, "text");
    format!(in alloc; "|{text}").expect(rt, "replies")
}

/// The number of records of the journal that is this file.
fn records<R: Abort>(rt: &R, alloc: Global, file: &[u8]) -> u64 {
    let book = opened(rt, alloc, disk(rt, alloc, file, 0));
    let records = book.tables().batches();
    let _disk = book.into_disk();
    records
}

/// The tear of a row of `CRASHES`.
fn tear<R: Abort>(rt: &R, row: &str) -> Tear {
    let (front, rest, _) = three(row);
    Tear {
        front: front.parse::<usize>().expect(rt, "a number"),
        rest: rest.parse::<u8>().ok(),
    }
}

/// Adds a digit for each crash after `least` calls or more: the number of records of what it leaves.
fn add_found<R: Abort>(
    rt: &R,
    alloc: Global,
    found: &mut String,
    disk: &MemoryDisk,
    least: usize,
    tear: Tear,
) {
    for calls in least..100 {
        match disk.image(calls, tear) {
            Some(image) => {
                let count = records(rt, alloc, &image);
                write!(found, "{count}").expect(rt, "a digit");
            }
            None => break,
        }
    }
}

#[test]
fn a_crash_leaves_the_records_of_each_append_or_none_of_it(rt: HostRuntime) {
    let alloc = rt.alloc();
    let mut output = MemSink::new(alloc);
    let after = served(&rt, alloc, disk(&rt, alloc, b"", 0), SENT, &mut output);
    for row in CRASHES.lines() {
        let (_, _, want) = three(row);
        let mut found = String::new(alloc);
        add_found(&rt, alloc, &mut found, &after, 4, tear(&rt, row));
        assert_eq!(rt; found.as_str(), want, "{row}");
    }
}

/// Fails unless a run goes as a row of `FAULTS` wants.
fn meet_fault<R: Wait + Abort>(rt: &R, alloc: Global, row: &str) {
    let (fails, want) = two(row);
    let fails = fails.parse::<usize>().expect(rt, "a number");
    let mut output = MemSink::new(alloc);
    let after = served(rt, alloc, disk(rt, alloc, b"", fails), SENT, &mut output);
    let mut got = replies(rt, alloc, &output);
    for crash in CRASHES.lines() {
        got.push('|').expect(rt, "a field");
        add_found(rt, alloc, &mut got, &after, fails, tear(rt, crash));
    }
    let want = wanted(alloc, want).expect(rt, "a row");
    assert_eq!(*rt; got.as_str(), want.as_str(), "{row}");
}

#[test]
fn after_a_failed_append_nothing_is_written_and_nothing_is_lost(rt: HostRuntime) {
    for row in FAULTS.lines() {
        meet_fault(&rt, rt.alloc(), row);
    }
}

/// Fails unless the messages of the first run get their replies in two sessions, as a row of `CUTS` parts them.
fn meet_cut<R: Wait + Abort>(rt: &R, alloc: Global, row: &str) {
    let (first, second) = two(row);
    let mut output = MemSink::new(alloc);
    let between = served(rt, alloc, disk(rt, alloc, b"", 0), first, &mut output);
    let again = disk(rt, alloc, between.bytes(), 0);
    let _after = served(rt, alloc, again, second, &mut output);
    let got = replies(rt, alloc, &output);
    let want = wanted(alloc, "=queue rule target event delivered peek").expect(rt, "a row");
    assert_eq!(*rt; got.as_str(), want.as_str(), "{row}");
}

#[test]
fn a_book_is_opened_from_its_journal(rt: HostRuntime) {
    for row in CUTS.lines() {
        meet_cut(&rt, rt.alloc(), row);
    }
}

/// Why the file on the disk is not opened.
fn fault_of(alloc: Global, disk: MemoryDisk) -> Option<OpenFault>
    requires { disk.calls ≡ [] }
{
    match recover_book(alloc, Some(disk)) {
        Ok(opened) => {
            let _disk = opened.book().into_disk();
            None
        }
        Err((fault, _disk)) => Some(fault),
    }
}

#[test]
fn a_book_is_not_opened_from_another_file(rt: HostRuntime) {
    let alloc = rt.alloc();
    let damaged = OpenFault::Damaged { place: 1, byte: 8 };
    let other = disk(&rt, alloc, b"hello world", 0);
    assert_eq!(rt; fault_of(alloc, other), Some(OpenFault::NotOurs));
    let cut = disk(&rt, alloc, b"EBJRNL1\n\x01x", 0);
    assert_eq!(rt; fault_of(alloc, cut), Some(damaged));
}

#[test]
fn a_book_is_not_opened_if_the_disk_fails(rt: HostRuntime) {
    let alloc = rt.alloc();
    for fails in 1..5 {
        let failing = disk(&rt, alloc, b"", fails);
        assert_eq!(rt;
            fault_of(alloc, failing),
            Some(OpenFault::Failed),
            "{fails}"
        );
    }
    let failing = disk(&rt, alloc, b"", 5);
    assert_eq!(rt; fault_of(alloc, failing), None);
}
