//! Tests of the program with `once --journal` and `serve --journal` over a host in memory.
use crate::runs::{Served, clocks, door, left, links};
use bus_host::{MemFile, MemHost};
use std::alloc::Global;
use std::collections::LinkedList;
use std::process::Abort;
use std::sync::Wait;
use std::thread::Threads;
use test_exchanges::wanted;
use test_rows::four;

// A row: the exchanges of the input, the links, the number of the disk's call that fails (0: none), and what is left, in the form of `left` in
// runs.rt.

/// A host with this file, a call of whose disk fails, a door whose one connection has these exchanges, and these links.
fn host<R: Abort>(
    rt: &R,
    alloc: Global,
    bytes: Vec<u8>,
    call: &str,
    sent: &str,
    link: &str,
) -> Served {
    let call = call.parse::<usize>().expect(rt, "a call");
    let mut fails = Vec::new(alloc);
    fails
        .resize(call.saturating_sub(1), false)
        .expect(rt, "a plan");
    fails.push(call > 0).expect(rt, "a plan");
    let mut files = LinkedList::new(alloc);
    files
        .push_back(Ok(MemFile { bytes, fails }))
        .expect(rt, "files");
    let mut doors = LinkedList::new(alloc);
    doors
        .push_back(Ok(door(rt, alloc, sent)))
        .expect(rt, "doors");
    MemHost::new(alloc, files, doors, links(rt, alloc, link))
}

/// Runs the program on the file by a row. Fails unless it leaves what the row wants. Returns the file of the disk that came back.
fn meet<R: Wait + Threads + Sync + Abort>(
    rt: &R,
    alloc: Global,
    line: &str,
    file: Vec<u8>,
    row: &str,
) -> Vec<u8> {
    let (sent, link, call, want) = four(row);
    let mut host = host(rt, alloc, file, call, sent, link);
    let mut clock = clocks(rt, alloc, "");
    let got = left(rt, alloc, line, sent, "", &mut host, &mut clock);
    let want = wanted(alloc, want).expect(rt, "a row");
    assert_eq!(*rt; got.as_str(), want.as_str(), "{row}");
    let disk = host.disks.held().first().expect(rt, "a disk");
    disk.bytes().to_vec(alloc).expect(rt, "a file")
}

#[test]
fn a_run_keeps_its_journal(rt: HostRuntime) {
    let alloc = rt.alloc();
    let once = "ebusd once --journal J";
    let first = meet(
        &rt,
        alloc,
        once,
        Vec::new(alloc),
        "queue rule target|1 200|0|Done 0||=queue rule target|0 0|+0",
    );
    assert_eq!(rt; first.len(), 189);
    let second = meet(
        &rt,
        alloc,
        once,
        first,
        "event delivered peek|1 200|0|Done 0||=event delivered peek|0 0|+0",
    );
    assert_eq!(rt; second.len(), 832);
    let counts =
        "|0 200|0|Done 0||records 5 entries 5 control 3\nevents 1 archived 0 replays 0\nduties 1 pending 0 delivered 1 dead-lettered 0 dropped 0\nmessages 1\n|0 0|";
    let same = meet(&rt, alloc, "ebusd check --journal J", second, counts);
    assert_eq!(rt; same.len(), 832);
}

#[test]
fn workers_keep_a_journal(rt: HostRuntime) {
    let alloc = rt.alloc();
    let first =
        "queue rule target|16 200|0|Done 0||listening 8080\nrecords 3 entries 3 control 3\nevents 0 archived 0 replays 0\nduties 0 pending 0 delivered 0 dead-lettered 0 dropped 0\nmessages 0\n|0 0|+0|door 0|=queue rule target";
    let line = "ebusd serve --port 8080 --workers 1 --connections 1 --journal J";
    let left = meet(&rt, alloc, line, Vec::new(alloc), first);
    assert_eq!(rt; left.len(), 189);
    let broken =
        "rule|16 200|5|DiskFault 5|ebusd: disk failed\n|listening 8080\n|0 0|+0|door 0|=failed";
    meet(&rt, alloc, line, left, broken);
}

/// The bytes of a file.
fn file<R: Abort>(rt: &R, alloc: Global, bytes: &[u8]) -> Vec<u8> {
    bytes.to_vec(alloc).expect(rt, "a file")
}

#[test]
fn other_files_are_refused(rt: HostRuntime) {
    let alloc = rt.alloc();
    let once = "ebusd once --journal J";
    let other = b"hello world";
    let want = "queue|1 200|0|NotOurs 6|ebusd: not a journal\n||0 0|";
    let same = meet(&rt, alloc, once, file(&rt, alloc, other), want);
    assert!(rt; same.as_slice() == other.as_slice());
    let cut = b"EBJRNL1\n\x01\x00";
    let want =
        "queue|1 200|0|Damaged { place: 1, byte: 8 } 6|ebusd: journal damaged at record 1, byte 8\n||0 0|";
    let same = meet(&rt, alloc, once, file(&rt, alloc, cut), want);
    assert!(rt; same.as_slice() == cut.as_slice());
}

#[test]
fn a_disk_that_fails_ends_a_run(rt: HostRuntime) {
    let alloc = rt.alloc();
    let once = "ebusd once --journal J";
    let at_once = "queue|1 200|1|DiskFault 5|ebusd: disk failed\n||0 0|";
    meet(&rt, alloc, once, Vec::new(alloc), at_once);
    let later =
        "queue rule delivered|1 200|10|DiskFault 5|ebusd: disk failed\n|=queue failed idle|0 0|+0";
    meet(&rt, alloc, once, Vec::new(alloc), later);
}

#[test]
fn a_run_without_a_link_changes_nothing(rt: HostRuntime) {
    let alloc = rt.alloc();
    let want = "queue|0 200|0|DoorFault 8|ebusd: door failed\n||1 0|";
    let left = meet(&rt, alloc, "ebusd once --journal J", Vec::new(alloc), want);
    assert!(rt; left.as_slice() == b"EBJRNL1\n\x00".as_slice());
}

#[test]
fn a_run_without_a_disk_begins_nothing(rt: HostRuntime) {
    let row = "ebusd once --journal J|queue|closed|1 200|";
    let want = "DiskFault 5|ebusd: disk failed\n||0 0|";
    crate::runs::meet(&rt, rt.alloc(), row, want);
}
