//! Runs of the program over streams, a clock and a host in memory, and what each leaves.
use bus_host::{Door, Host, HostFault, MemClocks, MemDoor, MemHost, Plan};
use bus_server::run;
use program_lines::Status;
use router_disk::{Failing, LinkFault, MemClock, MemLink, MemSink, MemSource};
use std::alloc::Global;
use std::collections::LinkedList;
use std::fmt::Write;
use std::process::Abort;
use std::sync::Wait;
use std::thread::Threads;
use test_exchanges::{NOW, messages, wanted};
use test_rows::{four, two};

/// No limit of open files.
pub(crate) const ANY_FILES: u64 = u64::MAX;

/// A host over connections in memory.
pub(crate) type Served = MemHost<MemSource, MemSink>;

/// A plan of a door: `quiet`, `memory`, `failed`, or a connection by the exchanges whose messages it sends.
fn plan<R: Abort>(rt: &R, alloc: Global, field: &str) -> Plan<MemSource, MemSink> {
    if field == "quiet" {
        return Plan::Quiet;
    }
    if field == "memory" {
        return Plan::NoMemory;
    }
    if field == "failed" {
        return Plan::Failed;
    }
    let messages = messages(alloc, field).expect(rt, "messages");
    Plan::Conn(MemSource::new(messages.into_bytes()), MemSink::new(alloc))
}

/// A door with these plans, apart by `;`.
pub(crate) fn door<R: Abort>(rt: &R, alloc: Global, fields: &str) -> MemDoor<MemSource, MemSink> {
    let mut plans = LinkedList::new(alloc);
    for field in fields.split(';') {
        plans.push_back(plan(rt, alloc, field)).expect(rt, "plans");
    }
    MemDoor::new(alloc, plans)
}

/// The links of a host: how many, and what each of their sends gets, a code or `failed`. With `memory` there is none for lack of memory.
pub(crate) fn links<R: Abort>(
    rt: &R,
    alloc: Global,
    field: &str,
) -> LinkedList<Result<MemLink, HostFault>> {
    let (count, answer) = field.split_once(' ').expect(rt, "links");
    let mut links = LinkedList::new(alloc);
    for _ in 0..count.parse::<u32>().expect(rt, "links") {
        let link = match answer {
            "memory" => Err(HostFault::NoMemory),
            "failed" => Ok(MemLink::always(alloc, Err(LinkFault::Failed))),
            _ => Ok(MemLink::always(alloc, Ok(answer.parse::<u16>().expect(rt, "links")))),
        };
        links.push_back(link).expect(rt, "links");
    }
    links
}

/// A host with these links and one door with these plans, or with `closed` none.
pub(crate) fn host<R: Abort>(rt: &R, alloc: Global, door: &str, link: &str) -> Served {
    let mut doors = LinkedList::new(alloc);
    let planned = match door {
        "closed" => Err(HostFault::Failed),
        _ => Ok(self::door(rt, alloc, door)),
    };
    doors.push_back(planned).expect(rt, "doors");
    let disks = LinkedList::new(alloc);
    MemHost::new(alloc, disks, doors, links(rt, alloc, link))
}

/// The words of a command line.
pub(crate) fn words<R: Abort>(rt: &R, alloc: Global, line: &str) -> Vec<String> {
    let mut words = Vec::new(alloc);
    for word in line.split(' ') {
        let word = String::from_str(alloc, word).expect(rt, "words");
        words.push(word).expect(rt, "words");
    }
    words
}

/// The program, for callers that need nothing of its contract.
fn ran<R: Wait + Threads + Sync>(
    rt: &R,
    alloc: Global,
    words: &[String],
    input: &mut Failing<MemSource>,
    output: &mut Failing<MemSink>,
    faults: &mut MemSink,
    host: &mut Served,
    clock: &mut MemClocks,
) -> Status {
    run(
        rt, alloc, words, ANY_FILES, input, output, faults, host, clock,
    )
}

/// What a host has back: for each link a `+` with its faults and its answers, for a door `door` with its faults, and the replies of each
/// connection.
fn back<R: Abort>(rt: &R, alloc: Global, host: &Served) -> String {
    let mut text = String::new(alloc);
    for link in host.links.held() {
        add_link(rt, &mut text, link);
    }
    for door in host.doors.held() {
        add_door(rt, &mut text, door);
    }
    text
}

fn add_link<R: Abort>(rt: &R, text: &mut String, link: &MemLink) {
    let faults = link.faults;
    write!(text, "+{faults}").expect(rt, "a link");
    for answer in &link.answers {
        let (code, endpoint, sent) = (answer.code, answer.endpoint.as_str(), answer.text.as_str());
        write!(text, " {code} {endpoint} {sent}").expect(rt, "a link");
    }
}

fn add_door<R: Abort>(rt: &R, text: &mut String, door: &MemDoor<MemSource, MemSink>) {
    let faults = door.faults();
    write!(text, "|door {faults}").expect(rt, "a door");
    for ended in &door.back {
        let replies = text_of(rt, ended.output.bytes());
        let cut = if ended.cut { "cut " } else { "" };
        write!(text, "|{cut}{replies}").expect(rt, "a door");
    }
}

fn text_of<'a, R: Abort>(rt: &R, bytes: &'a [u8]) -> &'a str {
    str::from_utf8(bytes).expect(rt, "text")
}

/// Runs the program on this command line. Its input has the messages of these exchanges, or fails at once if there is none. Its output
/// fails after so many writes, or never. What is left, each after a `|`: the status with its code and, if the input failed, `read`; the
/// line of the fault; the output; how many calls for a link and for a door failed; and what the host has back.
pub(crate) fn left<R: Wait + Threads + Sync + Abort>(
    rt: &R,
    alloc: Global,
    line: &str,
    sent: &str,
    writes: &str,
    host: &mut Served,
    clock: &mut MemClocks,
) -> String {
    let messages = messages(alloc, sent).expect(rt, "messages");
    let mut input = Failing {
        inner: MemSource::new(messages.into_bytes()),
        sound: if sent.is_empty() { Some(0) } else { None },
        faults: 0,
    };
    let mut output = Failing {
        inner: MemSink::new(alloc),
        sound: writes.parse::<u64>().ok(),
        faults: 0,
    };
    let mut faults = MemSink::new(alloc);
    let words = words(rt, alloc, line);
    let status = ran(
        rt,
        alloc,
        words.as_slice(),
        &mut input,
        &mut output,
        &mut faults,
        host,
        clock,
    );
    let (code, read) = (status.code(), if input.faults == 0 { "" } else { " read" });
    let (fault, output) = (
        text_of(rt, faults.bytes()),
        text_of(rt, output.inner.bytes()),
    );
    let (links, doors) = (host.link_faults(), host.door_faults());
    let back = back(rt, alloc, host);
    let back = back.as_str();
    format!(in alloc; "|{status:?} {code}{read}|{fault}|{output}|{links} {doors}|{back}").expect(
        rt, "a run",
    )
}

/// What is left of a run by a row: the command line, the exchanges of the input, the door, the links, and after how many writes the
/// output fails.
pub(crate) fn left_by<R: Wait + Threads + Sync + Abort>(
    rt: &R,
    alloc: Global,
    row: &str,
) -> String {
    let (line, sent, door, rest) = four(row);
    let (link, writes) = two(rest);
    let mut host = host(rt, alloc, door, link);
    let mut clock = clocks(rt, alloc, "");
    left(rt, alloc, line, sent, writes, &mut host, &mut clock)
}

/// A clock that stands at `NOW`. It lends a clock for each of these, apart by `;`, whose readings are so many seconds later.
pub(crate) fn clocks<R: Abort>(rt: &R, alloc: Global, plans: &str) -> MemClocks {
    let mut planned = LinkedList::new(alloc);
    for plan in plans.split_terminator(';') {
        let mut later = Vec::new(alloc);
        for seconds in plan.split(' ') {
            let seconds = u64::from(seconds.parse::<u32>().expect(rt, "seconds"));
            later.push(NOW + seconds).expect(rt, "readings");
        }
        planned
            .push_back(MemClock::new(NOW, later))
            .expect(rt, "clocks");
    }
    MemClocks::new(alloc, NOW, planned)
}

/// Fails unless a run by the row leaves what it wants.
pub(crate) fn meet<R: Wait + Threads + Sync + Abort>(rt: &R, alloc: Global, row: &str, want: &str) {
    let got = left_by(rt, alloc, row);
    let want = wanted(alloc, want).expect(rt, "a row");
    assert_eq!(*rt; got.as_str(), want.as_str(), "{row}");
}
