//! A host that opens nothing, and a door and a host in memory.
use crate::ledger::{door, knock};
use bus_host::{
    Clocks, Door, Host, HostFault, Knock, MemClocks, MemDoor, MemFile, MemHost, NoDisk, NoDoor,
    NoHost, NoLink,
};
use router_disk::{Clock, Disk, Failed, Link, LinkFault, MemClock, MemLink, MemSink, MemSource};
use std::alloc::Global;
use std::collections::LinkedList;
use std::process::Abort;

#[test]
fn each_call_of_no_host_fails_and_is_counted_apart(rt: HostRuntime) {
    let mut host = NoHost::new();
    assert!(rt; matches!(host.disk("journal"), Err(HostFault::Failed)));
    assert!(rt; matches!(host.disk("journal"), Err(HostFault::Failed)));
    assert!(rt; matches!(host.door(8080), Err(HostFault::Failed)));
    assert_eq!(rt; host.disk_faults(), 2, "disk");
    assert_eq!(rt; host.door_faults(), 1, "door");
    assert_eq!(rt; host.link_faults(), 0, "link");
}

#[test]
fn its_disk_door_and_link_fail_too(rt: HostRuntime) {
    let mut disk = NoDisk::new();
    assert_eq!(rt; disk.size(), Err(Failed));
    assert_eq!(rt; disk.sync(), Err(Failed));
    assert_eq!(rt; disk.faults(), 2, "disk");
    let mut door = NoDoor::new();
    assert!(rt; matches!(door.next(), Knock::Failed));
    assert_eq!(rt; door.faults(), 1, "door");
    let mut link = NoLink::default();
    let sent = link.send("http://localhost/", "{}");
    assert_eq!(rt; sent, Err(LinkFault::Failed));
    assert_eq!(rt; link.faults(), 1, "link");
}

#[test]
fn a_door_in_memory_gives_what_it_plans(rt: HostRuntime) {
    let mut door = door(&rt, rt.alloc(), "qCf");
    let letters = [
        knock(&mut door),
        knock(&mut door),
        knock(&mut door),
        knock(&mut door),
    ];
    assert_eq!(rt; letters, *b"qCfc");
    assert_eq!(rt; door.faults(), 1);
    assert_eq!(rt; door.back.len(), 1);
    for ended in &door.back {
        assert_eq!(rt; ended.output.bytes(), b"pong".as_slice());
        assert!(rt; ended.cut);
    }
}

/// What a link of the host answers, or a letter for why there is none.
fn sent<H: Host>(host: &mut H) -> Result<Result<u16, LinkFault>, u8> {
    match host.link() {
        Ok(mut link) => {
            let sent = link.send("http://localhost/", "{}");
            host.back_link(link);
            Ok(sent)
        }
        Err(HostFault::Failed) => Err(b'f'),
        Err(HostFault::NoMemory) => Err(b'm'),
    }
}

/// A letter for what a door of the host gives, or for why there is none.
fn knocked<H: Host>(host: &mut H) -> Result<u8, u8> {
    match host.door(8080) {
        Ok(mut door) => {
            let letter = knock(&mut door);
            host.back_door(door);
            Ok(letter)
        }
        Err(HostFault::Failed) => Err(b'f'),
        Err(HostFault::NoMemory) => Err(b'm'),
    }
}

#[test]
fn a_host_in_memory_gives_what_it_plans(rt: HostRuntime) {
    let alloc = rt.alloc();
    let mut links = LinkedList::new(alloc);
    let link = MemLink::always(alloc, Ok(204));
    links.push_back(Ok(link)).expect(&rt, "links");
    links
        .push_back(Err(HostFault::NoMemory))
        .expect(&rt, "links");
    let mut doors = LinkedList::new(alloc);
    doors.push_back(Err(HostFault::Failed)).expect(&rt, "doors");
    doors
        .push_back(Ok(MemDoor::new(alloc, LinkedList::new(alloc))))
        .expect(&rt, "doors");
    let mut host: MemHost<MemSource, MemSink> = MemHost::new(
        alloc,
        LinkedList::new(alloc),
        doors,
        links,
    );
    assert_eq!(rt; sent(&mut host), Ok(Ok(204)));
    assert_eq!(rt; sent(&mut host), Err(b'm'));
    assert_eq!(rt; sent(&mut host), Err(b'f'), "no further plan");
    assert_eq!(rt; host.link_faults(), 1, "link");
    assert_eq!(rt; knocked(&mut host), Err(b'f'));
    assert_eq!(rt; knocked(&mut host), Ok(b'c'));
    assert_eq!(rt; host.door_faults(), 1, "door");
    assert_eq!(rt; host.doors.held().len(), 1);
    assert_eq!(rt; host.links.held().len(), 1);
    for link in host.links.held() {
        assert_eq!(rt; link.answers.len(), 1);
    }
}

/// Results of calls for a disk: a file with the bytes `abc` whose second call fails, and a refusal of memory.
fn files<R: Abort>(rt: &R, alloc: Global) -> LinkedList<Result<MemFile, HostFault>> {
    let mut files = LinkedList::new(alloc);
    let file = MemFile {
        bytes: b"abc".to_vec(alloc).expect(rt, "bytes"),
        fails: [false, true].to_vec(alloc).expect(rt, "plan"),
    };
    files.push_back(Ok(file)).expect(rt, "files");
    files
        .push_back(Err(HostFault::NoMemory))
        .expect(rt, "files");
    files
}

/// The lengths that two calls of a disk of the host give, or a letter for why there is no disk.
fn sized<H: Host>(host: &mut H) -> Result<(Result<u64, Failed>, Result<u64, Failed>), u8> {
    match host.disk("journal") {
        Ok(mut disk) => {
            let sizes = (disk.size(), disk.size());
            host.back_disk(disk);
            Ok(sizes)
        }
        Err(HostFault::Failed) => Err(b'f'),
        Err(HostFault::NoMemory) => Err(b'm'),
    }
}

#[test]
fn a_host_in_memory_opens_its_files(rt: HostRuntime) {
    let alloc = rt.alloc();
    let files = files(&rt, alloc);
    let mut host: MemHost<MemSource, MemSink> = MemHost::new(
        alloc,
        files,
        LinkedList::new(alloc),
        LinkedList::new(alloc),
    );
    assert_eq!(rt; sized(&mut host), Ok((Ok(3), Err(Failed))));
    assert_eq!(rt; sized(&mut host), Err(b'm'));
    assert_eq!(rt; sized(&mut host), Err(b'f'), "no further plan");
    assert_eq!(rt; host.disk_faults(), 1, "disk");
    assert_eq!(rt; host.disks.held().len(), 1);
    for disk in host.disks.held() {
        assert_eq!(rt; disk.bytes(), b"abc".as_slice());
    }
}

/// The first reading of the next clock that is lent, and the second.
fn readings<C: Clocks>(clock: &mut C) -> (u64, u64) {
    let mut lent = clock.lend();
    let first = lent.now();
    let second = lent.now();
    clock.back(lent);
    (first, second)
}

#[test]
fn a_clock_in_memory_lends_what_it_plans(rt: HostRuntime) {
    let alloc = rt.alloc();
    let mut planned = LinkedList::new(alloc);
    let later = Vec::from_array(alloc, [8]).expect(&rt, "readings");
    planned
        .push_back(MemClock::new(7, later))
        .expect(&rt, "clocks");
    let mut clock = MemClocks::new(alloc, 5, planned);
    assert_eq!(rt; readings(&mut clock), (7, 8));
    assert_eq!(rt; readings(&mut clock), (5, 5), "no further plan");
    assert_eq!(rt; clock.now(), 5);
}
