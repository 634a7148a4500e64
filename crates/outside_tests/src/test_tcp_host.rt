//! A host over TCP, its links and its doors. The clients of a door are in the same thread.
use crate::ledger::knock;
use bus_host::{Door, Host, HostFault, Knock};
use journal_disk::{FaultFlag, JournalDisk};
use memory_disk::MemoryDisk;
use router_disk::{Disk, Link, LinkFault, Sink, Source};
use std::alloc::{AllocError, Global};
use std::io::Write;
use std::net::{Ipv4Addr, SocketAddr, TcpListener, TcpStream};
use std::test::Fail;
use std::time::{Duration, Instant};
use std::{io, thread};
use tcp_host::{TcpDoor, TcpHost, TcpSink, TcpSource};
use test_rows::{all_met, two};

// The address of a port of this machine. Port 0: one that nobody uses.
fn local(port: u16) -> SocketAddr {
    SocketAddr::from((Ipv4Addr::LOCALHOST, port))
}

// A host that has given nothing yet.
fn new_host(rt: &HostRuntime) -> Result<TcpHost<HostRuntime>, AllocError> {
    TcpHost::new(rt.alloc(), *rt)
}

// The faults of the host's disks, doors and links.
fn faults(host: &TcpHost<HostRuntime>) -> [u64; 3] {
    [host.disk_faults(), host.door_faults(), host.link_faults()]
}

// What a send of a link of the host to no endpoint gives, and the link's faults after it.
fn sent_nowhere(host: &mut TcpHost<HostRuntime>) -> Option<(Result<u16, LinkFault>, u64)> {
    match host.link() {
        Ok(mut link) => {
            let sent = link.send("https://localhost/", "{}");
            let faults = link.faults();
            host.back_link(link);
            Some((sent, faults))
        }
        Err(_) => None,
    }
}

// A letter for what a door at this port gives, or `n` if there is none.
fn knocked(host: &mut TcpHost<HostRuntime>, port: u16) -> u8 {
    match host.door(port) {
        Ok(mut door) => {
            let letter = knock(&mut door);
            host.back_door(door);
            letter
        }
        Err(_) => b'n',
    }
}

// Whether the host fails to give a disk over this file.
fn has_no_disk(host: &mut TcpHost<HostRuntime>, path: &str) -> bool {
    matches!(host.disk(path), Err(HostFault::Failed))
}

#[test]
fn a_host_over_tcp_gives_doors_and_links(rt: HostRuntime) {
    let mut host = new_host(&rt).expect(&rt, "a host");
    assert_eq!(rt; sent_nowhere(&mut host), Some((Err(LinkFault::Failed), 1)));
    assert!(rt; has_no_disk(&mut host, "/dev/null"));
    assert!(rt; has_no_disk(&mut host, "/"));
    assert!(rt; has_no_disk(&mut host, "/no such folder/journal"));
    assert_eq!(rt; knocked(&mut host, 0), b'q', "nobody came");
    let other = TcpListener::bind(&rt, local(0)).expect(&rt, "a listener");
    let port = other.local_addr().expect(&rt, "an address").port();
    assert_eq!(rt; knocked(&mut host, port), b'n', "in use");
    assert_eq!(rt; faults(&host), [3, 1, 0]);
}

// The address of a port that nobody uses.
fn free(rt: &HostRuntime) -> io::Result<SocketAddr> {
    TcpListener::bind(rt, local(0))?.local_addr()
}

// A door for a program with this number of workers, and its address. Its connections see the flag.
fn open(
    rt: &HostRuntime,
    workers: usize,
    flag: &FaultFlag,
) -> Option<(TcpDoor<HostRuntime>, SocketAddr)> {
    for _ in 0..10 {
        let Ok(address) = free(rt) else {
            return None;
        };
        let Ok(flag) = flag.try_clone() else {
            return None;
        };
        if let Ok(door) = TcpDoor::open(rt.alloc(), *rt, address.port(), workers, flag) {
            return Some((door, address));
        }
    }
    None
}

#[test]
fn an_idle_client_ends_for_one_that_waits(rt: HostRuntime) {
    let flag = FaultFlag::new(rt.alloc()).expect(&rt, "a flag");
    let (mut door, address) = open(&rt, 2, &flag).expect(&rt, "a door");
    let _first = TcpStream::connect(&rt, address).expect(&rt, "a client");
    let Knock::Conn(mut input, output) = door.next() else {
        panic!(rt; "no connection");
    };
    let _second = TcpStream::connect(&rt, address).expect(&rt, "a client");
    thread::sleep(&rt, Duration::from_millis(300));
    assert_eq!(rt; knock(&mut door), b'q', "the second waits");
    input.rests();
    assert_eq!(rt; input.read(&mut [0u8; 8]), Ok(0));
    assert_eq!(rt; knock(&mut door), b'q', "the first is not back");
    door.done(input, output, false);
    assert_eq!(rt; knock(&mut door), b'C', "the second");
    door.close();
}

// Steps of a connection, and how many bytes its reads give. `c` is a call of the disk that succeeds, and `f` one that fails. `s` sends two
// bytes. `b` reads between messages, and `r` inside one. `w` writes a reply. All steps take less than the 20 s of an idle connection.
const STEPS: &str = "sbwcsb|22
fb|0
sfb|2
sbwfb|20
sbwsfb|20
sbfsr|22
sbfsrwr|220
";

// A connection, its client, and the disk whose failed calls end it.
#[derive(Drop)]
struct Scene {
    client: TcpStream,
    input: TcpSource<HostRuntime>,
    output: TcpSink<HostRuntime>,
    disk: JournalDisk<MemoryDisk>,
}

impl Scene {
    // Makes a step. Returns how many bytes a read gives, or `x` if a step fails that should not.
    fn step(&mut self, letter: char) -> Option<char> {
        let succeeds = match letter {
            'c' => self.disk.sync().is_ok(),
            'f' => self.disk.cut(1).is_err(),
            's' => self.client.write_all(b"ab").is_ok(),
            'w' => self.output.write_all(b"pong").is_ok(),
            'b' => {
                self.input.rests();
                return Some(self.read());
            }
            _ => return Some(self.read()),
        };
        if succeeds { None } else { Some('x') }
    }

    fn read(&mut self) -> char {
        match self.input.read(&mut [0u8; 8]) {
            Ok(0) => '0',
            Ok(2) => '2',
            Ok(_) => 'n',
            Err(_) => 'x',
        }
    }
}

// What the steps give.
fn given(alloc: Global, scene: &mut Scene, steps: &str) -> Result<String, AllocError> {
    let mut given = String::new(alloc);
    for letter in steps.chars() {
        if let Some(size) = scene.step(letter) {
            given.push(size)?;
        }
    }
    Ok(given)
}

// Whether the steps give what is wanted, within 10 s.
fn gives(rt: &HostRuntime, scene: &mut Scene, steps: &str, wanted: &str) -> bool {
    let Ok(start) = Instant::now(rt) else {
        return false;
    };
    match given(rt.alloc(), scene, steps) {
        Ok(given) => given.as_str() == wanted && is_recent(rt, start),
        Err(_) => false,
    }
}

fn is_recent(rt: &HostRuntime, start: Instant) -> bool {
    match start.elapsed(rt) {
        Ok(spent) => spent < Duration::from_secs(10),
        Err(_) => false,
    }
}

// A disk that sets the flag.
fn disk_of(alloc: Global, flag: &FaultFlag) -> Option<JournalDisk<MemoryDisk>> {
    let Ok(flag) = flag.try_clone() else {
        return None;
    };
    match MemoryDisk::new(alloc, b"", Vec::new(alloc)) {
        Ok(disk) => Some(JournalDisk::new(disk, flag)),
        Err(_) => None,
    }
}

// A connection that the door gives to a new client.
fn connected(
    rt: &HostRuntime,
    door: &mut TcpDoor<HostRuntime>,
    address: SocketAddr,
    disk: JournalDisk<MemoryDisk>,
) -> Option<Scene> {
    let Ok(client) = TcpStream::connect(rt, address) else {
        return None;
    };
    match door.next() {
        Knock::Conn(input, output) => Some(Scene {
            client,
            input,
            output,
            disk,
        }),
        Knock::Quiet | Knock::Closed | Knock::Failed | Knock::NoMemory => None,
    }
}

fn are_steps_met(
    rt: &HostRuntime,
    door: &mut TcpDoor<HostRuntime>,
    address: SocketAddr,
    disk: JournalDisk<MemoryDisk>,
    row: &str,
) -> bool {
    let (steps, wanted) = two(row);
    match connected(rt, door, address, disk) {
        Some(mut scene) => {
            let is_met = gives(rt, &mut scene, steps, wanted);
            let Scene { input, output, .. } = scene;
            door.done(input, output, false);
            is_met
        }
        None => false,
    }
}

fn is_row_met(rt: &HostRuntime, row: &str) -> Option<bool> {
    let Ok(flag) = FaultFlag::new(rt.alloc()) else {
        return None;
    };
    let disk = disk_of(rt.alloc(), &flag)?;
    let (mut door, address) = open(rt, 2, &flag)?;
    let is_met = are_steps_met(rt, &mut door, address, disk, row);
    door.close();
    Some(is_met)
}

#[test]
fn a_connection_ends_between_messages_if_the_disk_failed(rt: HostRuntime) -> Result<(), Fail> {
    all_met(
        rt.alloc(),
        STEPS,
        7,
        |_, row| Ok(is_row_met(&rt, row) == Some(true)),
    )
}
