//! The doubles in memory and the adapters of the outside.
use router_disk::{
    Clock, Failed, Failing, Link, LinkFault, MemClock, MemLink, MemSink, MemSource, ReaderSource,
    Sink, Source, SystemClock, WriterSink,
};
use std::alloc::Global;
use std::io;
use std::io::{ErrorKind, Read, Write};
use std::process::Abort;
use std::time::Duration;

const TEXT: &[u8] = b"POST / HTTP/1.1\r\n";

// Reads to the end, past failures, and returns the bytes and the number of calls that failed.
fn read_all<R: Abort, S: Source>(rt: &R, alloc: Global, source: &mut S) -> (Vec<u8>, u64) {
    let mut bytes = Vec::new(alloc);
    let mut failed = 0u64;
    let mut buf = [0u8; 8];
    for _ in 0..100 {
        match source.read(&mut buf) {
            Ok(0) => break,
            Ok(count) => bytes.extend_from_slice(&buf[..count]).expect(rt, "bytes"),
            Err(Failed) => failed = failed.saturating_add(1),
        }
    }
    (bytes, failed)
}

fn source<R: Abort>(rt: &R, alloc: Global) -> MemSource {
    MemSource::new(TEXT.to_vec(alloc).expect(rt, "bytes"))
}

#[test]
fn a_source_gives_the_same_bytes_in_any_pieces(rt: HostRuntime) {
    for most in [1, 2, 7, 8, 9, 1000] {
        let mut source = source(&rt, rt.alloc()).in_pieces(most);
        let (bytes, failed) = read_all(&rt, rt.alloc(), &mut source);
        assert_eq!(rt; bytes.as_slice(), TEXT, "in pieces of {most}");
        assert_eq!(rt; failed, 0, "in pieces of {most}");
    }
}

#[test]
fn a_failed_call_loses_no_byte_and_is_counted(rt: HostRuntime) {
    for sound in [0, 1, 2] {
        let mut failing = Failing::after(sound, source(&rt, rt.alloc()));
        let (bytes, failed) = read_all(&rt, rt.alloc(), &mut failing);
        assert_eq!(rt; bytes.as_slice(), TEXT, "after {sound}");
        assert_eq!(rt; failed, 1, "after {sound}");
        assert_eq!(rt; Source::faults(&failing), 1, "after {sound}");
    }
    let mut sink = Failing::after(1, MemSink::new(rt.alloc()));
    assert_eq!(rt; sink.write_all(b"ab"), Ok(()));
    assert_eq!(rt; sink.write_all(b"cd"), Err(Failed));
    assert_eq!(rt; sink.write_all(b"ef"), Ok(()));
    assert_eq!(rt; sink.inner.bytes(), b"abef".as_slice());
    assert_eq!(rt; Sink::faults(&sink), 1);
}

#[test]
fn a_clock_in_memory_repeats_its_last_reading(rt: HostRuntime) {
    let later = [3, 9].to_vec(rt.alloc()).expect(&rt, "readings");
    let mut clock = MemClock::new(5, later);
    for want in [5, 3, 9, 9, 9] {
        assert_eq!(rt; clock.now(), want);
    }
    let mut still = MemClock::always(rt.alloc(), 1_700_000_000);
    for _ in 0..3 {
        assert_eq!(rt; still.now(), 1_700_000_000);
    }
}

const URL: &str = "http://localhost/";

// Whether the exchange at this place has this text and this code.
fn has_answered(link: &MemLink, place: usize, text: &str, code: u16) -> bool {
    match link.answers.get(place) {
        Some(answer) => {
            answer.endpoint.as_str() == URL && answer.text.as_str() == text && answer.code == code
        }
        None => false,
    }
}

#[test]
fn a_link_in_memory_keeps_to_its_plan(rt: HostRuntime) {
    let later = [Err(LinkFault::Failed), Err(LinkFault::NoMemory), Ok(200)].to_vec(rt.alloc());
    let later = later.expect(&rt, "results");
    let mut link = MemLink::new(rt.alloc(), Ok(503), later);
    assert_eq!(rt; link.send(URL, "a"), Ok(503));
    assert_eq!(rt; link.send(URL, "b"), Err(LinkFault::Failed));
    assert_eq!(rt; link.send(URL, "c"), Err(LinkFault::NoMemory));
    assert_eq!(rt; link.send(URL, "d"), Ok(200));
    assert_eq!(rt; link.send(URL, "e"), Ok(200));
    assert_eq!(rt; link.faults(), 1);
    assert_eq!(rt; link.answers.len(), 3);
    assert!(rt; has_answered(&link, 0, "a", 503));
    assert!(rt; has_answered(&link, 1, "d", 200));
    assert!(rt; has_answered(&link, 2, "e", 200));
    let mut silent = MemLink::always(rt.alloc(), Err(LinkFault::Failed));
    for _ in 0..3 {
        assert_eq!(rt; silent.send(URL, "{}"), Err(LinkFault::Failed));
    }
    assert_eq!(rt; silent.faults(), 3);
}

// Reads or writes one byte a call. Every second call is interrupted, and call number `fails` fails.
#[derive(Drop)]
struct Slow {
    calls: u64,
    fails: u64,
    bytes: Vec<u8>,
}

impl Slow {
    fn new(fails: u64, bytes: Vec<u8>) -> Slow {
        Slow {
            calls: 0,
            fails,
            bytes,
        }
    }

    fn step(&mut self) -> io::Result<()> {
        self.calls = self.calls.saturating_add(1);
        if self.calls == self.fails {
            Err(io::Error::from(ErrorKind::BrokenPipe))
        } else if self.calls % 2 == 0 {
            Err(io::Error::from(ErrorKind::Interrupted))
        } else {
            Ok(())
        }
    }
}

impl Write for Slow {
    fn write(&mut self, buf: &[u8]) -> io::Result<usize> {
        self.step()?;
        if buf.is_empty() {
            return Ok(0);
        }
        self.bytes.push(buf[0])?;
        Ok(1)
    }

    fn flush(&mut self) -> io::Result<()> {
        self.step()
    }
}

impl Read for Slow {
    fn read(&mut self, buf: &mut [u8]) -> io::Result<usize> {
        self.step()?;
        if buf.is_empty() || self.bytes.is_empty() {
            return Ok(0);
        }
        buf[0] = self.bytes.remove(0);
        Ok(1)
    }
}

impl std::time::Clock for Slow {
    fn monotonic(&self) -> io::Result<Duration> {
        Ok(Duration::from_secs(1))
    }

    fn since_1970(&self) -> io::Result<Duration> {
        Ok(Duration::new(1_700_000_000, 999_999_999))
    }
}

#[test]
fn adapters_try_again_if_interrupted_and_count_failures(rt: HostRuntime) {
    let alloc = rt.alloc();
    let bytes = b"abcd".to_vec(alloc).expect(&rt, "bytes");
    let mut source = ReaderSource::new(Slow::new(5, bytes));
    let (bytes, failed) = read_all(&rt, alloc, &mut source);
    assert_eq!(rt; bytes.as_slice(), b"abcd".as_slice());
    assert_eq!(rt; failed, 1);
    assert_eq!(rt; source.faults(), 1);
    let mut sink = WriterSink::new(Slow::new(9, Vec::new(alloc)));
    assert_eq!(rt; sink.write_all(b"ab"), Ok(()));
    assert_eq!(rt; sink.write_all(b"cd"), Err(Failed));
    assert_eq!(rt; sink.faults(), 1);
    let mut clock = SystemClock::new(Slow::new(0, Vec::new(alloc)));
    assert_eq!(rt; clock.now(), 1_700_000_000);
}
