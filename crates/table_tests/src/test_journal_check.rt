//! Tests of the crate `journal_check`: a journal is read over a host in memory.
use crate::test_duty_journal::bytes;
use bus_host::{HostFault, MemFile, MemHost};
use journal_check::check;
use program_lines::Status;
use router_disk::{MemSink, MemSource};
use std::alloc::Global;
use std::collections::LinkedList;
use std::test::Fail;
use test_rows::{all_met, four};

/// Files, which call of the disk fails (0: none), the exit status, and the first line on the output, or the line that reports the status. In
/// their order: a queue was made; an empty file; ten other bytes; an operation of kind 99; the queue is made twice; the length
/// cannot be asked for; the records cannot be read.
const FILES: &str =
    "45424a524e4c310a010000000000000010000000006553f100000109000000017100|0|0|records 1 entries 1 control 1
|0|0|records 0 entries 0 control 0
68656c6c6f20776f726c|0|6|ebusd: not a journal
45424a524e4c310a010000000000000010000000006553f100000163000000017100|0|6|ebusd: journal damaged at record 1, byte 8
45424a524e4c310a010000000000000010000000006553f1000001090000000171010000000000000010000000006553f100000109000000017100|0|6|ebusd: journal damaged at record 2, byte 33
45424a524e4c310a010000000000000010000000006553f100000109000000017100|1|5|ebusd: disk failed
45424a524e4c310a010000000000000010000000006553f100000109000000017100|3|5|ebusd: disk failed
";

type Memory = MemHost<MemSource, MemSink>;

/// A host with one file, whose call of this number fails.
fn host(alloc: Global, digits: &str, call: usize) -> Result<Memory, Fail> {
    let mut fails = Vec::new(alloc);
    fails.resize(call.saturating_sub(1), false)?;
    fails.push(call > 0)?;
    let spelled = bytes(alloc, digits)?;
    let bytes = spelled.as_slice().to_vec(alloc)?;
    let mut files = LinkedList::new(alloc);
    files.push_back(Ok(MemFile { bytes, fails }))?;
    let doors = LinkedList::new(alloc);
    let links = LinkedList::new(alloc);
    Ok(MemHost::new(alloc, files, doors, links))
}

/// The first line of a text.
fn first_line(text: &[u8]) -> Result<&str, Fail> {
    match str::from_utf8(text)?.lines().next() {
        Some(line) => Ok(line),
        None => Ok(""),
    }
}

/// Whether the first line on the output is this, or, if nothing was written, the line of the status.
fn is_reported(output: &MemSink, status: Status, wanted: &str) -> Result<bool, Fail> {
    if output.bytes().is_empty() {
        let line = status.line();
        Ok(first_line(line.as_slice())? == wanted)
    } else {
        Ok(first_line(output.bytes())? == wanted)
    }
}

/// The host has its disk back.
fn is_back(host: &Memory) -> bool {
    host.disks.held().len() == 1
}

fn is_checked(alloc: Global, row: &str) -> Result<bool, Fail> {
    let (file, call, code, wanted) = four(row);
    let mut host = host(alloc, file, call.parse::<usize>()?)?;
    let mut output = MemSink::new(alloc);
    let status = check(alloc, "journal", &mut output, &mut host);
    let is_met = (status.code() == code.parse::<u8>()?) & is_back(&host);
    Ok(is_met & is_reported(&output, status, wanted)?)
}

#[test]
fn a_file_is_checked(rt: HostRuntime) -> Result<(), Fail> {
    all_met(rt.alloc(), FILES, 7, is_checked)
}

#[test]
fn a_host_without_a_disk_ends_a_check(rt: HostRuntime) {
    let alloc = rt.alloc();
    let mut files = LinkedList::new(alloc);
    files
        .push_back(Err(HostFault::NoMemory))
        .expect(&rt, "files");
    let doors = LinkedList::new(alloc);
    let links = LinkedList::new(alloc);
    let mut host: Memory = MemHost::new(alloc, files, doors, links);
    let mut output = MemSink::new(alloc);
    let refused = check(alloc, "journal", &mut output, &mut host);
    let failed = check(alloc, "journal", &mut output, &mut host);
    assert_eq!(rt; refused, Status::NoMemory);
    assert_eq!(rt; failed, Status::DiskFault);
    assert!(rt; output.bytes().is_empty());
}
