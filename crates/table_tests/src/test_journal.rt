//! Tests of the crate `duty_journal`: files that are journals and others, and an append that stops.
ghost use Rattle.std.specs.Prelude.{◌≡◌, ◌<◌, [], length, IfOk};
ghost use Rattle.record_file.specs.State.{IsSound};

use crate::test_duty_journal::bytes;
use duty_journal::{Found, Journal, JournalFault, inspect};
use memory_disk::{MemoryDisk, Tear};
use record_file::Text;
use router_disk::Disk;
use std::alloc::Global;
use std::test::Fail;
use test_rows::{all_met, last, three, two};

/// Files, and what is found: `records|N|0`, `damaged|RECORD|BYTE`, or `other|0|0` for another header. The first one has the creation of the
/// queue `q` at the moment 1700000000. In their order: an empty file, nine bytes, ten bytes; of the first file the last byte is missing, the
/// length is 2^64 - 1, no operation, a moment after the last one, kind 99, kind 20, no UTF-8, an open gate at the end, the record twice, an
/// earlier moment after it, another queue after it, a gate 0, a gate 2, bytes after it; an open gate alone; an attempt with an outcome 0 and a code, one
/// of a duty that does not exist.
const FILES: &str =
    "45424a524e4c310a010000000000000010000000006553f100000109000000017100|records|1|0
|records|0|0
68656c6c6f20776f72|records|0|0
68656c6c6f20776f726c|other|0|0
45424a524e4c310a010000000000000010000000006553f1000001090000000171|damaged|1|8
45424a524e4c310a01ffffffffffffffff000000006553f100000109000000017100|damaged|1|8
45424a524e4c310a010000000000000010000000006553f100000009000000017100|damaged|1|8
45424a524e4c310a010000000000000010010000006553f100000109000000017100|damaged|1|8
45424a524e4c310a010000000000000010000000006553f100000163000000017100|damaged|1|8
45424a524e4c310a010000000000000010000000006553f100000114000000017100|damaged|1|8
45424a524e4c310a010000000000000010000000006553f10000010900000001ff00|damaged|1|8
45424a524e4c310a010000000000000010000000006553f100000109000000017101|damaged|2|33
45424a524e4c310a010000000000000010000000006553f1000001090000000171010000000000000010000000006553f100000109000000017100|damaged|2|33
45424a524e4c310a010000000000000010000000006553f1000001090000000171010000000000000010000000006553f0ff000109000000017200|damaged|2|33
45424a524e4c310a010000000000000010000000006553f1000001090000000171010000000000000010000000006553f100000109000000017200|records|2|0
45424a524e4c310a000000000000000010000000006553f100000109000000017100|records|0|0
45424a524e4c310a020000000000000010000000006553f100000109000000017100|records|0|0
45424a524e4c310a010000000000000010000000006553f100000109000000017100ffffffffffffffffff|records|1|0
45424a524e4c310a0100|damaged|1|8
45424a524e4c310a010000000000000016000000006553f10000010f00000000000000010001f700|damaged|1|8
45424a524e4c310a010000000000000016000000006553f10000010f000000000000000100000000|damaged|1|8
";

/// Three appends to an empty journal, each of the creation of one more queue: which call of the disk fails (0: none), how many calls were made
/// before the crash, how it tears each write since the last sync (`old`: nothing of it is there; `new`: all; `ones`: each byte is ff;
/// `open`: each is 1; a number: so many of its bytes are there), and how many records are found then. Opening makes the calls 1 to 4, the
/// appends 5 to 8, 9 to 12 and 13 to 16: the records are written, synced, the gate is opened, synced.
const CRASHES: &str = "0|5|old|0
0|5|new|0
0|5|ones|0
0|5|open|0
0|5|1|0
0|5|24|0
0|6|old|0
0|6|ones|0
0|7|old|0
0|7|new|1
0|7|ones|0
0|7|open|1
0|8|old|1
0|8|ones|1
0|9|new|1
0|9|open|1
0|12|old|2
0|16|ones|3
13|13|old|2
13|13|new|2
13|13|ones|2
13|13|open|2
14|13|open|2
14|14|old|2
14|14|new|2
14|14|ones|2
14|14|open|2
14|14|9|2
15|15|old|2
15|15|new|3
16|14|open|2
16|15|old|2
16|15|new|3
16|16|old|2
16|16|new|3
16|16|ones|2
16|16|open|3
";

/// A file without a record.
const BEGUN: [u8; 9] = *b"EBJRNL1\n\0";

/// Whether this is found, or refused so.
fn is_so(found: &Result<Found, JournalFault>, word: &str, first: u64, second: u64) -> bool {
    match found {
        Ok(found) => (word == "records") & (found.tables.batches() == first),
        Err(fault) => is_refused_so(*fault, word, first, second),
    }
}

fn is_refused_so(fault: JournalFault, word: &str, first: u64, second: u64) -> bool {
    match fault {
        JournalFault::NotOurs => word == "other",
        JournalFault::Damaged { place, byte } => {
            (word == "damaged") & (place == first) & (byte == second)
        }
        JournalFault::Failed | JournalFault::NoMemory => false,
    }
}

/// The file of a row, the word of its result, and the numbers.
fn parts(alloc: Global, row: &str) -> Result<(Vec<u8>, &str, u64, u64), Fail> {
    let (rest, second) = last(row);
    let (rest, first) = last(rest);
    let (digits, word) = last(rest);
    let spelled = bytes(alloc, digits)?;
    let file = spelled.as_slice().to_vec(alloc)?;
    Ok((file, word, first.parse::<u64>()?, second.parse::<u64>()?))
}

/// A disk with this file.
pub(crate) fn disk_of(alloc: Global, file: &[u8]) -> Result<MemoryDisk, Fail>
    ensures { IfOk result (λ disk. disk.calls ≡ []) }
{
    match MemoryDisk::new(alloc, file, Vec::new(alloc)) {
        Ok(disk) => Ok(disk),
        Err(_) => Err(Fail::new("out of memory")),
    }
}

/// The file is read so, and is not changed.
fn is_inspected(alloc: Global, row: &str) -> Result<bool, Fail> {
    let (file, word, first, second) = parts(alloc, row)?;
    let mut disk = disk_of(alloc, &file)?;
    let found = inspect(alloc, &mut disk);
    Ok(is_so(&found, word, first, second) & (disk.bytes() == file.as_slice()))
}

#[test]
fn each_file_is_a_journal_or_refused(rt: HostRuntime) -> Result<(), Fail> {
    all_met(rt.alloc(), FILES, 21, is_inspected)
}

/// Opens the journal on the disk.
fn opened(alloc: Global, disk: MemoryDisk) -> (MemoryDisk, Result<Found, JournalFault>)
    requires { disk.calls ≡ [] }
{
    match Journal::recover(alloc, disk) {
        Ok((journal, found)) => (journal.into_disk(), Ok(found)),
        Err((fault, disk)) => (disk, Err(fault)),
    }
}

/// The file is opened so. It is not changed, but one of at most nine bytes is begun.
fn is_opened(alloc: Global, row: &str) -> Result<bool, Fail> {
    let (file, word, first, second) = parts(alloc, row)?;
    let (disk, found) = opened(alloc, disk_of(alloc, &file)?);
    let is_kept = if file.len() <= 9 {
        disk.bytes() == BEGUN.as_slice()
    } else {
        disk.bytes() == file.as_slice()
    };
    Ok(is_so(&found, word, first, second) & is_kept)
}

#[test]
fn a_journal_is_opened_as_it_is_read(rt: HostRuntime) -> Result<(), Fail> {
    all_met(rt.alloc(), FILES, 21, is_opened)
}

/// The payload of the batch that creates a queue.
fn creation(alloc: Global, queue: &str) -> Result<Text, Fail>
    ensures { IfOk result (λ text. 0 < length text) }
{
    let payload = bytes(alloc, queue)?;
    let mut text = Text::new(alloc);
    match text.add(payload.as_slice()) {
        Ok(()) => Ok(text),
        Err(_) => Err(Fail::new("out of memory")),
    }
}

/// A disk whose call of this number fails; 0: none.
fn failing(alloc: Global, call: usize) -> Result<MemoryDisk, Fail>
    ensures { IfOk result (λ disk. disk.calls ≡ []) }
{
    let mut plan = Vec::new(alloc);
    plan.resize(call.saturating_sub(1), false)?;
    plan.push(true)?;
    if call == 0 {
        plan.clear();
    }
    match MemoryDisk::new(alloc, &[], plan) {
        Ok(disk) => Ok(disk),
        Err(_) => Err(Fail::new("out of memory")),
    }
}

/// The disk after three appends to an empty journal, whose call of this number fails.
fn appended(alloc: Global, call: usize) -> Result<MemoryDisk, Fail> {
    let disk = failing(alloc, call)?;
    let first = creation(alloc, "000000006553f1000001090000000171")?;
    let second = creation(alloc, "000000006553f1000001090000000172")?;
    let third = creation(alloc, "000000006553f1000001090000000173")?;
    match Journal::recover(alloc, disk) {
        Ok((journal, _found)) => Ok(appended_all(journal, &first, &second, &third)),
        Err((_fault, _disk)) => Err(Fail::new("it is not opened")),
    }
}

fn appended_all(
    mut journal: Journal<MemoryDisk>,
    first: &Text,
    second: &Text,
    third: &Text,
) -> MemoryDisk
    requires first { 0 < length first.now }
    requires second { 0 < length second.now }
    requires third { 0 < length third.now }
    requires sound { IsSound ⟦<MemoryDisk as Disk>⟧.calls journal.file }
{
    let _first = journal.file.append(first.bytes(), first.payloads());
    let _second = journal.file.append(second.bytes(), second.payloads());
    let _third = journal.file.append(third.bytes(), third.payloads());
    journal.into_disk()
}

/// How a crash tears each write, by the word of a row.
fn tear(word: &str) -> Result<Tear, Fail> {
    Ok(match word {
        "old" => Tear {
            front: 0,
            rest: None,
        },
        "new" => Tear {
            front: usize::MAX,
            rest: None,
        },
        "ones" => Tear {
            front: 0,
            rest: Some(255),
        },
        "open" => Tear {
            front: 0,
            rest: Some(1),
        },
        front => Tear {
            front: front.parse::<usize>()?,
            rest: None,
        },
    })
}

/// What a crash leaves is read with so many records.
fn is_found_after(alloc: Global, row: &str) -> Result<bool, Fail> {
    let (row, records) = last(row);
    let (call, calls, word) = three(row);
    let disk = appended(alloc, call.parse::<usize>()?)?;
    match disk.image(calls.parse::<usize>()?, tear(word)?) {
        Some(image) => has_records(alloc, &image, records),
        None => Err(Fail::new("there are fewer calls")),
    }
}

fn has_records(alloc: Global, file: &[u8], records: &str) -> Result<bool, Fail> {
    let mut disk = disk_of(alloc, file)?;
    let found = inspect(alloc, &mut disk);
    Ok(is_so(&found, "records", records.parse::<u64>()?, 0))
}

#[test]
fn a_crash_leaves_an_append_whole_or_missing(rt: HostRuntime) -> Result<(), Fail> {
    all_met(rt.alloc(), CRASHES, 37, is_found_after)
}

/// The first append makes the first file of `FILES`.
#[test]
fn an_append_has_its_bytes(rt: HostRuntime) -> Result<(), Fail> {
    let alloc = rt.alloc();
    let disk = appended(alloc, 0)?;
    let whole = Tear {
        front: 0,
        rest: None,
    };
    let file = disk.image(8, whole).expect(&rt, "an image");
    let wanted = bytes(
        alloc,
        "45424a524e4c310a010000000000000010000000006553f100000109000000017100",
    )?;
    assert!(rt; file.as_slice() == wanted.as_slice());
    Ok(())
}
