//! The lines that the program prints, and its workers. The rows are worked by hand. No clause says that the two writers succeed if memory
//! is available.
use program_lines::{Status, Summary, fitting_workers, listening_line, summary_text};
use std::alloc::Global;
use std::test::Fail;
use test_rows::{all_met, two};

// How many files may be open, how many workers are asked for, and how many there are.
const FITTING: &str = "256|1024|108
2088|1024|1024
2087|1024|1023
43|5|1
42|5|1
0|5|1
18446744073709551615|1|1
";

fn is_fitting(alloc: Global, row: &str) -> Result<bool, Fail> {
    let (files, rest) = two(row);
    let (asked, want) = two(rest);
    let fitting = fitting_workers(files.parse::<u64>()?, asked.parse::<u16>()?);
    Ok(format!(in alloc; "{fitting}")?.as_str() == want)
}

#[test]
fn few_files_are_for_fewer_workers(rt: HostRuntime) -> Result<(), Fail> {
    all_met(rt.alloc(), FITTING, 7, is_fitting)
}

#[test]
fn the_port_is_printed(rt: HostRuntime) -> Result<(), Fail> {
    let line = listening_line(rt.alloc(), 9100)?;
    assert_eq!(rt; line.as_slice(), b"listening 9100\n".as_slice());
    let last = listening_line(rt.alloc(), 65_535)?;
    assert_eq!(rt; last.as_slice(), b"listening 65535\n".as_slice());
    Ok(())
}

const SMALL_TEXT: &[u8] = b"records 1 entries 2 control 0
events 3 archived 4 replays 5
duties 26 pending 8 delivered 7 dead-lettered 6 dropped 10
messages 9
";

const GREATEST_TEXT: &[u8] =
    b"records 18446744073709551615 entries 18446744073709551615 control 18446744073709551615
events 18446744073709551615 archived 18446744073709551615 replays 18446744073709551615
duties 18446744073709551615 pending 18446744073709551615 delivered 18446744073709551615 \
dead-lettered 18446744073709551615 dropped 18446744073709551615
messages 18446744073709551615
";

// The summary of these numbers, in the order in which they are printed.
fn summary(numbers: [u64; 12]) -> Summary {
    Summary {
        records: numbers[0],
        entries: numbers[1],
        control: numbers[2],
        events: numbers[3],
        archived: numbers[4],
        replays: numbers[5],
        duties: numbers[6],
        pending: numbers[7],
        delivered: numbers[8],
        dead_lettered: numbers[9],
        dropped: numbers[10],
        messages: numbers[11],
    }
}

#[test]
fn the_summary_has_its_lines(rt: HostRuntime) -> Result<(), Fail> {
    let small = summary([1, 2, 0, 3, 4, 5, 26, 8, 7, 6, 10, 9]);
    assert_eq!(rt; summary_text(rt.alloc(), &small)?.as_slice(), SMALL_TEXT);
    let greatest = summary([u64::MAX; 12]);
    assert_eq!(rt;
        summary_text(rt.alloc(), &greatest)?.as_slice(),
        GREATEST_TEXT
    );
    Ok(())
}

/// The place of a record, the byte of its gate, and the line that reports that a journal is damaged there.
const DAMAGED: &str = "1|8|ebusd: journal damaged at record 1, byte 8
2|33|ebusd: journal damaged at record 2, byte 33
18446744073709551615|18446744073709551615|ebusd: journal damaged at record 18446744073709551615, byte 18446744073709551615
";

/// The status 6 has this line, with a line feed.
fn is_reported(_alloc: Global, row: &str) -> Result<bool, Fail> {
    let (place, rest) = two(row);
    let (byte, wanted) = two(rest);
    let place = place.parse::<u64>()?;
    let byte = byte.parse::<u64>()?;
    let status = Status::Damaged { place, byte };
    let line = status.line();
    let text = str::from_utf8(line.as_slice())?;
    Ok((status.code() == 6) & (text.trim_end() == wanted) & (text.len() == wanted.len() + 1))
}

#[test]
fn a_damaged_journal_is_reported(rt: HostRuntime) -> Result<(), Fail> {
    all_met(rt.alloc(), DAMAGED, 3, is_reported)
}
