//! Lines that the program prints on its output while it serves connections.
ghost use Rattle.std.specs.Prelude.{◌≡◌, ◌++◌, IfOk, OnOk, decimal};
ghost use Rattle.program_lines.specs.Printed.{listening_text, summary_lines};
ghost use Rattle.program_lines.specs.Printed.{record_line, event_line, duty_line, message_line, counts_line, ended_counts};

use itoa::Buffer;
use json_text::{Bytes, NoMemory};
use std::alloc::Global;

/// What the program counted when it ended.
#[derive(Clone, Copy, Debug, PartialEq, Eq)]
pub struct Summary {
    /// Batches.
    pub records: u64,
    /// Parts of batches.
    pub entries: u64,
    /// Configuration changes.
    pub control: u64,
    /// Accepted events.
    pub events: u64,
    /// Events in archives, one for each archive that has it.
    pub archived: u64,
    /// Replays.
    pub replays: u64,
    /// Deliveries, in any state. The four that follow are those in each state.
    pub duties: u64,
    pub pending: u64,
    pub delivered: u64,
    pub dead_lettered: u64,
    pub dropped: u64,
    /// Messages in all queues.
    pub messages: u64,
}

/// `listening`, the port, and a line feed.
pub fn listening_line(alloc: Global, port: u16) -> Result<Bytes, NoMemory>
    ensures { IfOk result (λ b. b ≡ listening_text port) }
{
    let mut out = Bytes::new(alloc);
    put(&mut out, b"listening ", u64::from(port))?;
    out.extend(b"\n")?;
    Ok(out)
}

/// The four lines of the summary, each with its line feed.
pub fn summary_text(alloc: Global, s: &Summary) -> Result<Bytes, NoMemory>
    ensures { IfOk result (λ b. b ≡ summary_lines s.now) }
{
    let mut out = Bytes::new(alloc);
    put_records(&mut out, s)?;
    put_events(&mut out, s)?;
    put_duties(&mut out, s)?;
    put_messages(&mut out, s)?;
    Ok(out)
}

fn put_records(out: &mut Bytes, s: &Summary) -> Result<(), NoMemory>
    ensures { OnOk result (out.new ≡ out.old ++ record_line s.now) }
{
    put(out, b"records ", s.records)?;
    put(out, b" entries ", s.entries)?;
    put(out, b" control ", s.control)?;
    out.extend(b"\n")
}

fn put_events(out: &mut Bytes, s: &Summary) -> Result<(), NoMemory>
    ensures { OnOk result (out.new ≡ out.old ++ event_line s.now) }
{
    put(out, b"events ", s.events)?;
    put(out, b" archived ", s.archived)?;
    put(out, b" replays ", s.replays)?;
    out.extend(b"\n")
}

fn put_duties(out: &mut Bytes, s: &Summary) -> Result<(), NoMemory>
    ensures { OnOk result (out.new ≡ out.old ++ duty_line s.now) }
{
    put(out, b"duties ", s.duties)?;
    put(out, b" pending ", s.pending)?;
    put_ended(out, s)
}

fn put_ended(out: &mut Bytes, s: &Summary) -> Result<(), NoMemory>
    ensures { OnOk result (out.new ≡ out.old ++ counts_line (ended_counts s.now)) }
{
    put(out, b" delivered ", s.delivered)?;
    put(out, b" dead-lettered ", s.dead_lettered)?;
    put(out, b" dropped ", s.dropped)?;
    out.extend(b"\n")
}

fn put_messages(out: &mut Bytes, s: &Summary) -> Result<(), NoMemory>
    ensures { OnOk result (out.new ≡ out.old ++ message_line s.now) }
{
    put(out, b"messages ", s.messages)?;
    out.extend(b"\n")
}

/// Adds a word and the number after it.
fn put(out: &mut Bytes, word: &[u8], number: u64) -> Result<(), NoMemory>
    ensures { OnOk result (out.new ≡ out.old ++ (word.now ++ decimal number)) }
{
    out.extend(word)?;
    out.extend(Buffer::new().format(number).as_bytes())
}
