// A sink over a writer, as the standard output.
ghost use Rattle.std.specs.Io.KnownBytes.{Keeps};
ghost use Rattle.router_disk.specs.Sink.{WritesBoth};

use crate::fault::fail;
use crate::{Failed, Heard, Sink};
use std::io::{ErrorKind, Write};

/// A sink that writes to a writer, tries again if interrupted, and flushes after each write. Its contract shows the bytes that it wrote;
/// they are those that were appended to the writer's, if the writer's contract shows these.
#[derive(Drop)]
pub struct WriterSink<W> {
    writer: W,
    wrote: Heard,
    faults: u64,
}

impl<W: Write + Send> WriterSink<W> {
    ghost use Rattle.std.specs.Prelude.{◌≡◌, []};

    /// A sink over `writer`, which has written nothing and has no fault yet.
    pub fn new(writer: W) -> Self
        ensures written { ⟦<WriterSink<W> as Sink>⟧.written result ≡ W.contents writer }
        ensures wrote { ⟦<WriterSink<W> as Sink>⟧.wrote result ≡ [] }
        ensures faults { ⟦<WriterSink<W> as Sink>⟧.faults result ≡ 0 }
    {
        WriterSink {
            writer,
            wrote: Heard::new(),
            faults: 0,
        }
    }
}

impl<W: Write + Send> Sink for WriterSink<W> {
    ghost use Rattle.router_disk.specs.Faults.{CountsFaults};
    ghost use Rattle.router_disk.specs.Sink.{AddsBytes, WritesAll, WritesBoth};

    ghost written = { λ s. W.contents s.writer };

    ghost wrote = { λ s. s.wrote };

    ghost faults = { λ s. s.faults };

    fn faults(&self) -> u64 {
        self.faults
    }

    fn write_all(&mut self, bytes: &[u8]) -> Result<(), Failed>
        ensures bytes { WritesAll (W.contents self.old.writer) (W.contents self.new.writer) result bytes.now }
        ensures wrote { AddsBytes self.old.wrote self.new.wrote result bytes.now }
        ensures count { CountsFaults self.old.faults self.new.faults result }

        ensures both { WritesBoth (W.contents self.old.writer) (W.contents self.new.writer) self.old.wrote self.new.wrote result bytes.now }
    {
        if self.faults == u64::MAX {
            return Err(Failed);
        }
        match write_on(&mut self.writer, &mut self.wrote, bytes) {
            Ok(()) => Ok(()),
            Err(Failed) => fail(&mut self.faults),
        }
    }
}

// Writes until all is written, and flushes. The loop is not std's, because the contract of std's does not say what was
// written before a failure.
fn write_on<W: Write>(writer: &mut W, wrote: &mut Heard, bytes: &[u8]) -> Result<(), Failed>
    ensures { WritesBoth (W.contents writer.old) (W.contents writer.new) wrote.old wrote.new result bytes.now }
{
    let mut rest = bytes;
    for _ in 0..u64::MAX {
        if rest.is_empty() {
            return flush(writer);
        }
        match writer.write(rest) {
            Ok(0) => break,
            Ok(count) => {
                wrote.hear(&rest[..count]);
                rest = &rest[count..]
            }
            Err(fault) if fault.kind() == ErrorKind::Interrupted => {}
            Err(_) => break,
        }
    }
    Err(Failed)
}

fn flush<W: Write>(writer: &mut W) -> Result<(), Failed>
    ensures { Keeps (W.contents writer.old) (W.contents writer.new) }
{
    for _ in 0..u64::MAX {
        match writer.flush() {
            Ok(()) => return Ok(()),
            Err(fault) if fault.kind() == ErrorKind::Interrupted => {}
            Err(_) => break,
        }
    }
    Err(Failed)
}
