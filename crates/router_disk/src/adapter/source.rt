// A source over a reader, as the standard input.
ghost use Rattle.std.specs.Io.{ReadsAtMost};
ghost use Rattle.std.specs.Io.KnownBytes.{ReadConsumes};

use crate::fault::fail;
use crate::{Failed, Pieces, Source};
use std::io::{ErrorKind, Read};

/// A source that reads from a reader, and reads again if interrupted. Its contract shows what each read gave, and the bytes left that the
/// reader's contract shows.
#[derive(Drop)]
pub struct ReaderSource<R> {
    reader: R,
    gave: Pieces,
    faults: u64,
}

impl<R: Read + Send> ReaderSource<R> {
    ghost use Rattle.std.specs.Prelude.{◌≡◌, []};

    /// A source over `reader`, which has given nothing and has no fault yet.
    pub fn new(reader: R) -> Self
        ensures left { ⟦<ReaderSource<R> as Source>⟧.left result ≡ R.remaining reader }
        ensures gave { ⟦<ReaderSource<R> as Source>⟧.gave result ≡ [] }
        ensures faults { ⟦<ReaderSource<R> as Source>⟧.faults result ≡ 0 }
    {
        ReaderSource {
            reader,
            gave: Pieces::new(),
            faults: 0,
        }
    }
}

impl<R: Read + Send> Source for ReaderSource<R> {
    ghost left = { λ s. R.remaining s.reader };

    ghost gave = { λ s. s.gave };

    ghost faults = { λ s. s.faults };

    fn faults(&self) -> u64 {
        self.faults
    }

    fn read(&mut self, buf: &mut [u8]) -> Result<usize, Failed> {
        if self.faults == u64::MAX {
            return Err(Failed);
        }
        match read_on(&mut self.reader, buf) {
            Ok(count) => {
                self.gave.hear(&buf[..count]);
                Ok(count)
            }
            Err(Failed) => fail(&mut self.faults),
        }
    }
}

// Reads again each time that the read is interrupted.
fn read_on<R: Read>(reader: &mut R, buf: &mut [u8]) -> Result<usize, Failed>
    ensures within { ReadsAtMost result buf.new }
    ensures bytes { ReadConsumes (R.remaining reader.old) (R.remaining reader.new) result buf.new }
{
    for _ in 0..u64::MAX {
        match reader.read(buf) {
            Ok(count) => return Ok(count),
            Err(fault) if fault.kind() == ErrorKind::Interrupted => {}
            Err(_) => break,
        }
    }
    Err(Failed)
}
