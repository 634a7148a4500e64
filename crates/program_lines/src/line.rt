//! A line that takes no memory.
ghost use Rattle.std.specs.Prelude.{◌≡◌, ◌+◌, ◌≤◌, ◌++◌, [], length, decimal};
ghost use Rattle.program_lines.specs.Status.{damaged_text};

use itoa::Buffer;
use std::marker::Model;

/// The most bytes of a line.
const MOST: usize = 128;

/// A line for standard error, of at most 128 bytes.
#[derive(Drop)]
pub struct Line {
    bytes: [u8; MOST],
    len: usize,
}

impl Model for Line {
    ghost use Rattle.std.specs.Prelude.{ℕ, ◌≤◌, List, take};

    ghost Value = { List ℕ };

    ghost view = { λ l. take l.len l.bytes };

    ghost invariant = { λ l. l.len ≤ 128 };
}

impl Line {
    /// The bytes.
    pub fn as_slice(&self) -> &[u8]
        ensures { result.now ≡ self.now }
    {
        &self.bytes[..self.len]
    }

    /// A line of these bytes.
    pub(crate) fn of(bytes: &[u8]) -> Line
        requires { length bytes.now ≤ 128 }
        ensures { result ≡ bytes.now }
    {
        let mut line = Line {
            bytes: [0; MOST],
            len: 0,
        };
        line.add(bytes);
        line
    }

    fn add(&mut self, more: &[u8])
        requires { length self.old + length more.now ≤ 128 }
        ensures { self.new ≡ self.old ++ more.now }
    {
        let end = self.len + more.len();
        self.bytes[self.len..end].copy_from_slice(more);
        self.len = end;
    }

    /// Adds a text, and a number after it.
    fn add_number(&mut self, text: &[u8], number: u64)
        requires { length self.old + length text.now + 40 ≤ 128 }
        ensures added { self.new ≡ self.old ++ (text.now ++ decimal number) }
        ensures few { length self.new ≤ length self.old + length text.now + 40 }
    {
        self.add(text);
        self.add(Buffer::new().format(number).as_bytes());
    }
}

/// The line of a damaged journal.
pub(crate) fn damaged_line(place: u64, byte: u64) -> Line
    ensures { result ≡ damaged_text place byte }
{
    let mut line = Line::of(b"");
    line.add_number(b"ebusd: journal damaged at record ", place);
    line.add_number(b", byte ", byte);
    line.add(b"\n");
    line
}
