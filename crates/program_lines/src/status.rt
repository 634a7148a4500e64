//! How the program ended.
ghost use Rattle.std.specs.Prelude.{◌≡◌};
ghost use Rattle.program_lines.specs.Status.{code_of, fault_line};

use crate::line::{Line, damaged_line};

/// How the program ended.
#[derive(Clone, Copy, Debug, PartialEq, Eq)]
pub enum Status {
    /// The input was read to its end between messages, or to a message that closes.
    Done,
    /// The arguments are no command.
    Usage,
    /// The input failed.
    ReadFault,
    /// The output failed.
    WriteFault,
    /// A call of the journal's disk failed, or the host could not open it.
    DiskFault,
    /// The journal's file has another header.
    NotOurs,
    /// The journal is damaged: the record's place, counted from 1, and the byte of its gate.
    Damaged { place: u64, byte: u64 },
    /// Out of memory.
    NoMemory,
    /// The host could not give a link or a door, or the door failed.
    DoorFault,
    /// The input ended inside a message.
    Cut,
    /// The request limit of a session is reached.
    Long,
    /// A message was refused. The rest is unread.
    Refused,
}

impl Status {
    /// The exit status of the process.
    pub fn code(self) -> u8
        ensures { result ≡ code_of self }
    {
        match self {
            Status::Done => 0,
            Status::Usage => 2,
            Status::ReadFault => 3,
            Status::WriteFault => 4,
            Status::DiskFault => 5,
            Status::NotOurs => 6,
            Status::Damaged { place: _, byte: _ } => 6,
            Status::NoMemory => 7,
            Status::DoorFault => 8,
            Status::Cut => 9,
            Status::Long => 10,
            Status::Refused => 11,
        }
    }

    /// The line for standard error that reports the status, with its line feed. Empty for `Done`. It takes no memory.
    pub fn line(self) -> Line
        ensures { result ≡ fault_line self }
    {
        match self {
            Status::Done => Line::of(b""),
            Status::Usage => Line::of(b"ebusd: bad arguments\n"),
            Status::ReadFault => Line::of(b"ebusd: input failed\n"),
            Status::WriteFault => Line::of(b"ebusd: output failed\n"),
            Status::DiskFault => Line::of(b"ebusd: disk failed\n"),
            Status::NotOurs => Line::of(b"ebusd: not a journal\n"),
            Status::Damaged { place, byte } => damaged_line(place, byte),
            Status::NoMemory => Line::of(b"ebusd: out of memory\n"),
            Status::DoorFault => Line::of(b"ebusd: door failed\n"),
            Status::Cut => Line::of(b"ebusd: input ended inside a message\n"),
            Status::Long => Line::of(b"ebusd: request limit reached\n"),
            Status::Refused => Line::of(b"ebusd: message refused\n"),
        }
    }
}
