// A call of a disk with its answer, and the calls that a disk shows. Only contracts see them, and they take no memory.
ghost use Rattle.std.specs.Prelude.{◌≡◌, ◌++◌, ◌∷◌, [], map};

use crate::{Failed, Heard};
use http_server::Log;
use std::marker::Model;

/// A call of a disk with its answer. The bytes of a read that failed mean nothing; their number is what was asked for.
#[derive(Drop)]
pub enum DiskCall {
    /// The length in bytes.
    Size(Result<u64, Failed>),
    /// A place, and the bytes from there on.
    Read(u64, Heard, Result<(), Failed>),
    /// A place, and the bytes to be written there.
    Write(u64, Heard, Result<(), Failed>),
    /// The length to which the file is cut.
    Cut(u64, Result<(), Failed>),
    Sync(Result<(), Failed>),
}

/// The calls of a disk so far, in order.
#[derive(Drop)]
pub struct DiskCalls {
    log: Log<DiskCall, ()>,
}

impl Model for DiskCalls {
    ghost use Rattle.std.specs.Prelude.{List, map};
    ghost use Rattle.router_disk.specs.declared.disk_call.DiskCall.{DiskCall};

    ghost Value = { List DiskCall };

    ghost view = { λ c. map (λ pair. pair.0) c.log.items };
}

impl DiskCalls {
    /// No call yet.
    pub fn new() -> DiskCalls
        ensures { result ≡ [] }
    {
        DiskCalls { log: Log::new() }
    }

    /// Adds a call for the length.
    pub fn size(&mut self, answer: Result<u64, Failed>)
        ensures { self.new ≡ self.old ++ DiskCall.Size answer ∷ [] }
    {
        self.log = self.log.and(&DiskCall::Size(answer), &());
    }

    /// Adds a read, by the buffer after it.
    pub fn read(&mut self, at: u64, bytes: &[u8], answer: Result<(), Failed>)
        ensures { self.new ≡ self.old ++ DiskCall.Read at bytes.now answer ∷ [] }
    {
        let call = DiskCall::Read(at, heard(bytes), answer);
        self.log = self.log.and(&call, &());
    }

    /// Adds a write.
    pub fn write_at(&mut self, at: u64, bytes: &[u8], answer: Result<(), Failed>)
        ensures { self.new ≡ self.old ++ DiskCall.Write at bytes.now answer ∷ [] }
    {
        let call = DiskCall::Write(at, heard(bytes), answer);
        self.log = self.log.and(&call, &());
    }

    /// Adds a cut.
    pub fn cut(&mut self, len: u64, answer: Result<(), Failed>)
        ensures { self.new ≡ self.old ++ DiskCall.Cut len answer ∷ [] }
    {
        self.log = self.log.and(&DiskCall::Cut(len, answer), &());
    }

    /// Adds a sync.
    pub fn sync(&mut self, answer: Result<(), Failed>)
        ensures { self.new ≡ self.old ++ DiskCall.Sync answer ∷ [] }
    {
        self.log = self.log.and(&DiskCall::Sync(answer), &());
    }
}

fn heard(bytes: &[u8]) -> Heard
    ensures { result ≡ bytes.now }
{
    let mut heard = Heard::new();
    heard.hear(bytes);
    heard
}
