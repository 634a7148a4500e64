// The calls of a disk in memory, with their bytes.
ghost use Rattle.std.specs.Prelude.{◌≡◌, [], ◌∷◌, ◌++◌, ℕ, List, IfOk, IfSome, IsOkAnd, IsTrue, false, true, map, take};
ghost use Rattle.router_disk.specs.declared.disk_call.DiskCall.TheVariants as disk_calls;
ghost use Rattle.memory_disk.specs.Tape.{call_of};

use router_disk::{DiskCalls, Failed};
use std::alloc::{AllocError, Global};
use std::marker::Model;

// A call with its bytes and its answer.
#[derive(Drop)]
pub enum Kept {
    Size(Result<u64, Failed>),
    Read(u64, Vec<u8>, Result<(), Failed>),
    Write(u64, Vec<u8>, Result<(), Failed>),
    Cut(u64, Result<(), Failed>),
    Sync(Result<(), Failed>),
}

// The calls so far: those that are kept, and then, once memory was refused, those that only contracts see.
#[derive(Drop)]
pub struct Tape {
    alloc: Global,
    kept: Vec<Kept>,
    whole: bool,
    lost: DiskCalls,
}

impl Model for Tape {
    ghost use Rattle.std.specs.Prelude.{◌≡◌, [], ◌++◌, List, map, true};
    ghost use Rattle.router_disk.specs.declared.disk_call.DiskCall.{DiskCall};

    ghost Value = { List DiskCall };

    ghost use Rattle.memory_disk.specs.Tape.{call_of};

    ghost view = { λ t. map call_of t.kept.items ++ t.lost };

    ghost invariant = { λ t. t.whole ≡ true → t.lost ≡ [] };
}

impl Tape {
    // No call yet.
    pub(crate) fn new(alloc: Global) -> Tape
        ensures { result ≡ [] }
    {
        Tape {
            alloc,
            kept: Vec::new(alloc),
            whole: true,
            lost: DiskCalls::new(),
        }
    }

    // The first `calls` calls. `None` if fewer are kept.
    pub(crate) fn front(&self, calls: usize) -> Option<&[Kept]>
        ensures { IfSome result (λ kept. map call_of kept.now ≡ take calls self.now) }
    {
        if calls > self.kept.len() {
            return None;
        }
        Some(&self.kept.as_slice()[..calls])
    }

    // Adds a call for the length.
    pub(crate) fn size(&mut self, answer: Result<u64, Failed>)
        ensures { self.new ≡ self.old ++ disk_calls.Size answer ∷ [] }
    {
        self.whole = keep(&mut self.kept, self.whole, Ok(Kept::Size(answer)));
        if self.whole {
            return;
        }
        self.lost.size(answer);
    }

    // Adds a read, by the buffer after it.
    pub(crate) fn read(&mut self, at: u64, bytes: &[u8], answer: Result<(), Failed>)
        ensures { self.new ≡ self.old ++ disk_calls.Read at bytes.now answer ∷ [] }
    {
        let call = read_call(self.alloc, at, bytes, answer);
        self.whole = keep(&mut self.kept, self.whole, call);
        if self.whole {
            return;
        }
        self.lost.read(at, bytes, answer);
    }

    // Adds a write.
    pub(crate) fn write_at(&mut self, at: u64, bytes: &[u8], answer: Result<(), Failed>)
        ensures { self.new ≡ self.old ++ disk_calls.Write at bytes.now answer ∷ [] }
    {
        let call = write_call(self.alloc, at, bytes, answer);
        self.whole = keep(&mut self.kept, self.whole, call);
        if self.whole {
            return;
        }
        self.lost.write_at(at, bytes, answer);
    }

    // Adds a cut.
    pub(crate) fn cut(&mut self, len: u64, answer: Result<(), Failed>)
        ensures { self.new ≡ self.old ++ disk_calls.Cut len answer ∷ [] }
    {
        self.whole = keep(&mut self.kept, self.whole, Ok(Kept::Cut(len, answer)));
        if self.whole {
            return;
        }
        self.lost.cut(len, answer);
    }

    // Adds a sync.
    pub(crate) fn sync(&mut self, answer: Result<(), Failed>)
        ensures { self.new ≡ self.old ++ disk_calls.Sync answer ∷ [] }
    {
        self.whole = keep(&mut self.kept, self.whole, Ok(Kept::Sync(answer)));
        if self.whole {
            return;
        }
        self.lost.sync(answer);
    }
}

fn read_call(
    alloc: Global,
    at: u64,
    bytes: &[u8],
    answer: Result<(), Failed>,
) -> Result<Kept, AllocError>
    ensures { IfOk result (λ call. call_of call ≡ disk_calls.Read at bytes.now answer) }
{
    Ok(Kept::Read(at, bytes.to_vec(alloc)?, answer))
}

fn write_call(
    alloc: Global,
    at: u64,
    bytes: &[u8],
    answer: Result<(), Failed>,
) -> Result<Kept, AllocError>
    ensures { IfOk result (λ call. call_of call ≡ disk_calls.Write at bytes.now answer) }
{
    Ok(Kept::Write(at, bytes.to_vec(alloc)?, answer))
}

// Keeps a call, if all calls before it are kept. Returns whether it is kept.
fn keep(kept: &mut Vec<Kept>, whole: bool, call: Result<Kept, AllocError>) -> bool
    ensures yes { IsTrue result → IsTrue whole × IsOkAnd call (λ one. kept.new.items ≡ kept.old.items ++ one ∷ []) }
    ensures no { result ≡ false → kept.new.items ≡ kept.old.items }
{
    if !whole {
        return false;
    }
    match call {
        Ok(call) => match kept.push(call) {
            Ok(()) => true,
            Err(_) => false,
        },
        Err(_) => false,
    }
}
