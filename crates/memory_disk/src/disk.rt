// A disk in memory, with its plan of failures.
ghost use Rattle.std.specs.Prelude.{◌≡◌, [], ◌∷◌, ◌++◌, ◌+◌, ◌^◌, ◌<◌, ◌≤◌, length, take, drop, slice_index_or, true, false, IfOk, IfSome, IsErr, IsOk, IsTrue, OnOk, OnErr};
ghost use Rattle.router_disk.specs.Faults.{last_count};
ghost use Rattle.router_disk.specs.Disk.{overwritten};

use crate::image::{Tear, left_by};
use crate::overwrite::overwrite;
use crate::tape::Tape;
use router_disk::{Disk, Failed, counted};
use std::alloc::{AllocError, Global};
use std::marker::Model;

/// A disk that holds the bytes of a file, and all calls. A call fails if that is planned, if the count of faults is at its last value, and if
/// it is out of memory; a read and a cut also if they reach past the end.
#[derive(Drop)]
pub struct MemoryDisk {
    alloc: Global,
    first: Vec<u8>,
    bytes: Vec<u8>,
    plan: Vec<bool>,
    tape: Tape,
    faults: u64,
}

impl Model for MemoryDisk {
    ghost use Rattle.memory_disk.specs.HeldDisk.{HeldDisk, Mirrors};

    ghost Value = { HeldDisk };

    ghost view = { λ d. record { first = d.first.items; calls = d.tape; plan = d.plan.items; faults = d.faults } };

    ghost invariant = { λ d. Mirrors d.first.items d.bytes.items d.tape };
}

impl MemoryDisk {
    ghost use Rattle.router_disk.specs.Disk.{AreAnswers, IsImage, file_of};

    /// A disk whose file has the bytes `first`, with no call yet. `plan` says of the calls to come, in order, whether they fail; later ones
    /// do not.
    pub fn new(alloc: Global, first: &[u8], plan: Vec<bool>) -> Result<Self, AllocError>
        ensures { IfOk result (λ d. d ≡ record { first = first.now; calls = []; plan = plan.items; faults = 0 }) }
    {
        let bytes = first.to_vec(alloc)?;
        let first = first.to_vec(alloc)?;
        Ok(MemoryDisk {
            alloc,
            first,
            bytes,
            plan,
            tape: Tape::new(alloc),
            faults: 0,
        })
    }

    /// The bytes of the file: what a read gives, if that is known. Its answers are those of the model, whatever calls were made.
    pub fn bytes(&self) -> &[u8]
        ensures known { IfSome (file_of self.now.first self.now.calls) (λ file. file ≡ result.now) }
        ensures answers { AreAnswers self.now.first self.now.calls }
    {
        &self.bytes
    }

    /// An image that a crash after the first `calls` calls, or during the last of them, may leave: each write since the last sync is torn so,
    /// and a cut since then is not on the disk. `None` if there are fewer calls, or memory is refused, now or for a call.
    pub fn image(&self, calls: usize, tear: Tear) -> Option<Vec<u8>>
        ensures { IfSome result (λ image. IsImage self.now.first (take calls self.now.calls) image.items) }
    {
        match self.tape.front(calls) {
            Some(kept) => match left_by(self.alloc, &self.first, kept, tear) {
                Ok(left) => Some(left.image),
                Err(_) => None,
            },
            None => None,
        }
    }
}

impl Disk for MemoryDisk {
    ghost use Rattle.router_disk.specs.declared.disk_call.DiskCall.TheVariants as disk_calls;
    ghost use Rattle.router_disk.specs.Faults.{CountsFaults};
    ghost use Rattle.memory_disk.specs.HeldDisk.{after_call};

    ghost calls = { λ d. d.calls };

    ghost faults = { λ d. d.faults };

    fn faults(&self) -> u64 {
        self.faults
    }

    fn size(&mut self) -> Result<u64, Failed>
        ensures call { self.new.calls ≡ self.old.calls ++ disk_calls.Size result ∷ [] }
        ensures count { CountsFaults self.old.faults self.new.faults result }
        ensures rest { self.new ≡ after_call self.old self.new.calls self.new.faults }
        ensures planned { slice_index_or self.old.plan 0 false ≡ true → IsErr result }
    {
        let fails = fails(&mut self.plan, self.faults);
        let answer = length_of(fails, &self.bytes);
        self.tape.size(answer);
        counted(&mut self.faults, answer)
    }

    fn read(&mut self, at: u64, into: &mut [u8]) -> Result<(), Failed>
        ensures call { self.new.calls ≡ self.old.calls ++ disk_calls.Read at into.new result ∷ [] }
        ensures count { CountsFaults self.old.faults self.new.faults result }
        ensures rest { self.new ≡ after_call self.old self.new.calls self.new.faults }
        ensures planned { slice_index_or self.old.plan 0 false ≡ true → IsErr result }
    {
        let fails = fails(&mut self.plan, self.faults);
        let answer = copy_out(fails, &self.bytes, at, into);
        self.tape.read(at, into, answer);
        counted(&mut self.faults, answer)
    }

    fn write_at(&mut self, at: u64, bytes: &[u8]) -> Result<(), Failed>
        ensures call { self.new.calls ≡ self.old.calls ++ disk_calls.Write at bytes.now result ∷ [] }
        ensures count { CountsFaults self.old.faults self.new.faults result }
        ensures rest { self.new ≡ after_call self.old self.new.calls self.new.faults }
        ensures planned { slice_index_or self.old.plan 0 false ≡ true → IsErr result }
    {
        let fails = fails(&mut self.plan, self.faults);
        let answer = write_over(self.alloc, fails, &mut self.bytes, at, bytes);
        self.tape.write_at(at, bytes, answer);
        counted(&mut self.faults, answer)
    }

    fn cut(&mut self, len: u64) -> Result<(), Failed>
        ensures call { self.new.calls ≡ self.old.calls ++ disk_calls.Cut len result ∷ [] }
        ensures count { CountsFaults self.old.faults self.new.faults result }
        ensures rest { self.new ≡ after_call self.old self.new.calls self.new.faults }
        ensures planned { slice_index_or self.old.plan 0 false ≡ true → IsErr result }
    {
        let fails = fails(&mut self.plan, self.faults);
        let answer = shorten(fails, &mut self.bytes, len);
        self.tape.cut(len, answer);
        counted(&mut self.faults, answer)
    }

    fn sync(&mut self) -> Result<(), Failed>
        ensures call { self.new.calls ≡ self.old.calls ++ disk_calls.Sync result ∷ [] }
        ensures count { CountsFaults self.old.faults self.new.faults result }
        ensures rest { self.new ≡ after_call self.old self.new.calls self.new.faults }
        ensures planned { slice_index_or self.old.plan 0 false ≡ true → IsErr result }
        ensures spared { slice_index_or self.old.plan 0 false ≡ false → self.old.faults < last_count → IsOk result }
    {
        let fails = fails(&mut self.plan, self.faults);
        let answer = if fails { Err(Failed) } else { Ok(()) };
        self.tape.sync(answer);
        counted(&mut self.faults, answer)
    }
}

// Whether the next call fails. It is taken from the plan.
fn fails(plan: &mut Vec<bool>, faults: u64) -> bool
    ensures plan { plan.new.items ≡ drop 1 plan.old.items }
    ensures planned { slice_index_or plan.old.items 0 false ≡ true → IsTrue result }
    ensures spent { faults ≡ last_count → IsTrue result }
    ensures spared { slice_index_or plan.old.items 0 false ≡ false → faults < last_count → result ≡ false }
{
    let is_planned = if plan.is_empty() {
        false
    } else {
        plan.remove(0)
    };
    is_planned | (faults == u64::MAX)
}

fn length_of(fails: bool, bytes: &[u8]) -> Result<u64, Failed>
    ensures ok { IfOk result (λ len. (len ≡ length bytes.now) × (len < 2 ^ 63)) }
    ensures fails { IsTrue fails → IsErr result }
{
    let len = bytes.len() as u64;
    if fails | (len >= 1 << 63) {
        return Err(Failed);
    }
    Ok(len)
}

fn copy_out(fails: bool, bytes: &[u8], at: u64, into: &mut [u8]) -> Result<(), Failed>
    ensures ok { OnOk result (into.new ≡ take (length into.new) (drop at bytes.now)) }
    ensures fails { IsTrue fails → IsErr result }
{
    let len = bytes.len() as u64;
    if fails | (at > len) {
        return Err(Failed);
    }
    if into.len() as u64 > len - at {
        return Err(Failed);
    }
    let from = at as usize;
    into.copy_from_slice(&bytes[from..from + into.len()]);
    Ok(())
}

fn write_over(
    alloc: Global,
    fails: bool,
    bytes: &mut Vec<u8>,
    at: u64,
    new: &[u8],
) -> Result<(), Failed>
    ensures ok { OnOk result ((bytes.new.items ≡ overwritten bytes.old.items at new.now) × (at + length new.now < 2 ^ 63)) }
    ensures fails { IsTrue fails → IsErr result }
{
    if fails {
        return Err(Failed);
    }
    match overwrite(alloc, bytes, at, new) {
        Ok(next) => {
            *bytes = next;
            Ok(())
        }
        Err(_) => Err(Failed),
    }
}

fn shorten(fails: bool, bytes: &mut Vec<u8>, len: u64) -> Result<(), Failed>
    ensures ok { OnOk result ((bytes.new.items ≡ take len bytes.old.items) × (len ≤ length bytes.old.items)) }
    ensures fails { IsTrue fails → IsErr result }
{
    if fails | (len > bytes.len() as u64) {
        return Err(Failed);
    }
    bytes.truncate(len as usize);
    Ok(())
}
