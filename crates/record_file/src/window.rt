// A window of a file: some of its bytes, read at once.
ghost use Rattle.std.specs.Prelude.{◌≡◌, ◌+◌, ◌-◌, ◌≤◌, [], ℕ, List, Some, false, length, IsTrue};
ghost use Rattle.router_disk.specs.Disk.{AreAnswers, file_of};
ghost use Rattle.record_file.specs.State.{Counts, Covers, IsWindowOf, OnlyLooks, piece_of};
ghost use Rattle.record_file.specs.Next.{reached_outcome};

use router_disk::{Disk, Failed};
use std::alloc::Global;

// How many bytes are read at once, if the record is not longer: 1 MiB.
const WINDOW: u64 = 1 << 20;

#[derive(Drop)]
pub struct Window {
    pub bytes: Vec<u8>,
    /// The place in the file of the first byte.
    pub at: u64,
}

pub enum Reached {
    Ready,
    Failed,
    NoMemory,
}

impl Window {
    pub(crate) fn new(alloc: Global) -> Window
        ensures empty { result.bytes.items ≡ [] }
        ensures at { result.at ≡ 0 }
    {
        Window {
            bytes: Vec::new(alloc),
            at: 0,
        }
    }

    // Reads, if it does not cover `len` bytes from `at` on, of a file of `size` bytes.
    pub(crate) fn reach<D: Disk>(&mut self, disk: &mut D, size: u64, at: u64, len: u64) -> Reached
        requires { at + len ≤ size }
        ensures looks { OnlyLooks (D.calls disk.old) (D.calls disk.new) }
        ensures count { Counts (D.faults disk.old) (D.faults disk.new) (reached_outcome result) }
        ensures covers { result ≡ Reached.Ready → Covers self.new at len }
        ensures window { (first file : List ℕ) → AreAnswers first (D.calls disk.new) → file_of first (D.calls disk.old) ≡ Some file →
            IsWindowOf file self.old → IsWindowOf file self.new }
    {
        if self.covers(at, len) {
            return Reached::Ready;
        }
        let wanted = len.max((size - at).min(WINDOW));
        if !self.make_room(wanted as usize) {
            return Reached::NoMemory;
        }
        match disk.read(at, self.bytes.as_mut_slice()) {
            Ok(()) => {
                self.at = at;
                Reached::Ready
            }
            Err(Failed) => {
                self.bytes.clear();
                Reached::Failed
            }
        }
    }

    fn covers(&self, at: u64, len: u64) -> bool
        ensures { IsTrue result → Covers self.now at len }
    {
        let held = self.bytes.len() as u64;
        self.at <= at && at - self.at <= held && len <= held - (at - self.at)
    }

    // Makes it as long as `len`, with any bytes. If it is out of memory, it is empty.
    fn make_room(&mut self, len: usize) -> bool
        ensures ready { IsTrue result → length self.new.bytes.items ≡ len }
        ensures refused { result ≡ false → self.new.bytes.items ≡ [] }
        ensures at { self.new.at ≡ self.old.at }
    {
        if self.bytes.capacity() < len {
            let alloc = *self.bytes.allocator();
            // The old bytes are freed first, so that not both are held.
            self.bytes = Vec::new(alloc);
            match Vec::with_capacity(alloc, len) {
                Ok(bytes) => self.bytes = bytes,
                Err(_) => return false,
            }
        }
        if self.bytes.resize(len, 0).is_err() {
            self.bytes.clear();
            return false;
        }
        true
    }

    // The `len` bytes from place `at` of the file on.
    pub(crate) fn piece(&self, at: u64, len: usize) -> &[u8]
        requires { Covers self.now at len }
        ensures piece { result.now ≡ piece_of self.now at len }
        ensures len { length result.now ≡ len }
    {
        let from = (at - self.at) as usize;
        &self.bytes[from..from + len]
    }
}
