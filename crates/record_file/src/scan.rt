// A scan of a file's records, payload by payload.
ghost use Rattle.std.specs.Prelude.{◌≡◌, ◌+◌, ◌^◌, ◌<◌, ◌≤◌, ◌++◌, ◌∷◌, [], ℕ, List, Some, length, take};
ghost use Rattle.router_disk.specs.Disk.{AreAnswers, file_of};

use crate::find::{Found, find};
use crate::window::Window;
use router_disk::{Disk, Pieces};
use std::alloc::Global;

/// What a scan met.
pub enum Next {
    /// A record. The scan shows its payload; `admit` goes on after it.
    Record,
    /// A closed gate: the records end here.
    Closed,
    /// An open gate and no record with a gate after it.
    Damaged,
    /// A read failed. The disk's count of faults shows it.
    Failed,
    /// Out of memory. The file was not changed.
    NoMemory,
}

/// A scan of the records of a file that has the header. It reads 1 MiB at once, or the longest record.
#[derive(Drop)]
pub struct Scan {
    pub size: u64,
    /// The place of the first gate.
    pub first: u64,
    pub place: u64,
    pub next_place: u64,
    pub payload_at: u64,
    pub payload_len: usize,
    pub count: u64,
    pub window: Window,
    pub found: Pieces,
    ghost shown: { (window.at ≤ payload_at) × (payload_at + payload_len ≤ window.at + length window.bytes.items) },
    ghost ahead: { (place < size) × (next_place < size) },
}

impl Scan {
    ghost use Rattle.record_file.specs.Records.{IsDamagedAt, header, records};
    ghost use Rattle.record_file.specs.Kept.{IsOpened};
    ghost use Rattle.record_file.specs.State.{Counts, IsScan, IsScanOf, OnlyLooks, payload_of};
    ghost use Rattle.record_file.specs.Next.{IsNext, next_outcome};

    /// A scan from the first record on of a file of `size` bytes, whose first gate is at the place `first`.
    pub fn new(alloc: Global, size: u64, first: u64) -> Scan
        requires { first + 1 < size }
        ensures found { result.found ≡ [] }
        ensures first { result.first ≡ first }
        ensures scan { (file : List ℕ) → size ≡ length file → length file < 2 ^ 63 → take 8 file ≡ header → IsScanOf file result }
    {
        let window = Window::new(alloc);
        let found = Pieces::new();
        Scan {
            size,
            first,
            place: first,
            next_place: first,
            payload_at: 0,
            payload_len: 0,
            count: 0,
            window,
            found,
        }
    }

    /// Looks at the record that comes next.
    pub fn next<D: Disk>(&mut self, disk: &mut D) -> Next
        ensures looks { OnlyLooks (D.calls disk.old) (D.calls disk.new) }
        ensures count { Counts (D.faults disk.old) (D.faults disk.new) (next_outcome result) }
        ensures found { self.new.found ≡ self.old.found }
        ensures place { self.new.place ≡ self.old.place }
        ensures size { self.new.size ≡ self.old.size }
        ensures first { self.new.first ≡ self.old.first }
        ensures ahead { result ≡ Next.Record → self.new.place < self.new.next_place }
        ensures opened { (since : ℕ) → IsOpened (D.calls disk.old) since → IsOpened (D.calls disk.new) since }
        ensures scan { IsScan (D.calls disk.old) self.old → IsScan (D.calls disk.new) self.new }
        ensures next { IsScan (D.calls disk.old) self.old → (first file : List ℕ) → AreAnswers first (D.calls disk.new) →
            file_of first (D.calls disk.new) ≡ Some file → IsNext file self.new result }
    {
        let met = find(&mut self.window, disk, self.size, self.place);
        self.payload_at = self.window.at;
        self.payload_len = 0;
        match met {
            Found::Record(len) => {
                self.payload_at = self.place + 9;
                self.payload_len = len as usize;
                self.next_place = self.place + 9 + len;
                Next::Record
            }
            Found::Closed => Next::Closed,
            Found::Damaged => Next::Damaged,
            Found::Failed => Next::Failed,
            Found::NoMemory => Next::NoMemory,
        }
    }

    /// Goes on after the record that `next` met last.
    pub fn admit(&mut self)
        ensures found { self.new.found ≡ self.old.found ++ payload_of self.old ∷ [] }
        ensures place { self.new.place ≡ self.old.next_place }
        ensures size { self.new.size ≡ self.old.size }
        ensures first { self.new.first ≡ self.old.first }
        ensures scan { (file : List ℕ) → IsScanOf file self.old → IsNext file self.old Next.Record → IsScanOf file self.new }
    {
        self.found
            .hear(self.window.piece(self.payload_at, self.payload_len));
        let count = self.count.saturating_add(1);
        self.count = count;
        self.place = self.next_place;
    }

    /// The payload of the record that `next` met last.
    pub fn payload(&self) -> &[u8]
        ensures { result.now ≡ payload_of self.now }
    {
        self.window.piece(self.payload_at, self.payload_len)
    }

    /// The place of the record that comes next, counted from 1, and that of its gate's byte.
    pub fn place(&self) -> (u64, u64)
        ensures at { (file : List ℕ) → IsScanOf file self.now →
            (result.0 ≡ length self.now.found + 1) × (result.1 ≡ self.now.first + length (records self.now.found)) }
        ensures damaged { (file : List ℕ) → IsScanOf file self.now → IsNext file self.now Next.Damaged →
            IsDamagedAt file self.now.first self.now.found result.0 result.1 }
    {
        let record = self.count.saturating_add(1);
        (record, self.place)
    }
}
