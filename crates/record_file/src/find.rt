// What is at a gate of a file.
ghost use Rattle.std.specs.Prelude.{◌≡◌, ◌+◌, ◌<◌, ◌≤◌, ℕ, List, Some, length};
ghost use Rattle.router_disk.specs.Disk.{AreAnswers, file_of};
ghost use Rattle.record_file.specs.State.{Counts, Covers, IsWindowOf, OnlyLooks};
ghost use Rattle.record_file.specs.Next.{IsFoundAt, IsHead, PayloadIs, found_outcome};

use crate::window::{Reached, Window};
use router_disk::Disk;

// A gate with the length after it.
pub enum Head {
    Closed,
    // An open gate with less than 8 bytes after it.
    Short,
    Length(u64),
}

pub enum Found {
    // A record of a payload of this length.
    Record(u64),
    Closed,
    Damaged,
    Failed,
    NoMemory,
}

fn head_of(bytes: &[u8]) -> Head
    requires some { 0 < length bytes.now }
    requires few { length bytes.now ≤ 9 }
    ensures { IsHead bytes.now result }
{
    if bytes[0] != 1 {
        return Head::Closed;
    }
    if bytes.len() < 9 {
        return Head::Short;
    }
    let mut length = [0u8; 8];
    length.copy_from_slice(&bytes[1..9]);
    let len = u64::from_be_bytes(length);
    Head::Length(len)
}

// Finds what is at the gate at `place`. After `Record` the window covers the payload.
pub(crate) fn find<D: Disk>(window: &mut Window, disk: &mut D, size: u64, place: u64) -> Found
    requires { place < size }
    ensures looks { OnlyLooks (D.calls disk.old) (D.calls disk.new) }
    ensures count { Counts (D.faults disk.old) (D.faults disk.new) (found_outcome result) }
    ensures covers { (len : ℕ) → result ≡ Found.Record len → Covers window.new (place + 9) len × (place + 9 + len < size) }
    ensures window { (first file : List ℕ) → AreAnswers first (D.calls disk.new) → file_of first (D.calls disk.old) ≡ Some file →
        IsWindowOf file window.old → IsWindowOf file window.new }
    ensures found { (first file : List ℕ) → AreAnswers first (D.calls disk.new) → file_of first (D.calls disk.old) ≡ Some file →
        IsWindowOf file window.old → size ≡ length file → IsFoundAt file place result }
{
    let ahead = (size - place).min(9);
    match window.reach(disk, size, place, ahead) {
        Reached::Ready => {}
        Reached::Failed => return Found::Failed,
        Reached::NoMemory => return Found::NoMemory,
    }
    match head_of(window.piece(place, ahead as usize)) {
        Head::Closed => Found::Closed,
        Head::Short => Found::Damaged,
        Head::Length(len) => find_payload(window, disk, size, place, len),
    }
}

// Finds the payload of this length after the gate at `place`.
fn find_payload<D: Disk>(
    window: &mut Window,
    disk: &mut D,
    size: u64,
    place: u64,
    len: u64,
) -> Found
    requires { place + 9 ≤ size }
    ensures looks { OnlyLooks (D.calls disk.old) (D.calls disk.new) }
    ensures count { Counts (D.faults disk.old) (D.faults disk.new) (found_outcome result) }
    ensures covers { (n : ℕ) → result ≡ Found.Record n → Covers window.new (place + 9) n × (place + 9 + n < size) }
    ensures window { (first file : List ℕ) → AreAnswers first (D.calls disk.new) → file_of first (D.calls disk.old) ≡ Some file →
        IsWindowOf file window.old → IsWindowOf file window.new }
    ensures found { PayloadIs size place len result }
{
    // The length may be any number: it is compared with what is left before memory is taken.
    if size - (place + 9) <= len {
        return Found::Damaged;
    }
    match window.reach(disk, size, place + 9, len) {
        Reached::Ready => Found::Record(len),
        Reached::Failed => Found::Failed,
        Reached::NoMemory => Found::NoMemory,
    }
}
