// The text of an append, made before it.
ghost use Rattle.std.specs.Prelude.{◌≡◌, ◌+◌, ◌-◌, ◌<◌, ◌≤◌, ◌++◌, ◌∷◌, [], length, slice_set, vec_len, vec_capacity, OnOk, OnErr};
ghost use Rattle.record_file.specs.Text.{text_with};

use router_disk::Pieces;
use std::alloc::Global;
use std::marker::Model;
use thiserror::Error;

/// Out of memory.
#[derive(Clone, Copy, Debug, PartialEq, Eq, Error)]
#[error("out of memory")]
pub struct NoMemory;

/// The text of an append of the payloads so far: their records without the first gate, and a closed gate.
#[derive(Drop)]
pub struct Text {
    bytes: Vec<u8>,
    payloads: Pieces,
}

impl Model for Text {
    ghost use Rattle.std.specs.Prelude.{◌≡◌, [], List, ℕ, length};
    ghost use Rattle.record_file.specs.Records.{laid, records};
    ghost use Rattle.record_file.specs.Text.{IsTextSoFar};

    ghost Value = { List (List ℕ) };

    ghost view = { λ t. t.payloads };

    ghost invariant = { λ t. IsTextSoFar t.payloads t.bytes.items };
}

impl Text {
    ghost use Rattle.record_file.specs.Records.{IsText};

    /// No payload yet.
    pub fn new(alloc: Global) -> Text
        ensures { result ≡ [] }
    {
        Text {
            bytes: Vec::new(alloc),
            payloads: Pieces::new(),
        }
    }

    /// Adds a payload.
    pub fn add(&mut self, payload: &[u8]) -> Result<(), NoMemory>
        ensures ok { OnOk result (self.new ≡ self.old ++ payload.now ∷ []) }
        ensures err { OnErr result (self.new ≡ self.old) }
    {
        match add(&mut self.bytes, payload) {
            Ok(()) => {
                self.payloads.hear(payload);
                Ok(())
            }
            Err(NoMemory) => Err(NoMemory),
        }
    }

    /// The payloads.
    pub fn payloads(&self) -> &Pieces
        ensures { result.now ≡ self.now }
    {
        &self.payloads
    }

    /// The bytes, for an append of its payloads, of which there has to be one.
    pub fn bytes(&self) -> &[u8]
        ensures { 0 < length self.now → IsText self.now result.now }
    {
        &self.bytes
    }
}

// Opens the last gate, and adds a payload after its length, and a closed gate.
fn add(bytes: &mut Vec<u8>, payload: &[u8]) -> Result<(), NoMemory>
    ensures ok { OnOk result (bytes.new.items ≡ text_with bytes.old.items payload.now) }
    ensures err { OnErr result (bytes.new.items ≡ bytes.old.items) }
{
    if bytes.try_reserve(payload.len().saturating_add(9)).is_err() {
        return Err(NoMemory);
    }
    open_last(bytes);
    write(bytes, &(payload.len() as u64).to_be_bytes());
    write(bytes, payload);
    write(bytes, &[0]);
    Ok(())
}

// Opens the closed gate at the end, if there is one.
fn open_last(bytes: &mut Vec<u8>)
    ensures items { bytes.new.items ≡ slice_set bytes.old.items (length bytes.old.items - 1) 1 }
    ensures len { vec_len bytes.new ≡ vec_len bytes.old }
    ensures room { vec_capacity bytes.old ≤ vec_capacity bytes.new }
{
    let size = bytes.len();
    if size > 0 {
        bytes[size - 1] = 1;
    }
}

// Writes bytes for which there is room.
fn write(bytes: &mut Vec<u8>, more: &[u8])
    requires { vec_len bytes.old + length more.now ≤ vec_capacity bytes.old }
    ensures items { bytes.new.items ≡ bytes.old.items ++ more.now }
    ensures len { vec_len bytes.new ≡ vec_len bytes.old + length more.now }
    ensures room { vec_capacity bytes.old ≤ vec_capacity bytes.new }
{
    match bytes.extend_from_slice(more) {
        Ok(()) => {}
        Err(_) => unreachable!(),
    }
}
