//! Batches with the text of their append.
ghost use Rattle.std.specs.Prelude.{◌≡◌, ◌<◌, ◌++◌, ◌∷◌, [], map, length, IfOk, OnOk, OnErr};
ghost use Rattle.router_requests.specs.View.{batch_of};
ghost use Rattle.record_file.specs.Records.{IsText};
ghost use Rattle.duty_journal.specs.Batch.{batch_bytes, FitsBytes};

use crate::put::put_batch;
use http_server::Log;
use json_text::{Bytes, NoMemory};
use record_file::Text;
use router_disk::Pieces;
use router_requests::Batch;
use std::alloc::Global;
use std::marker::Model;

/// Batches that one append writes, at least one, with its text.
#[derive(Drop)]
pub struct Prepared {
    text: Text,
    // Only contracts see them.
    batches: Log<Batch, ()>,
}

impl Model for Prepared {
    ghost use Rattle.std.specs.Prelude.{◌≡◌, ◌<◌, List, map, length};
    ghost use Rattle.router_requests.specs.Batch.{Batch as BatchView};
    ghost use Rattle.router_requests.specs.View.{batch_of};
    ghost use Rattle.duty_journal.specs.Batch.{batch_bytes};

    ghost Value = { List BatchView };

    ghost view = { λ p. map (λ pair. batch_of pair.0) p.batches.items };

    ghost invariant = { λ p. (0 < length p.text)
        × (p.text ≡ map batch_bytes (map (λ pair. batch_of pair.0) p.batches.items)) };
}

/// The batch with the text of its append. Refused as out of memory as `put_batch` is.
pub fn prepare(alloc: Global, batch: &Batch) -> Result<Prepared, NoMemory>
    ensures prepared { IfOk result (λ p. p ≡ batch_of batch.now ∷ []) }
    ensures fits { OnOk result (FitsBytes (batch_of batch.now)) }
{
    let mut text = Text::new(alloc);
    match add_batch(alloc, &mut text, batch) {
        Ok(()) => {
            let none: Log<Batch, ()> = Log::new();
            Ok(Prepared {
                text,
                batches: none.and(batch, &()),
            })
        }
        Err(NoMemory) => Err(NoMemory),
    }
}

impl Prepared {
    /// Adds a batch after the others. Refused as out of memory as `put_batch` is. After an `Err` they are as before.
    pub fn add(&mut self, alloc: Global, batch: &Batch) -> Result<(), NoMemory>
        ensures added { OnOk result (self.new ≡ self.old ++ batch_of batch.now ∷ []) }
        ensures fits { OnOk result (FitsBytes (batch_of batch.now)) }
        ensures err { OnErr result (self.new ≡ self.old) }
    {
        match add_batch(alloc, &mut self.text, batch) {
            Ok(()) => {
                self.batches = self.batches.and(batch, &());
                Ok(())
            }
            Err(NoMemory) => Err(NoMemory),
        }
    }

    // The text of an append of the batches' bytes.
    pub(crate) fn bytes(&self) -> &[u8]
        ensures { IsText (map batch_bytes self.now) result.now }
    {
        self.text.bytes()
    }

    // The bytes of each batch.
    pub(crate) fn payloads(&self) -> &Pieces
        ensures { result.now ≡ map batch_bytes self.now }
    {
        self.text.payloads()
    }
}

// Adds the batch's bytes as a payload.
fn add_batch(alloc: Global, text: &mut Text, batch: &Batch) -> Result<(), NoMemory>
    ensures added { OnOk result (text.new ≡ text.old ++ batch_bytes (batch_of batch.now) ∷ []) }
    ensures fits { OnOk result (FitsBytes (batch_of batch.now)) }
    ensures err { OnErr result (text.new ≡ text.old) }
{
    let mut payload = Bytes::new(alloc);
    match put_batch(batch, &mut payload) {
        Ok(()) => match text.add(payload.as_slice()) {
            Ok(()) => Ok(()),
            Err(record_file::NoMemory) => Err(NoMemory),
        },
        Err(NoMemory) => Err(NoMemory),
    }
}
