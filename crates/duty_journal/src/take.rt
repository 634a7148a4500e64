//! Batches are read.
ghost use Rattle.std.specs.Prelude.{◌≡◌, map, IfOk, MatchOption};
ghost use Rattle.std.specs.List.{AllByRecursion};
ghost use Rattle.entry_bytes.specs.Reading.{Finds, items_at};
ghost use Rattle.router_requests.specs.View.{entry_of, batch_of};
ghost use Rattle.duty_journal.specs.Batch.{batch_bytes, HasValidTexts, IsReadable, IsNoBatch};
ghost use Rattle.duty_journal.specs.Reading.{operation_at, operations_at, batch_at};

use crate::operation::take_operation;
use entry_bytes::{ReadFault, take_u16, take_u64};
use json_text::NoMemory;
use router_requests::{Batch, Entry};
use std::alloc::Global;

/// The batch with these bytes. `None` if there is none that could be read back from its bytes. The duties of an event share its text if
/// theirs is equal.
pub fn take_batch(alloc: Global, bytes: &[u8]) -> Result<Option<Batch>, NoMemory>
    ensures { IfOk result (λ found. MatchOption found
        (IsNoBatch bytes.now)
        (λ batch. IsReadable (batch_of batch) × (bytes.now ≡ batch_bytes (batch_of batch)))) }
{
    match take_front(alloc, bytes) {
        Ok((batch, rest)) => {
            if rest.is_empty() {
                Ok(Some(batch))
            } else {
                Ok(None)
            }
        }
        Err(ReadFault::NoMemory) => Err(NoMemory),
        Err(ReadFault::NotSpelled) => Ok(None),
    }
}

/// The batch at the front, and the bytes after it.
fn take_front(alloc: Global, bytes: &[u8]) -> Result<(Batch, &[u8]), ReadFault>
    ensures { Finds (λ x. (batch_of x.0, x.1.now)) (λ b. AllByRecursion HasValidTexts b.entries) result (batch_at bytes.now) }
{
    match take_u64(bytes) {
        Ok((moment, rest)) => match take_operations(alloc, rest) {
            Ok((entries, rest)) => Ok((Batch { moment, entries }, rest)),
            Err(fault) => Err(fault),
        },
        Err(fault) => Err(fault),
    }
}

/// The operations at the front, at least one, and the bytes after them.
fn take_operations(alloc: Global, bytes: &[u8]) -> Result<(Vec<Entry>, &[u8]), ReadFault>
    ensures { Finds (λ x. (map entry_of x.0.items, x.1.now)) (AllByRecursion HasValidTexts) result (operations_at bytes.now) }
{
    match take_u16(bytes) {
        Ok((count, rest)) => {
            if count == 0 {
                Err(ReadFault::NotSpelled)
            } else {
                take_items(alloc, count, rest)
            }
        }
        Err(fault) => Err(fault),
    }
}

/// Memory grows with the operations that are found, not with the count.
fn take_items(alloc: Global, count: u16, bytes: &[u8]) -> Result<(Vec<Entry>, &[u8]), ReadFault>
    ensures { Finds (λ x. (map entry_of x.0.items, x.1.now)) (AllByRecursion HasValidTexts) result (items_at operation_at count bytes.now) }
{
    let mut entries = Vec::new(alloc);
    let mut rest = bytes;
    for _ in 0..count {
        match take_operation(alloc, rest) {
            Ok((entry, after)) => {
                entries.push(entry)?;
                rest = after;
            }
            Err(fault) => return Err(fault),
        }
    }
    Ok((entries, rest))
}
