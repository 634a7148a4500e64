// Bytes written over others.
ghost use Rattle.std.specs.Prelude.{◌≡◌, ◌+◌, ◌^◌, ◌<◌, ◌≤◌, IfOk, OnOk, length, drop};
ghost use Rattle.router_disk.specs.Disk.{overwritten};

use std::alloc::{AllocError, Global};

// No file has as many bytes: 2^63.
const TOO_LONG: u64 = 1 << 63;

// The bytes with others over them from a place on. A place past the end leaves zeros between. What would end at 2^63 or above is refused as
// out of memory.
pub(crate) fn overwrite(
    alloc: Global,
    bytes: &[u8],
    at: u64,
    new: &[u8],
) -> Result<Vec<u8>, AllocError>
    ensures is { IfOk result (λ next. next.items ≡ overwritten bytes.now at new.now) }
    ensures fits { OnOk result (at + length new.now < 2 ^ 63) }
{
    if at >= TOO_LONG || new.len() as u64 >= TOO_LONG - at {
        return Err(AllocError);
    }
    if new.is_empty() {
        return bytes.to_vec(alloc);
    }
    joined(alloc, bytes, at as usize, new)
}

fn joined(alloc: Global, bytes: &[u8], at: usize, new: &[u8]) -> Result<Vec<u8>, AllocError>
    requires some { 0 < length new.now }
    requires fits { at + length new.now < 2 ^ 63 }
    ensures { IfOk result (λ next. next.items ≡ overwritten bytes.now at new.now) }
{
    let mut next = bytes.to_vec(alloc)?;
    next.resize(at, 0)?;
    next.extend_from_slice(new)?;
    next.extend_from_slice(rest_of(bytes, at + new.len()))?;
    Ok(next)
}

fn rest_of(bytes: &[u8], from: usize) -> &[u8]
    ensures { result.now ≡ drop from bytes.now }
{
    if from < bytes.len() {
        &bytes[from..]
    } else {
        &[]
    }
}
