//! Numbers as bytes, the highest first.
ghost use Rattle.std.specs.Prelude.{◌≡◌, ◌<◌, ◌^◌, ◌++◌, ◌∷◌, [], length, take, OnOk, OnErr};
ghost use Rattle.entry_bytes.specs.Fields.{two_bytes, four_bytes, eight_bytes};
ghost use Rattle.entry_bytes.specs.Reading.{Gives, byte_at, two_at, four_at, eight_at};

use crate::fault::ReadFault;
use json_text::{Bytes, NoMemory};

pub fn put_u8(number: u8, out: &mut Bytes) -> Result<(), NoMemory>
    ensures bytes { OnOk result (out.new ≡ out.old ++ number ∷ []) }
    ensures err { OnErr result (take (length out.old) out.new ≡ out.old) }
{
    out.extend(&[number])
}

#[tactic(auto, unfolding(crate::specs::Fields::two_bytes))]
pub fn put_u16(number: u16, out: &mut Bytes) -> Result<(), NoMemory>
    ensures bytes { OnOk result (out.new ≡ out.old ++ two_bytes number) }
    ensures fits { number < 2 ^ 16 }
    ensures err { OnErr result (take (length out.old) out.new ≡ out.old) }
{
    out.extend(&number.to_be_bytes())
}

#[tactic(auto, unfolding(crate::specs::Fields::four_bytes))]
pub(crate) fn put_u32(number: u32, out: &mut Bytes) -> Result<(), NoMemory>
    ensures bytes { OnOk result (out.new ≡ out.old ++ four_bytes number) }
    ensures fits { number < 2 ^ 32 }
    ensures err { OnErr result (take (length out.old) out.new ≡ out.old) }
{
    out.extend(&number.to_be_bytes())
}

#[tactic(auto, unfolding(crate::specs::Fields::eight_bytes))]
pub fn put_u64(number: u64, out: &mut Bytes) -> Result<(), NoMemory>
    ensures bytes { OnOk result (out.new ≡ out.old ++ eight_bytes number) }
    ensures fits { number < 2 ^ 64 }
    ensures err { OnErr result (take (length out.old) out.new ≡ out.old) }
{
    out.extend(&number.to_be_bytes())
}

/// The number of items or bytes, in four bytes. A number above that is refused as out of memory.
pub(crate) fn put_len(len: usize, out: &mut Bytes) -> Result<(), NoMemory>
    ensures bytes { OnOk result (out.new ≡ out.old ++ four_bytes len) }
    ensures fits { OnOk result (len < 2 ^ 32) }
    ensures err { OnErr result (take (length out.old) out.new ≡ out.old) }
{
    match u32::try_from(len) {
        Ok(len) => put_u32(len, out),
        Err(_) => Err(NoMemory),
    }
}

/// The number in the first byte, and the bytes after it.
pub fn take_u8(bytes: &[u8]) -> Result<(u8, &[u8]), ReadFault>
    ensures { Gives (λ x. (x.0, x.1.now)) result (byte_at bytes.now) }
{
    match bytes {
        [number, rest @ ..] => Ok((*number, rest)),
        [] => Err(ReadFault::NotSpelled),
    }
}

/// The number in the first two bytes, and the bytes after them.
pub fn take_u16(bytes: &[u8]) -> Result<(u16, &[u8]), ReadFault>
    ensures { Gives (λ x. (x.0, x.1.now)) result (two_at bytes.now) }
{
    if bytes.len() < 2 {
        return Err(ReadFault::NotSpelled);
    }
    let (front, rest) = bytes.split_at(2);
    Ok((u16::from_be_bytes([front[0], front[1]]), rest))
}

/// The number in the first four bytes, and the bytes after them.
pub(crate) fn take_u32(bytes: &[u8]) -> Result<(u32, &[u8]), ReadFault>
    ensures { Gives (λ x. (x.0, x.1.now)) result (four_at bytes.now) }
{
    if bytes.len() < 4 {
        return Err(ReadFault::NotSpelled);
    }
    let (front, rest) = bytes.split_at(4);
    let number = u32::from_be_bytes([front[0], front[1], front[2], front[3]]);
    Ok((number, rest))
}

/// The number in the first eight bytes, and the bytes after them.
pub fn take_u64(bytes: &[u8]) -> Result<(u64, &[u8]), ReadFault>
    ensures { Gives (λ x. (x.0, x.1.now)) result (eight_at bytes.now) }
{
    if bytes.len() < 8 {
        return Err(ReadFault::NotSpelled);
    }
    let (front, rest) = bytes.split_at(8);
    let number = u64::from_be_bytes([
        front[0], front[1], front[2], front[3], front[4], front[5], front[6], front[7],
    ]);
    Ok((number, rest))
}
