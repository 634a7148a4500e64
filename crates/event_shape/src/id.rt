//! Ids of events.
ghost use Rattle.std.specs.Prelude.{◌≡◌, ◌<◌, ◌+◌, ◌^◌, ◌++◌, ℕ, Some, IfOk, IfSome, OnOk, string_bytes};
ghost use Rattle.event_shape.specs.Id as spec;

use json_text::{NoMemory, Text};
use std::alloc::Global;
use uuid::Uuid;

const ID_BASE: u128 = 0x0000_0000_0000_8000_8000_0000_0000_0000;

/// The id of the event with this number, in lower case with hyphens. Below 2^62 it is a UUID of version 8 (RFC 9562,
/// section 5.8); from 2^62 on the sum changes the variant bits.
pub fn event_id(alloc: Global, number: u64) -> Result<Text, NoMemory>
    ensures { IfOk result (λ id. id ≡ spec.event_id number) }
{
    let mut id = String::new(alloc);
    push_id(number, &mut id)?;
    Ok(Text::from(id))
}

/// Adds the id at the end.
pub(crate) fn push_id(number: u64, out: &mut String) -> Result<(), NoMemory>
    ensures { OnOk result (string_bytes out.new ≡ string_bytes out.old ++ spec.event_id number) }
{
    let id = Uuid::from_u128(ID_BASE + number as u128);
    let mut buffer = Uuid::encode_buffer();
    out.push_str(id.hyphenated().encode_lower(&mut buffer))?;
    Ok(())
}

/// The number of the event with this id. For other texts it may return some number, too.
pub(crate) fn number_of(id: &str) -> Option<u64>
    ensures found { (n : ℕ) → n < 2 ^ 64 → id.now ≡ spec.event_id n → result ≡ Some n }
    ensures fits { IfSome result (λ n. n < 2 ^ 64) }
{
    match Uuid::try_parse(id) {
        Ok(id) => number_above_base(id.as_u128()),
        Err(_) => None,
    }
}

fn number_above_base(value: u128) -> Option<u64>
    ensures found { (n : ℕ) → n < 2 ^ 64 → value ≡ spec.id_base + n → result ≡ Some n }
    ensures fits { IfSome result (λ n. n < 2 ^ 64) }
{
    if value < ID_BASE || value - ID_BASE > u64::MAX as u128 {
        return None;
    }
    Some((value - ID_BASE) as u64)
}
