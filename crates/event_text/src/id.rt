//! The ids of events.
ghost use Rattle.std.specs.Prelude.{◌≡◌, ◌≤◌, ◌<◌, ◌^◌, ◌∷◌, ℕ, length, IfSome, IsTrue};
ghost use Rattle.event_shape.specs.Id.{event_id};
ghost use Rattle.event_text.specs.Written.{BeginsText};

use crate::string::plain_string;
use uuid::Uuid;

const ID_BASE: u128 = 0x0000_0000_0000_8000_8000_0000_0000_0000;

/// The number of bytes of an id.
const ID_BYTES: usize = 36;

/// The number of bytes before the last twelve digits of an id.
const BEFORE_LAST: usize = 24;

/// What follows an id and its quotation mark. Its number is below 2^48.
pub(crate) fn after_id(bytes: &[u8]) -> Option<&[u8]>
    ensures { IfSome result (λ rest. (n : ℕ) × (1 ≤ n) × (n < 2 ^ 64) × BeginsText (event_id n) bytes.now (34 ∷ rest.now)) }
{
    let (id, rest) = plain_string(bytes, ID_BYTES)?;
    let number = last_number(id);
    if number == 0 {
        return None;
    }
    if is_id_of(id, number) {
        Some(rest)
    } else {
        None
    }
}

/// Whether the bytes are the id of the event of the number.
fn is_id_of(id: &[u8], number: u64) -> bool
    ensures { IsTrue result → id.now ≡ event_id number }
{
    let uuid = Uuid::from_u128(ID_BASE + number as u128);
    let mut buffer = Uuid::encode_buffer();
    uuid.hyphenated().encode_lower(&mut buffer).as_bytes() == id
}

/// The number that the last twelve digits of an id give. Bytes that are no digits count as some digit.
fn last_number(id: &[u8]) -> u64
    requires { 24 ≤ length id.now }
{
    let (_, digits) = id.split_at(BEFORE_LAST);
    let mut number: u64 = 0;
    for digit in digits {
        number = number << 4 | digit_value(*digit);
    }
    number
}

fn digit_value(digit: u8) -> u64 {
    match digit {
        b'0'..=b'9' => u64::from(digit - b'0'),
        b'a'..=b'f' => u64::from(digit - b'a') + 10,
        _ => 0,
    }
}
