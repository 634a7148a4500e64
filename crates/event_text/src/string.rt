//! Strings as compact text has them.
ghost use Rattle.std.specs.Prelude.{◌≡◌, ◌≢◌, ◌<◌, ◌≤◌, ◌∷◌, [], ℕ, List, false, length, map, IfSome, IsTrue};
ghost use Rattle.json_text.specs.Compact.{escape};
ghost use Rattle.event_text.specs.Written.{BeginsText};

use crate::plain::{ASCII, UTF8, plain_len};

/// What follows the characters of a string and its quotation mark. Only the escapes of two bytes are read.
pub(crate) fn after_string(bytes: &[u8]) -> Option<&[u8]>
    ensures text { IfSome result (λ rest. (t : List ℕ) × BeginsText t bytes.now (34 ∷ rest.now)) }
    ensures shorter { IfSome result (λ rest. length rest.now < length bytes.now) }
{
    let mut left = bytes;
    'pieces: loop {
        if let [b'"', rest @ ..] = left {
            return Some(rest);
        }
        left = after_piece(left)?;
    }
}

/// What follows some characters of a string, of which there is at least one.
fn after_piece(bytes: &[u8]) -> Option<&[u8]>
    ensures text { IfSome result (λ rest. (t : List ℕ) × BeginsText t bytes.now rest.now) }
    ensures shorter { IfSome result (λ rest. length rest.now < length bytes.now) }
{
    let plain = plain_len(bytes, ASCII);
    if plain > 0 {
        let (_, rest) = bytes.split_at(plain);
        return Some(rest);
    }
    match bytes {
        [b'\\', rest @ ..] => after_escape(rest),
        _ => after_wide(bytes),
    }
}

/// What follows an escape, after its backslash.
fn after_escape(bytes: &[u8]) -> Option<&[u8]>
    ensures text { IfSome result (λ rest. (t : List ℕ) × BeginsText t (92 ∷ bytes.now) rest.now) }
    ensures shorter { IfSome result (λ rest. length rest.now < length bytes.now) }
{
    match bytes {
        [byte, rest @ ..] => match character_of(*byte) {
            Some(_) => Some(rest),
            None => None,
        },
        [] => None,
    }
}

/// The character that is written as a backslash and this byte.
fn character_of(byte: u8) -> Option<u8>
    ensures { IfSome result (λ c. (c < 128) × (escape c ≡ 92 ∷ byte ∷ [])) }
{
    match byte {
        b'"' => Some(b'"'),
        b'\\' => Some(b'\\'),
        b'b' => Some(8),
        b'f' => Some(12),
        b'n' => Some(b'\n'),
        b'r' => Some(b'\r'),
        b't' => Some(b'\t'),
        _ => None,
    }
}

/// What follows the plain bytes of UTF-8, of which there is at least one.
fn after_wide(bytes: &[u8]) -> Option<&[u8]>
    ensures text { IfSome result (λ rest. (t : List ℕ) × BeginsText t bytes.now rest.now) }
    ensures shorter { IfSome result (λ rest. length rest.now < length bytes.now) }
{
    let plain = plain_len(bytes, UTF8);
    if plain == 0 {
        return None;
    }
    let (front, rest) = bytes.split_at(plain);
    match str::from_utf8(front) {
        Ok(_) => Some(rest),
        Err(_) => None,
    }
}

/// The plain bytes of a string that has so many and no others, and what follows its quotation mark.
pub(crate) fn plain_string(bytes: &[u8], len: usize) -> Option<(&[u8], &[u8])>
    ensures text { IfSome result (λ r. BeginsText r.0.now bytes.now (34 ∷ r.1.now)) }
    ensures len { IfSome result (λ r. length r.0.now ≡ len) }
{
    if plain_len(bytes, ASCII) != len {
        return None;
    }
    let (text, after) = bytes.split_at(len);
    match after {
        [b'"', rest @ ..] => Some((text, rest)),
        _ => None,
    }
}
