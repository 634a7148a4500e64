//! Signatures: numbers by which tests are found. Equal bytes have equal signatures, and ASCII letters are read in lower case.
ghost use Rattle.std.specs.Prelude.{◌≡◌, ◌<◌, length, slice_index};
ghost use Rattle.json_text.specs.View.{tree_of};
ghost use Rattle.value_index.specs.Signature as spec;

use json_text::Json;
use leaf_match::Family;

/// The signature of the tests that are asked of every scalar.
pub(crate) const ASKED: u64 = 0;
/// The signature of the tests that are found by a range, or never.
pub(crate) const UNSIGNED: u64 = 1;

pub(crate) const NUMBER: u64 = 5;

pub(crate) const TEXT: u64 = 6;

const FACTOR: u64 = 1_099_511_628_211;

/// Where the bytes of a text are counted from.
#[derive(Clone, Copy)]
pub(crate) enum Side {
    Front,
    Back,
}

/// The signature with one more word.
#[tactic(auto, unfolding(crate::specs::Signature::joined))]
pub(crate) fn joined(sum: u64, word: u64) -> u64
    ensures { result ≡ spec.joined sum word }
{
    sum.wrapping_mul(FACTOR).wrapping_add(word)
}

/// The signature with one more byte of a text.
pub(crate) fn with_byte(sum: u64, byte: u8) -> u64
    ensures { result ≡ spec.with_byte sum byte }
{
    joined(sum, u64::from(byte.to_ascii_lowercase()))
}

/// The signature of bytes after the seed, from one side.
pub(crate) fn signed(seed: u64, side: Side, bytes: &[u8]) -> u64
    ensures { result ≡ spec.signature seed (spec.read_from side bytes.now) }
{
    match side {
        Side::Front => bytes.iter().fold(seed, |sum, byte| with_byte(sum, *byte)),
        Side::Back => bytes
            .iter()
            .rev()
            .fold(seed, |sum, byte| with_byte(sum, *byte)),
    }
}

/// The byte with this number from one side.
pub(crate) fn byte_from(side: Side, bytes: &[u8], number: usize) -> u8
    requires { number < length bytes.now }
    ensures { result ≡ slice_index (spec.read_from side bytes.now) number }
{
    match side {
        Side::Front => bytes[number],
        Side::Back => bytes[bytes.len() - 1 - number],
    }
}

pub(crate) fn seed_of(side: Side) -> u64
    ensures { result ≡ spec.seed_of side }
{
    match side {
        Side::Front => 7,
        Side::Back => 8,
    }
}

/// The signature of the whole scalar.
pub(crate) fn whole(scalar: &Json) -> u64
    ensures { result ≡ spec.whole (tree_of scalar.now) }
{
    match scalar {
        Json::Null => 2,
        Json::Truth(true) => 3,
        Json::Truth(false) => 4,
        Json::Num(spelling) => signed(NUMBER, Side::Front, spelling.as_str().as_bytes()),
        Json::Str(text) => signed(TEXT, Side::Front, text.as_str().as_bytes()),
        Json::List(_) | Json::Obj(_) => UNSIGNED,
    }
}

/// The signature of the first bits of an address.
pub(crate) fn network(family: Family, length: usize, first_bits: u128) -> u64
    ensures { result ≡ spec.network family length first_bits }
{
    let seed = match family {
        Family::V4 => 9,
        Family::V6 => 10,
    };
    let high = (first_bits >> 64) as u64;
    let low = (first_bits % (1 << 64)) as u64;
    joined(joined(joined(seed, length as u64), high), low)
}
