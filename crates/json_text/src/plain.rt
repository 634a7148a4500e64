//! Unescaped bytes of a string, several at a time.
ghost use Rattle.std.specs.Prelude.{◌≡◌, ◌≤◌, ◌+◌, ◌⊎◌, length, map, not};
ghost use Rattle.json_text.specs.Plain.{PlainBetween, is_plain};
ghost use Rattle.std.specs.Simd.Lanes.{mask_l, chunk};

use std::simd::prelude::*;

/// The most that a plain byte may be if only ASCII is plain.
pub(crate) const ASCII: u8 = 0x7F;

/// The same if each byte of UTF-8 is plain but those that are escaped.
pub(crate) const UTF8: u8 = 0xFF;

/// The number of bytes at the front that are plain.
#[inline(always)]
pub(crate) fn plain_len(bytes: &[u8], most: u8) -> usize
    requires { (most ≡ 127) ⊎ (most ≡ 255) }
    ensures within { result ≤ length bytes.now }
    ensures plain { PlainBetween most bytes.now 0 result }
{
    let mut at = 0;
    while bytes.len() - at >= 16 {
        let plain = plain_lanes::<16>(bytes, at, most);
        at += plain;
        if plain < 16 {
            return at;
        }
    }
    plain_end(bytes, at, most)
}

/// The end of the plain bytes that reach to this place at least, after which fewer than 16 bytes are left.
fn plain_end(bytes: &[u8], from: usize, most: u8) -> usize
    requires most { (most ≡ 127) ⊎ (most ≡ 255) }
    requires within { from ≤ length bytes.now }
    requires plain { PlainBetween most bytes.now 0 from }
    ensures within { result ≤ length bytes.now }
    ensures plain { PlainBetween most bytes.now 0 result }
{
    if bytes.len() - from < 8 {
        return plain_end_by_one(bytes, from, most);
    }
    let plain = plain_lanes::<8>(bytes, from, most);
    if plain < 8 {
        return from + plain;
    }
    plain_end_by_one(bytes, from + 8, most)
}

/// The same, a byte at a time.
#[inline(always)]
fn plain_end_by_one(bytes: &[u8], from: usize, most: u8) -> usize
    requires within { from ≤ length bytes.now }
    requires plain { PlainBetween most bytes.now 0 from }
    ensures within { result ≤ length bytes.now }
    ensures plain { PlainBetween most bytes.now 0 result }
{
    let mut at = from;
    while at < bytes.len() && is_plain(bytes[at], most) {
        at += 1;
    }
    at
}

/// How many of the `N` bytes at the place are plain, from the first one on.
#[inline(always)]
fn plain_lanes<const N: usize>(bytes: &[u8], at: usize, most: u8) -> usize
    requires most { (most ≡ 127) ⊎ (most ≡ 255) }
    requires room { at + N ≤ length bytes.now }
    requires few { N ≤ 64 }
    ensures within { result ≤ N }
    ensures plain { PlainBetween most bytes.now at (at + result) }
{
    let stops = stops::<N>(bytes, at, most);
    if stops == 0 {
        N
    } else {
        stops.trailing_zeros() as usize
    }
}

/// A bit for each of the `N` bytes at the place, set if the byte is not plain.
#[inline(always)]
fn stops<const N: usize>(bytes: &[u8], at: usize, most: u8) -> u64
    requires most { (most ≡ 127) ⊎ (most ≡ 255) }
    requires room { at + N ≤ length bytes.now }
    requires few { N ≤ 64 }
    ensures { result ≡ mask_l (map (λ b. not (is_plain most b)) (chunk at N bytes.now)) }
{
    let lanes = Simd::<u8, N>::from_slice(&bytes[at..]);
    let control = lanes.simd_lt(Simd::splat(b' '));
    let above = lanes.simd_gt(Simd::splat(most));
    let escaped = lanes.simd_eq(Simd::splat(b'"')) | lanes.simd_eq(Simd::splat(b'\\'));
    (control | above | escaped).to_bitmask()
}

fn is_plain(byte: u8, most: u8) -> bool
    ensures { result ≡ is_plain most byte }
{
    ((byte >= b' ') & (byte <= most)) & ((byte != b'"') & (byte != b'\\'))
}
