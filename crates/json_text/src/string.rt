//! The characters of a string, byte for byte.
ghost use Rattle.std.specs.Prelude.{◌≡◌, ◌≤◌, ◌<◌, ◌-◌, ◌+◌, ◌&&◌, ◌==◌, not, false, ℕ, List, [], ◌++◌, Some, None, Ok, Err, IfOk, IfErr, OnOk, length, take, slice_index, ◌≢◌, true, IfSome, encode_utf8};
ghost use Rattle.std.specs.Char.{IsScalar};
ghost use Rattle.json_text.specs.Characters.{escape_of, hex_digit_of};
ghost use Rattle.json_text.specs.Reading.{digit_fits, between, backslash, hex, high, tail, is_within, unescaped_step};
ghost use Rattle.json_text.specs.Scan.{scan_string, Passes, Scanned, Taken, HasRoom, IsUnit, IsUnitSoFar, GoesToUnit, StopsAt, first_step, after_of};
ghost use Rattle.json_text.specs.Plain.{PlainBetween};

use super::Text;
use super::fault::TokenFault;
use super::plain::{ASCII, plain_len};
use std::alloc::{AllocError, Global};

/// The bytes that a string with escapes or with characters of several bytes is first read to, if so many are left.
const FIRST_ROOM: usize = 1_000;

/// A string's text, and the number of bytes after its first quotation mark.
pub(crate) fn string(alloc: Global, bytes: &[u8]) -> Result<(Text, usize), TokenFault>
    ensures ok { IfOk result (λ r. scan_string between [] 0 bytes.now ≡ Ok (r.0, r.1)) }
    ensures within { IfOk result (λ r. r.1 ≤ length bytes.now) }
    ensures ends { (n : ℕ) → result ≡ Err (TokenFault.Stop n) → n ≤ length bytes.now }
    ensures stop { (n : ℕ) → result ≡ Err (TokenFault.Stop n)
        → scan_string between [] 0 bytes.now ≡ Err n }
{
    let plain = plain_len(bytes, ASCII);
    if plain == bytes.len() {
        return Err(TokenFault::Stop(plain));
    }
    if bytes[plain] != b'"' {
        return string_after(alloc, bytes, plain);
    }
    Ok((Text::from_utf8(alloc, &bytes[..plain])?, plain + 1))
}

/// The same if this number of bytes at the front is plain. It has no more room in the end than its text needs.
#[inline(never)]
#[tactic(auto, unfolding(crate::specs::Scan::scan_string))]
fn string_after(alloc: Global, bytes: &[u8], plain: usize) -> Result<(Text, usize), TokenFault>
    requires within { plain ≤ length bytes.now }
    requires plain { PlainBetween 127 bytes.now 0 plain }
    ensures ok { IfOk result (λ r. scan_string between [] 0 bytes.now ≡ Ok (r.0, r.1)) }
    ensures within { IfOk result (λ r. r.1 ≤ length bytes.now) }
    ensures ends { (n : ℕ) → result ≡ Err (TokenFault.Stop n) → n ≤ length bytes.now }
    ensures stop { (n : ℕ) → result ≡ Err (TokenFault.Stop n)
        → scan_string between [] 0 bytes.now ≡ Err n }
{
    let mut text = Vec::with_capacity(alloc, bytes.len().min(FIRST_ROOM))?;
    text.extend_from_slice(&bytes[..plain])?;
    let mut at = plain;
    while at < bytes.len() && bytes[at] != b'"' {
        at = after(at, push_characters(&mut text, &bytes[at..]))?;
    }
    if at == bytes.len() {
        return Err(TokenFault::Stop(at));
    }
    Ok((Text::from_utf8(alloc, &text)?, at + 1))
}

/// Puts the characters at the front, of which the first is no quotation mark, and answers how many bytes they take.
#[inline(always)]
#[tactic(auto, unfolding(crate::specs::Scan::scan_string))]
fn push_characters(text: &mut Vec<u8>, bytes: &[u8]) -> Result<usize, TokenFault>
    requires some { 0 < length bytes.now }
    requires no_end { slice_index bytes.now 0 ≢ 34 }
    ensures scanned { Scanned between text.old.items bytes.now between text.new.items result }
    ensures goes { IfOk result (λ n. 0 < n) }
{
    if bytes[0] == b'\\' {
        return after(1, push_escaped(text, &bytes[1..]));
    }
    let plain = plain_len(bytes, ASCII);
    if plain > 0 {
        push_front(text, bytes, plain)?;
        return Ok(plain);
    }
    let len = character_len(bytes)?;
    text.extend_from_slice(&bytes[..len])?;
    Ok(len)
}

/// Puts the bytes at the front. A few are put with those after them, since 16 bytes are written at once.
#[inline(always)]
fn push_front(text: &mut Vec<u8>, bytes: &[u8], len: usize) -> Result<(), AllocError>
    requires { len ≤ length bytes.now }
    ensures { OnOk result (text.new.items ≡ text.old.items ++ take len bytes.now) }
{
    if len > 16 || bytes.len() < 16 {
        return text.extend_from_slice(&bytes[..len]);
    }
    text.extend_from_slice(&bytes[..16])?;
    let end = text.as_slice().len() - (16 - len);
    text.truncate(end);
    Ok(())
}

/// Adds the character after a backslash, and returns the number of its bytes.
#[tactic(auto, unfolding(crate::specs::Scan::scan_string))]
fn push_escaped(text: &mut Vec<u8>, bytes: &[u8]) -> Result<usize, TokenFault>
    ensures { Scanned backslash text.old.items bytes.now between text.new.items result }
{
    match bytes {
        [b'u', digits @ ..] => after(1, push_unicode(text, digits)),
        [byte, ..] => match unescaped(*byte) {
            Some(character) => match text.push(character) {
                Ok(()) => Ok(1),
                Err(_) => Err(TokenFault::NoMemory),
            },
            None => Err(TokenFault::Stop(0)),
        },
        [] => Err(TokenFault::Stop(0)),
    }
}

/// The same result with `count` more bytes before it.
#[inline(always)]
fn after(count: usize, taken: Result<usize, TokenFault>) -> Result<usize, TokenFault>
    requires { HasRoom count taken }
    ensures { result ≡ after_of count taken }
{
    match taken {
        Ok(n) => Ok(count + n),
        Err(TokenFault::Stop(n)) => Err(TokenFault::Stop(count + n)),
        Err(TokenFault::NoMemory) => Err(TokenFault::NoMemory),
    }
}

/// The character that a backslash and this byte spell.
fn unescaped(byte: u8) -> Option<u8>
    ensures { result ≡ escape_of byte }
{
    match byte {
        b'"' | b'\\' | b'/' => Some(byte),
        b'b' => Some(8),
        b'f' => Some(12),
        b'n' => Some(b'\n'),
        b'r' => Some(b'\r'),
        b't' => Some(b'\t'),
        _ => None,
    }
}

/// Puts the character of one code unit or of a pair of them, and answers how many bytes they take.
#[tactic(auto, unfolding(crate::specs::Scan::scan_string))]
fn push_unicode(text: &mut Vec<u8>, digits: &[u8]) -> Result<usize, TokenFault>
    ensures { Scanned (hex None 3 0) text.old.items digits.now between text.new.items result }
{
    let unit = code_unit(digits, None)?;
    if (0xD800..=0xDBFF).contains(&unit) {
        return after(4, push_pair(text, unit, &digits[4..]));
    }
    push_character(text, unit)?;
    Ok(4)
}

/// Adds the character of a high surrogate and of the low one that is spelled after it.
#[tactic(auto, unfolding(crate::specs::Scan::scan_string))]
fn push_pair(text: &mut Vec<u8>, lead: u32, bytes: &[u8]) -> Result<usize, TokenFault>
    requires { is_within 0xD800 0xDBFF lead ≡ true }
    ensures { Scanned (high lead) text.old.items bytes.now between text.new.items result }
{
    match bytes {
        [b'\\', b'u', digits @ ..] => after(2, push_low(text, lead, digits)),
        [b'\\', ..] => Err(TokenFault::Stop(1)),
        _ => Err(TokenFault::Stop(0)),
    }
}

/// Puts the character of a high surrogate and of the low one that the digits spell.
fn push_low(text: &mut Vec<u8>, lead: u32, digits: &[u8]) -> Result<usize, TokenFault>
    requires { is_within 0xD800 0xDBFF lead ≡ true }
    ensures { Scanned (hex (Some lead) 3 0) text.old.items digits.now between text.new.items result }
{
    let low = code_unit(digits, Some(lead))?;
    push_character(text, 0x10000 + 0x400 * (lead - 0xD800) + (low - 0xDC00))?;
    Ok(4)
}

fn push_character(text: &mut Vec<u8>, character: u32) -> Result<(), TokenFault>
    requires { IsScalar character }
    ensures ok { OnOk result (text.new.items ≡ text.old.items ++ encode_utf8 character) }
    ensures memory { IfErr result (λ e. e ≡ TokenFault.NoMemory) }
{
    let mut bytes = [0; 4];
    match char::from_u32(character) {
        Some(character) => text.extend_from_slice(character.encode_utf8(&mut bytes).as_bytes())?,
        None => unreachable!(),
    }
    Ok(())
}

/// The code unit that four hexadecimal digits spell: after a high surrogate a low one, otherwise no low one.
fn code_unit(digits: &[u8], lead: Option<u32>) -> Result<u32, TokenFault>
    ensures { IsUnit lead digits.now result }
{
    let mut unit = 0;
    for place in 0..4 {
        match with_digit(digits, place, lead, unit) {
            Some(next) => unit = next,
            None => return Err(TokenFault::Stop(place)),
        }
    }
    Ok(unit)
}

/// The unit so far with the digit at the place, if there is one with which it can continue.
fn with_digit(digits: &[u8], place: usize, lead: Option<u32>, unit: u32) -> Option<u32>
    requires place { place < 4 }
    requires unit { IsUnitSoFar lead (4 - place) unit }
    ensures some { IfSome result (λ next. GoesToUnit lead digits.now place unit next) }
    ensures none { result ≡ None → StopsAt lead digits.now place unit }
{
    let digit = hex_digit(*digits.get(place)?)?;
    if fits(lead, place, unit, digit) {
        Some(16 * unit + digit)
    } else {
        None
    }
}

/// Whether the unit can go on with the digit.
fn fits(lead: Option<u32>, place: usize, unit: u32, digit: u32) -> bool
    requires { place < 4 }
    ensures { result ≡ digit_fits lead (4 - (place + 1)) unit digit }
{
    match lead {
        None => !(place == 1 && unit == 0xD && digit >= 0xC),
        Some(_) => match place {
            0 => digit == 0xD,
            1 => digit >= 0xC,
            _ => true,
        },
    }
}

fn hex_digit(byte: u8) -> Option<u32>
    ensures { result ≡ hex_digit_of byte }
{
    match byte {
        b'0'..=b'9' => Some(u32::from(byte - b'0')),
        b'A'..=b'F' => Some(u32::from(byte - b'A') + 10),
        b'a'..=b'f' => Some(u32::from(byte - b'a') + 10),
        _ => None,
    }
}

/// How many bytes the character at the front takes, which is not escaped.
#[tactic(auto, unfolding(crate::specs::Scan::scan_string))]
fn character_len(bytes: &[u8]) -> Result<usize, TokenFault>
    requires some { 0 < length bytes.now }
    requires no_end { slice_index bytes.now 0 ≢ 34 }
    requires no_escape { slice_index bytes.now 0 ≢ 92 }
    ensures taken { Taken between bytes.now result }
    ensures goes { IfOk result (λ n. 0 < n) }
{
    match bytes[0] {
        b' '..=0x7F => Ok(1),
        first => match tail_of(first) {
            Some((low, up, more)) => after(1, tail_len(&bytes[1..], low, up, more)),
            None => Err(TokenFault::Stop(0)),
        },
    }
}

/// For a character of several bytes: the range of the byte after the first one, and the number of bytes after that.
fn tail_of(first: u8) -> Option<(u8, u8, usize)>
    requires { is_within 32 127 first ≡ false }
    ensures step { (text : List ℕ) → unescaped_step text first ≡ first_step text first result }
    ensures range { IfSome result (λ t. t.0 ≤ t.1) }
{
    match first {
        0xC2..=0xDF => Some((0x80, 0xBF, 0)),
        0xE0 => Some((0xA0, 0xBF, 1)),
        0xED => Some((0x80, 0x9F, 1)),
        0xE1..=0xEF => Some((0x80, 0xBF, 1)),
        0xF0 => Some((0x90, 0xBF, 2)),
        0xF1..=0xF3 => Some((0x80, 0xBF, 2)),
        0xF4 => Some((0x80, 0x8F, 2)),
        _ => None,
    }
}

/// The number of bytes of the rest of a character: the first in the range, and `more` others.
#[tactic(auto, unfolding(crate::specs::Scan::scan_string))]
fn tail_len(bytes: &[u8], low: u8, up: u8, more: usize) -> Result<usize, TokenFault>
    requires { low ≤ up }
    ensures { Taken (tail low (up - low) more) bytes.now result }
{
    match bytes {
        [byte, rest @ ..] if low <= *byte && *byte <= up => match more {
            0 => Ok(1),
            _ => after(1, tail_len(rest, 0x80, 0xBF, more - 1)),
        },
        _ => Err(TokenFault::Stop(0)),
    }
}
