//! Texts and truth values as bytes.
ghost use Rattle.std.specs.Prelude.{◌≡◌, ◌<◌, ◌^◌, ◌++◌, ◌∷◌, [], length, take, IfOk, OnOk, OnErr, Some, None, if◌then◌else◌};
ghost use Rattle.std.specs.Option.{option_map};
ghost use Rattle.std.specs.Str.{is_utf8};
ghost use Rattle.entry_bytes.specs.Fields.{text_bytes, flag_bytes, optional_bytes, IsText, IsOptional};
ghost use Rattle.entry_bytes.specs.Reading.{Gives, text_at, flag_at, optional_at};

use crate::fault::ReadFault;
use crate::numbers::{put_len, put_u8, take_u32};
use json_text::{Bytes, NoMemory, Text};
use std::alloc::Global;

/// A text of 2^32 bytes or more is refused as out of memory.
pub fn put_text(text: &str, out: &mut Bytes) -> Result<(), NoMemory>
    ensures bytes { OnOk result (out.new ≡ out.old ++ text_bytes text.now) }
    ensures fits { OnOk result (IsText text.now) }
    ensures err { OnErr result (take (length out.old) out.new ≡ out.old) }
{
    put_len(text.len(), out)?;
    out.extend(text.as_bytes())
}

pub(crate) fn put_flag(flag: bool, out: &mut Bytes) -> Result<(), NoMemory>
    ensures bytes { OnOk result (out.new ≡ out.old ++ flag_bytes flag) }
    ensures err { OnErr result (take (length out.old) out.new ≡ out.old) }
{
    if flag { put_u8(1, out) } else { put_u8(0, out) }
}

pub(crate) fn put_optional_text(text: Option<&str>, out: &mut Bytes) -> Result<(), NoMemory>
    ensures bytes { OnOk result (out.new ≡ out.old ++ optional_bytes text_bytes (option_map (λ t. t.now) text.entry)) }
    ensures fits { OnOk result (IsOptional IsText (option_map (λ t. t.now) text.entry)) }
    ensures err { OnErr result (take (length out.old) out.new ≡ out.old) }
{
    match text {
        Some(text) => {
            put_u8(1, out)?;
            put_text(text, out)
        }
        None => put_u8(0, out),
    }
}

/// The text at the front, and the bytes after it. Its length is compared with what is left before anything else is done.
#[tactic(auto, unfolding(crate::specs::Reading::text_at))]
pub fn take_str(bytes: &[u8]) -> Result<(&str, &[u8]), ReadFault>
    ensures { Gives (λ x. (x.0.now, x.1.now)) result (text_at bytes.now) }
{
    let (len, rest) = take_u32(bytes)?;
    let len = len as usize;
    if rest.len() < len {
        return Err(ReadFault::NotSpelled);
    }
    let (front, rest) = rest.split_at(len);
    let text = text_of(front)?;
    Ok((text, rest))
}

/// The text of the bytes, if they are UTF-8.
fn text_of(bytes: &[u8]) -> Result<&str, ReadFault>
    ensures { Gives (λ t. t.now) result (if is_utf8 bytes.now then Some bytes.now else None) }
{
    match str::from_utf8(bytes) {
        Ok(text) => Ok(text),
        Err(_) => Err(ReadFault::NotSpelled),
    }
}

/// A copy of the text at the front, and the bytes after it.
pub fn take_text(alloc: Global, bytes: &[u8]) -> Result<(Text, &[u8]), ReadFault>
    ensures { Gives (λ x. (x.0, x.1.now)) result (text_at bytes.now) }
{
    let (text, rest) = take_str(bytes)?;
    Ok((Text::from_str(alloc, text)?, rest))
}

#[tactic(auto, unfolding(crate::specs::Reading::flag_at))]
pub(crate) fn take_flag(bytes: &[u8]) -> Result<(bool, &[u8]), ReadFault>
    ensures { Gives (λ x. (x.0, x.1.now)) result (flag_at bytes.now) }
{
    match bytes {
        [] => Err(ReadFault::NotSpelled),
        [0, rest @ ..] => Ok((false, rest)),
        [1, rest @ ..] => Ok((true, rest)),
        [_, ..] => Err(ReadFault::NotSpelled),
    }
}

#[tactic(auto, unfolding(crate::specs::Reading::optional_at))]
pub(crate) fn take_optional_str(bytes: &[u8]) -> Result<(Option<&str>, &[u8]), ReadFault>
    ensures { Gives (λ x. (option_map (λ t. t.now) x.0, x.1.now)) result (optional_at text_at bytes.now) }
{
    match bytes {
        [] => Err(ReadFault::NotSpelled),
        [0, rest @ ..] => Ok((None, rest)),
        [1, rest @ ..] => {
            let (text, rest) = take_str(rest)?;
            Ok((Some(text), rest))
        }
        [_, ..] => Err(ReadFault::NotSpelled),
    }
}

/// A copy of the text, if there is one.
pub(crate) fn copied(alloc: Global, text: Option<&str>) -> Result<Option<Text>, NoMemory>
    ensures { IfOk result (λ copy. copy ≡ option_map (λ t. t.now) text.entry) }
{
    match text {
        Some(text) => Ok(Some(Text::from_str(alloc, text)?)),
        None => Ok(None),
    }
}
