//! Lists as bytes: their length, and their items.
ghost use Rattle.std.specs.Prelude.{◌≡◌, ◌<◌, ◌^◌, ◌++◌, ℕ, List, length, take, OnOk, OnErr, Option};
ghost use Rattle.std.specs.Option.{option_map};
ghost use Rattle.std.specs.List.{flat_map, AllByRecursion};
ghost use Rattle.entry_bytes.specs.Fields.{text_bytes, list_bytes, optional_bytes, IsText, IsList, IsOptional};
ghost use Rattle.entry_bytes.specs.Change.{path_bytes, target_bytes, IsPath, IsTarget};
ghost use Rattle.entry_bytes.specs.Duty.{duty_bytes, IsDuty};
ghost use Rattle.entry_bytes.specs.Reading.{Gives, text_at, items_at, list_at, optional_at};
ghost use Rattle.entry_bytes.specs.ChangeReading.{path_at};

use crate::duty::put_duty;
use crate::fault::ReadFault;
use crate::numbers::{put_len, put_u8, take_u32};
use crate::target::put_target;
use crate::texts::{put_text, take_text};
use delivery_duties::NewDuty;
use json_text::{Bytes, NoMemory, Text};
use rule_targets::Target;
use std::alloc::Global;

/// An item of a list that is written.
pub(crate) trait Put {
    ghost bytes_of: { Self → List ℕ };

    ghost fits: { Self → Type 0 };

    fn put(&self, out: &mut Bytes) -> Result<(), NoMemory>
        ensures bytes { OnOk result (out.new ≡ out.old ++ bytes_of self.now) }
        ensures fits { OnOk result (fits self.now) }
        ensures err { OnErr result (take (length out.old) out.new ≡ out.old) };
}

/// An item of a list that is read.
pub(crate) trait Take: Sized {
    ghost at: { List ℕ → Option (Self × List ℕ) };

    fn take(alloc: Global, bytes: &[u8]) -> Result<(Self, &[u8]), ReadFault>
        ensures { Gives (λ x. (x.0, x.1.now)) result (at bytes.now) };
}

impl Put for Text {
    ghost bytes_of = { text_bytes };

    ghost fits = { IsText };

    fn put(&self, out: &mut Bytes) -> Result<(), NoMemory> {
        put_text(self.as_str(), out)
    }
}

impl Take for Text {
    ghost at = { text_at };

    fn take(alloc: Global, bytes: &[u8]) -> Result<(Text, &[u8]), ReadFault> {
        take_text(alloc, bytes)
    }
}

impl Put for (Text, Text) {
    ghost bytes_of = { path_bytes };

    ghost fits = { IsPath };

    fn put(&self, out: &mut Bytes) -> Result<(), NoMemory> {
        put_text(self.0.as_str(), out)?;
        put_text(self.1.as_str(), out)
    }
}

impl Take for (Text, Text) {
    ghost at = { path_at };

    fn take(alloc: Global, bytes: &[u8]) -> Result<((Text, Text), &[u8]), ReadFault> {
        let (key, rest) = take_text(alloc, bytes)?;
        let (path, rest) = take_text(alloc, rest)?;
        Ok(((key, path), rest))
    }
}

impl Put for Target {
    ghost bytes_of = { target_bytes };

    ghost fits = { IsTarget };

    fn put(&self, out: &mut Bytes) -> Result<(), NoMemory> {
        put_target(self, out)
    }
}

impl Put for NewDuty {
    ghost bytes_of = { duty_bytes };

    ghost fits = { IsDuty };

    fn put(&self, out: &mut Bytes) -> Result<(), NoMemory> {
        put_duty(self, out)
    }
}

/// A list of 2^32 items or more is refused as out of memory.
pub(crate) fn put_list<T: Put>(items: &[T], out: &mut Bytes) -> Result<(), NoMemory>
    ensures bytes { OnOk result (out.new ≡ out.old ++ list_bytes T.bytes_of items.now) }
    ensures fits { OnOk result (IsList T.fits items.now) }
    ensures err { OnErr result (take (length out.old) out.new ≡ out.old) }
{
    put_len(items.len(), out)?;
    put_items(items, out)
}

fn put_items<T: Put>(items: &[T], out: &mut Bytes) -> Result<(), NoMemory>
    ensures bytes { OnOk result (out.new ≡ out.old ++ flat_map T.bytes_of items.now) }
    ensures fits { OnOk result (AllByRecursion T.fits items.now) }
    ensures err { OnErr result (take (length out.old) out.new ≡ out.old) }
{
    for item in items {
        item.put(out)?;
    }
    Ok(())
}

/// Writes the texts as a list. A list of 2^32 texts or more is refused as out of memory.
pub fn put_texts(texts: &[Text], out: &mut Bytes) -> Result<(), NoMemory>
    ensures bytes { OnOk result (out.new ≡ out.old ++ list_bytes text_bytes texts.now) }
    ensures fits { OnOk result (IsList IsText texts.now) }
    ensures err { OnErr result (take (length out.old) out.new ≡ out.old) }
{
    put_list(texts, out)
}

/// The list of texts at the front, and the bytes after it.
pub fn take_texts(alloc: Global, bytes: &[u8]) -> Result<(Vec<Text>, &[u8]), ReadFault>
    ensures { Gives (λ x. (x.0.items, x.1.now)) result (list_at text_at bytes.now) }
{
    take_list(alloc, bytes)
}

/// Writes the texts as a list, or that there is none.
pub fn put_optional_texts(texts: Option<&[Text]>, out: &mut Bytes) -> Result<(), NoMemory>
    ensures bytes { OnOk result (out.new ≡ out.old ++ optional_bytes (list_bytes text_bytes) (option_map (λ t. t.now) texts.entry)) }
    ensures fits { OnOk result (IsOptional (IsList IsText) (option_map (λ t. t.now) texts.entry)) }
    ensures err { OnErr result (take (length out.old) out.new ≡ out.old) }
{
    match texts {
        Some(texts) => {
            put_u8(1, out)?;
            put_texts(texts, out)
        }
        None => put_u8(0, out),
    }
}

/// The list of texts at the front, if there is one, and the bytes after it.
#[tactic(auto, unfolding(crate::specs::Reading::optional_at))]
pub fn take_optional_texts(
    alloc: Global,
    bytes: &[u8],
) -> Result<(Option<Vec<Text>>, &[u8]), ReadFault>
    ensures { Gives (λ x. (option_map (λ t. t.items) x.0, x.1.now)) result (optional_at (list_at text_at) bytes.now) }
{
    match bytes {
        [] => Err(ReadFault::NotSpelled),
        [0, rest @ ..] => Ok((None, rest)),
        [1, rest @ ..] => {
            let (texts, rest) = take_texts(alloc, rest)?;
            Ok((Some(texts), rest))
        }
        [_, ..] => Err(ReadFault::NotSpelled),
    }
}

pub(crate) fn take_list<T: Take + Drop>(
    alloc: Global,
    bytes: &[u8],
) -> Result<(Vec<T>, &[u8]), ReadFault>
    ensures { Gives (λ x. (x.0.items, x.1.now)) result (list_at T.at bytes.now) }
{
    let (count, rest) = take_u32(bytes)?;
    take_items(alloc, count, rest)
}

/// Memory grows with the items that are found, not with the count.
fn take_items<T: Take + Drop>(
    alloc: Global,
    count: u32,
    bytes: &[u8],
) -> Result<(Vec<T>, &[u8]), ReadFault>
    ensures { Gives (λ x. (x.0.items, x.1.now)) result (items_at T.at count bytes.now) }
{
    let mut items = Vec::new(alloc);
    let mut rest = bytes;
    for _ in 0..count {
        match T::take(alloc, rest) {
            Ok((item, after)) => {
                items.push(item)?;
                rest = after;
            }
            Err(fault) => return Err(fault),
        }
    }
    Ok((items, rest))
}
