//! Inputs of targets as bytes.
ghost use Rattle.std.specs.Prelude.{◌≡◌, ◌++◌, ◌∷◌, ℕ, List, length, take, OnOk, OnErr, MatchResult, Some};
ghost use Rattle.entry_bytes.specs.Fields.{text_bytes, IsText};
ghost use Rattle.entry_bytes.specs.Change.{input_bytes, IsInput};
ghost use Rattle.entry_bytes.specs.Reading.{Gives, Blames, made_at};
ghost use Rattle.entry_bytes.specs.ChangeReading.{input_at, transformer_at, transformer_of};
ghost use Rattle.rule_targets.specs.Input.{IsNoneOrValid};

use crate::fault::ReadFault;
use crate::lists::{put_list, take_list};
use crate::numbers::{put_u8, take_u8};
use crate::texts::{put_text, take_text};
use json_text::{Bytes, NoMemory, Text};
use rule_targets::{GivenInput, SharedInput, Transformer};
use std::alloc::Global;

pub(crate) fn put_input(input: &Option<SharedInput>, out: &mut Bytes) -> Result<(), NoMemory>
    ensures bytes { OnOk result (out.new ≡ out.old ++ input_bytes input.now) }
    ensures fits { OnOk result (IsInput input.now) }
    ensures err { OnErr result (take (length out.old) out.new ≡ out.old) }
{
    match input {
        Some(input) => put_given(input.given(), out),
        None => put_u8(0, out),
    }
}

fn put_given(input: &GivenInput, out: &mut Bytes) -> Result<(), NoMemory>
    ensures bytes { OnOk result (out.new ≡ out.old ++ input_bytes (Some input.now)) }
    ensures fits { OnOk result (IsInput (Some input.now)) }
    ensures err { OnErr result (take (length out.old) out.new ≡ out.old) }
{
    match input {
        GivenInput::Input(text) => put_kind(1, text, out),
        GivenInput::InputPath(text) => put_kind(2, text, out),
        GivenInput::InputTransformer(transformer) => put_transformer(transformer, out),
    }
}

fn put_kind(kind: u8, text: &Text, out: &mut Bytes) -> Result<(), NoMemory>
    ensures bytes { OnOk result (out.new ≡ out.old ++ (kind ∷ text_bytes text.now)) }
    ensures fits { OnOk result (IsText text.now) }
    ensures err { OnErr result (take (length out.old) out.new ≡ out.old) }
{
    put_u8(kind, out)?;
    put_text(text.as_str(), out)
}

fn put_transformer(transformer: &Transformer, out: &mut Bytes) -> Result<(), NoMemory>
    ensures bytes { OnOk result (out.new ≡ out.old ++ input_bytes (Some (GivenInput.InputTransformer transformer.now))) }
    ensures fits { OnOk result (IsInput (Some (GivenInput.InputTransformer transformer.now))) }
    ensures err { OnErr result (take (length out.old) out.new ≡ out.old) }
{
    put_u8(3, out)?;
    put_list(transformer.paths(), out)?;
    put_text(transformer.template(), out)
}

/// The input at the front, and the bytes after it. It may not be valid.
#[tactic(auto, unfolding(crate::specs::ChangeReading::input_at))]
pub(crate) fn take_input(
    alloc: Global,
    bytes: &[u8],
) -> Result<(Option<GivenInput>, &[u8]), ReadFault>
    ensures { Gives (λ x. (x.0, x.1.now)) result (input_at bytes.now) }
{
    let (kind, rest) = take_u8(bytes)?;
    match kind {
        0 => Ok((None, rest)),
        1 => {
            let (text, rest) = take_text(alloc, rest)?;
            Ok((Some(GivenInput::Input(text)), rest))
        }
        2 => {
            let (text, rest) = take_text(alloc, rest)?;
            Ok((Some(GivenInput::InputPath(text)), rest))
        }
        3 => {
            let (transformer, rest) = take_transformer(alloc, rest)?;
            Ok((Some(GivenInput::InputTransformer(transformer)), rest))
        }
        _ => Err(ReadFault::NotSpelled),
    }
}

fn take_transformer(alloc: Global, bytes: &[u8]) -> Result<(Transformer, &[u8]), ReadFault>
    ensures { Gives (λ x. (x.0, x.1.now)) result (made_at transformer_of transformer_at bytes.now) }
{
    let (paths, rest) = take_list(alloc, bytes)?;
    let (template, rest) = take_text(alloc, rest)?;
    Ok((Transformer::new(paths, template), rest))
}

/// The input, read. Refused if it is not valid.
pub(crate) fn valid_input(
    alloc: Global,
    given: Option<GivenInput>,
) -> Result<Option<SharedInput>, ReadFault>
    ensures { MatchResult result (λ input. (input ≡ given) × IsNoneOrValid given) (Blames (¬ IsNoneOrValid given)) }
{
    let Some(given) = given else {
        return Ok(None);
    };
    match SharedInput::read(alloc, given)? {
        Some(input) => Ok(Some(input)),
        None => Err(ReadFault::NotSpelled),
    }
}
