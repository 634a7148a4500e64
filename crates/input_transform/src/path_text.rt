//! The steps of a path, byte for byte.
ghost use Rattle.std.specs.Prelude.{◌≡◌, ◌<◌, ◌≤◌, ◌^◌, ◌+◌, [], ◌∷◌, ◌++◌, ℕ, List, true, IfOk, MatchResult, MatchOption, length, take, drop, decimal};
ghost use Rattle.std.specs.List.{list_all};
ghost use Rattle.std.specs.Char.{digit_value};
ghost use Rattle.input_transform.specs.Path.{is_letter, IsStep, AreSteps, step_text, steps_text};
ghost use Rattle.input_transform.specs.Cuts.{IsNoLetterFirst, IsLetters, BeginsSo, Ends};
ghost use Rattle.input_transform.specs.declared.path.Step.{Step as PathStep};

use super::{PathFault, Step};
use json_text::{NoMemory, Text};
use std::alloc::Global;

/// The steps that all of the bytes write.
pub(crate) fn read_steps(alloc: Global, bytes: &[u8]) -> Result<Vec<Step>, PathFault>
    ensures found { IfOk result (λ steps. (bytes.now ≡ steps_text steps.items) × AreSteps steps.items) }
    ensures only { (steps : List PathStep) → AreSteps steps → bytes.now ≡ steps_text steps
        → MatchResult result (λ read. read.items ≡ steps) (λ e. e ≡ PathFault.NoMemory) }
{
    let mut steps = Vec::new(alloc);
    let mut rest = bytes;
    while !rest.is_empty() {
        match read_step(alloc, rest) {
            Ok((step, after)) => {
                steps.push(step)?;
                rest = after;
            }
            Err(fault) => return Err(fault),
        }
    }
    Ok(steps)
}

/// The step at the front, and the bytes after it.
fn read_step(alloc: Global, bytes: &[u8]) -> Result<(Step, &[u8]), PathFault>
    ensures found { IfOk result (λ r. BeginsSo bytes.now r.0 r.1.now) }
    ensures only { (step : PathStep) (rest : List ℕ) → BeginsSo bytes.now step rest → Ends step rest
        → MatchResult result (λ r. (r.0 ≡ step) × (r.1.now ≡ rest)) (λ e. e ≡ PathFault.NoMemory) }
{
    match bytes {
        [b'.', rest @ ..] => read_name(alloc, rest),
        [b'[', rest @ ..] => match read_place(rest) {
            Some((place, after)) => Ok((Step::Place(place), after)),
            None => Err(PathFault::NotPath),
        },
        _ => Err(PathFault::NotPath),
    }
}

/// The name after a point, and the bytes after it.
fn read_name(alloc: Global, bytes: &[u8]) -> Result<(Step, &[u8]), PathFault>
    ensures found { IfOk result (λ r. BeginsSo (46 ∷ bytes.now) r.0 r.1.now) }
    ensures only { (step : PathStep) (rest : List ℕ) → BeginsSo (46 ∷ bytes.now) step rest → Ends step rest
        → MatchResult result (λ r. (r.0 ≡ step) × (r.1.now ≡ rest)) (λ e. e ≡ PathFault.NoMemory) }
{
    let (name, rest) = bytes.split_at(letters_len(bytes));
    if name.is_empty() {
        return Err(PathFault::NotPath);
    }
    Ok((Step::Name(text_of_letters(alloc, name)?), rest))
}

/// How many letters are at the front.
fn letters_len(bytes: &[u8]) -> usize
    ensures within { result ≤ length bytes.now }
    ensures letters { IsLetters (take result bytes.now) }
    ensures longest { IsNoLetterFirst (drop result bytes.now) }
{
    for (n, byte) in bytes.iter().enumerate() {
        if !is_letter(*byte) {
            return n;
        }
    }
    bytes.len()
}

pub(crate) fn is_letter(byte: u8) -> bool
    ensures { result ≡ is_letter byte }
{
    byte.is_ascii_alphanumeric() || byte == b'_' || byte == b'-'
}

fn text_of_letters(alloc: Global, bytes: &[u8]) -> Result<Text, NoMemory>
    requires { IsLetters bytes.now }
    ensures { IfOk result (λ t. t ≡ bytes.now) }
{
    match str::from_utf8(bytes) {
        Ok(text) => Text::from_str(alloc, text),
        Err(_) => unreachable!(),
    }
}

/// The number after a bracket, and the bytes after its closing bracket.
fn read_place(bytes: &[u8]) -> Option<(u32, &[u8])>
    ensures { MatchOption result
        ((n : ℕ) (rest : List ℕ) → n < 2 ^ 31 → bytes.now ≡ decimal n ++ 93 ∷ rest → ⊥)
        (λ r. (r.0 < 2 ^ 31) × (bytes.now ≡ decimal r.0 ++ 93 ∷ r.1.now)) }
{
    match bytes {
        [first, rest @ ..] => match digit_of(*first) {
            Some(digit) => more_digits(digit, rest),
            None => None,
        },
        [] => None,
    }
}

/// The number that begins with the digits of `n`, and the bytes after its closing bracket.
fn more_digits(n: u32, bytes: &[u8]) -> Option<(u32, &[u8])>
    requires { n < 2 ^ 31 }
    ensures { MatchOption result
        ((m : ℕ) (rest : List ℕ) → m < 2 ^ 31 → decimal n ++ bytes.now ≡ decimal m ++ 93 ∷ rest → ⊥)
        (λ r. (r.0 < 2 ^ 31) × (decimal n ++ bytes.now ≡ decimal r.0 ++ 93 ∷ r.1.now)) }
{
    match bytes {
        [first, rest @ ..] => {
            if *first == b']' {
                return Some((n, rest));
            }
            match with_digit(n, *first) {
                Some(next) => more_digits(next, rest),
                None => None,
            }
        }
        [] => None,
    }
}

/// The number with one digit more.
fn with_digit(n: u32, byte: u8) -> Option<u32>
    requires { n < 2 ^ 31 }
    ensures { MatchOption result
        ((m : ℕ) (bytes rest : List ℕ) → m < 2 ^ 31 → decimal n ++ byte ∷ bytes ≡ decimal m ++ 93 ∷ rest → byte ≡ 93)
        (λ next. (next < 2 ^ 31) × (decimal next ≡ decimal n ++ byte ∷ [])) }
{
    match digit_of(byte) {
        Some(digit) => {
            let next = 10 * n as u64 + digit as u64;
            if n == 0 {
                return None;
            }
            if next >= 0x8000_0000 {
                return None;
            }
            Some(next as u32)
        }
        None => None,
    }
}

fn digit_of(byte: u8) -> Option<u32>
    ensures { MatchOption result (10 ≤ digit_value byte) (λ d. (d < 10) × (byte ≡ 48 + d)) }
{
    if byte.is_ascii_digit() {
        Some((byte - b'0') as u32)
    } else {
        None
    }
}
