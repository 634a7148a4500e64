//! A template's text is rewritten, so that json_text reads it: each string gets an `S` in front of its text, and each name
//! outside strings becomes a string, an `N` and the name.
ghost use Rattle.std.specs.Prelude.{◌≡◌, ◌≢◌, ◌++◌, ◌∷◌, [], ℕ, List, true, false, IfOk, OnOk, MatchResult, MatchOption};
ghost use Rattle.json_text.specs.Grammar.{is_space};
ghost use Rattle.input_transform.specs.Names.{Paths};
ghost use Rattle.input_transform.specs.Letters.{Token, AreTokens, BeginsToken, is_inside, colon_next, given, letters, token_letters};

use super::JsonPath;
use super::fault::TemplateFault;
use super::name::{known_named, mark_cut};
use json_text::{Bytes, NoMemory, Text};
use std::alloc::Global;

/// The rewritten text. `NotTemplate` if a string has no end, or a `<` outside strings begins no name, or a name is a key.
pub(crate) fn lettered(
    alloc: Global,
    text: &[u8],
    paths: &[(Text, JsonPath)],
) -> Result<Bytes, TemplateFault>
    ensures found { IfOk result (λ r. (ts : List Token) × AreTokens paths.now ts × (text.now ≡ given ts) × (r ≡ letters ts)) }
    ensures only { (ts : List Token) → AreTokens paths.now ts → text.now ≡ given ts
        → MatchResult result (λ r. r ≡ letters ts) (λ e. e ≡ TemplateFault.NoMemory) }
{
    let mut out = Bytes::new(alloc);
    let mut rest = text;
    while !rest.is_empty() {
        match push_token(rest, paths, &mut out) {
            Ok(after) => rest = after,
            Err(fault) => return Err(fault),
        }
    }
    Ok(out)
}

/// Adds the token at the front, rewritten, and returns the bytes after it.
fn push_token<'a>(
    bytes: &'a [u8],
    paths: &[(Text, JsonPath)],
    out: &mut Bytes,
) -> Result<&'a [u8], TemplateFault>
    ensures found { IfOk result (λ r. (t : Token) × BeginsToken paths.now bytes.now t r.now × (out.new ≡ out.old ++ token_letters t)) }
    ensures only { (t : Token) (after : List ℕ) → BeginsToken paths.now bytes.now t after
        → MatchResult result (λ r. (r.now ≡ after) × (out.new ≡ out.old ++ token_letters t)) (λ e. e ≡ TemplateFault.NoMemory) }
{
    match bytes {
        [b'"', rest @ ..] => push_string(rest, out),
        [b'<', rest @ ..] => push_name(rest, paths, out),
        [byte, rest @ ..] => push_plain(*byte, rest, out),
        [] => Err(TemplateFault::NotTemplate),
    }
}

fn push_plain<'a>(byte: u8, rest: &'a [u8], out: &mut Bytes) -> Result<&'a [u8], TemplateFault>
    requires no_string { byte ≢ 34 }
    requires no_name { byte ≢ 60 }
    ensures found { (paths : Paths) → IfOk result (λ r. (t : Token) × BeginsToken paths (byte ∷ rest.now) t r.now × (out.new ≡ out.old ++ token_letters t)) }
    ensures only { (paths : Paths) (t : Token) (after : List ℕ) → BeginsToken paths (byte ∷ rest.now) t after
        → MatchResult result (λ r. (r.now ≡ after) × (out.new ≡ out.old ++ token_letters t)) (λ e. e ≡ TemplateFault.NoMemory) }
{
    match out.extend(&[byte]) {
        Ok(()) => Ok(rest),
        Err(_) => Err(TemplateFault::NoMemory),
    }
}

/// Adds a string, of which the first quotation mark comes before the bytes.
fn push_string<'a>(bytes: &'a [u8], out: &mut Bytes) -> Result<&'a [u8], TemplateFault>
    ensures found { (paths : Paths) → IfOk result (λ r. (t : Token) × BeginsToken paths (34 ∷ bytes.now) t r.now × (out.new ≡ out.old ++ token_letters t)) }
    ensures only { (paths : Paths) (t : Token) (after : List ℕ) → BeginsToken paths (34 ∷ bytes.now) t after
        → MatchResult result (λ r. (r.now ≡ after) × (out.new ≡ out.old ++ token_letters t)) (λ e. e ≡ TemplateFault.NoMemory) }
{
    match string_cut(bytes) {
        Some((inside, rest)) => match push_between(b"\"S", inside, out) {
            Ok(()) => Ok(rest),
            Err(_) => Err(TemplateFault::NoMemory),
        },
        None => Err(TemplateFault::NotTemplate),
    }
}

/// Adds a name as a string, of which the `<` comes before the bytes.
fn push_name<'a>(
    bytes: &'a [u8],
    paths: &[(Text, JsonPath)],
    out: &mut Bytes,
) -> Result<&'a [u8], TemplateFault>
    ensures found { IfOk result (λ r. (t : Token) × BeginsToken paths.now (60 ∷ bytes.now) t r.now × (out.new ≡ out.old ++ token_letters t)) }
    ensures only { (t : Token) (after : List ℕ) → BeginsToken paths.now (60 ∷ bytes.now) t after
        → MatchResult result (λ r. (r.now ≡ after) × (out.new ≡ out.old ++ token_letters t)) (λ e. e ≡ TemplateFault.NoMemory) }
{
    match mark_cut(bytes) {
        Some((name, rest)) => match known_named(paths, name) {
            Some(_) => {
                if is_colon_next(rest) {
                    return Err(TemplateFault::NotTemplate);
                }
                match push_between(b"\"N", name, out) {
                    Ok(()) => Ok(rest),
                    Err(_) => Err(TemplateFault::NoMemory),
                }
            }
            None => Err(TemplateFault::NotTemplate),
        },
        None => Err(TemplateFault::NotTemplate),
    }
}

/// Adds the front, the bytes and a quotation mark.
fn push_between(front: &[u8], bytes: &[u8], out: &mut Bytes) -> Result<(), NoMemory>
    ensures { OnOk result (out.new ≡ out.old ++ (front.now ++ (bytes.now ++ 34 ∷ []))) }
{
    out.extend(front)?;
    out.extend(bytes)?;
    out.extend(b"\"")
}

/// The bytes before the quotation mark that ends a string, and those after it.
fn string_cut(bytes: &[u8]) -> Option<(&[u8], &[u8])>
    ensures { MatchOption result
        ((inside after : List ℕ) → bytes.now ≡ inside ++ 34 ∷ after → is_inside false inside ≡ true → ⊥)
        (λ r. (bytes.now ≡ r.0.now ++ 34 ∷ r.1.now) × (is_inside false r.0.now ≡ true)) }
{
    let mut escaped = false;
    for (n, byte) in bytes.iter().enumerate() {
        if escaped {
            escaped = false;
        } else if *byte == b'"' {
            return Some((&bytes[..n], &bytes[n + 1..]));
        } else {
            escaped = *byte == b'\\';
        }
    }
    None
}

/// Whether the first byte that is no white space is a colon.
fn is_colon_next(bytes: &[u8]) -> bool
    ensures { result ≡ colon_next bytes.now }
{
    for byte in bytes {
        if !is_space(*byte) {
            return *byte == b':';
        }
    }
    false
}

fn is_space(byte: u8) -> bool
    ensures { result ≡ is_space byte }
{
    byte == b' ' || byte == b'\t' || byte == b'\n' || byte == b'\r'
}
