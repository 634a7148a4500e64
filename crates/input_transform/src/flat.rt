//! A rewritten template as the pieces of its compact text.
ghost use Rattle.std.specs.Prelude.{◌≡◌, ◌≢◌, ◌<◌, ◌≤◌, ◌++◌, ◌∷◌, [], ℕ, List, suc, Some, None, OnOk, IfOk, MatchOption, length, drop, flat_map};
ghost use Rattle.input_transform.specs.declared.path.Step.{Step as PathStep};
ghost use Rattle.json_text.specs.Tree.{truth};
ghost use Rattle.json_text.specs.View.{tree_of};
ghost use Rattle.json_text.specs.Compact.{compact_text, quoted, escape};
ghost use Rattle.input_transform.specs.Names.{Scene, Source, Paths};
ghost use Rattle.input_transform.specs.Template.{name_before};
ghost use Rattle.input_transform.specs.Letters.{shown, steps_of, StandsFor, named_value, filled_string, filled_back, inside_of, comma_of};

use super::JsonPath;
use super::name::{known_named, mark_cut};
use super::piece::{Known, Piece, Pieces};
use json_text::{Json, NoMemory, Text};

/// Adds the compact text of a rewritten value, with its names as pieces.
pub(crate) fn push_value(
    json: &Json,
    paths: &[(Text, JsonPath)],
    out: &mut Pieces,
) -> Result<(), NoMemory>
    ensures { OnOk result ((scene : Scene) → shown scene (steps_of paths.now) out.new
        ≡ shown scene (steps_of paths.now) out.old ++ compact_text (filled_back paths.now scene (tree_of json.now))) }
{
    match json {
        Json::Null => out.push_bytes(b"null"),
        Json::Truth(value) => out.push_bytes(word_of(*value)),
        Json::Num(spelling) => out.push_bytes(spelling.as_str().as_bytes()),
        Json::Str(text) => push_string(text.as_str().as_bytes(), paths, out),
        Json::List(items) => {
            out.push_bytes(b"[")?;
            'items: for (i, item) in items.iter().enumerate() {
                push_comma(i, out)?;
                push_value(item, paths, out)?;
            }
            out.push_bytes(b"]")
        }
        Json::Obj(members) => {
            out.push_bytes(b"{")?;
            'members: for (i, member) in members.iter().enumerate() {
                push_comma(i, out)?;
                push_key(member.0.as_str().as_bytes(), out)?;
                push_value(&member.1, paths, out)?;
            }
            out.push_bytes(b"}")
        }
    }
}

fn word_of(value: bool) -> &'static [u8]
    ensures { result.now ≡ compact_text (truth value) }
{
    if value { b"true" } else { b"false" }
}

/// Adds a comma, unless this is the first element.
fn push_comma(place: usize, out: &mut Pieces) -> Result<(), NoMemory>
    ensures { OnOk result ((scene : Scene) (paths : List (List PathStep)) → shown scene paths out.new ≡ shown scene paths out.old ++ comma_of place) }
{
    if place == 0 {
        return out.push_bytes(b"");
    }
    out.push_bytes(b",")
}

/// Adds a key without its letter, and a colon.
fn push_key(key: &[u8], out: &mut Pieces) -> Result<(), NoMemory>
    ensures { OnOk result ((scene : Scene) (paths : List (List PathStep)) → shown scene paths out.new
        ≡ shown scene paths out.old ++ (quoted (drop 1 key.now) ++ 58 ∷ [])) }
{
    let name = without_letter(key);
    out.push_bytes(b"\"")?;
    out.push_escaped(name)?;
    out.push_bytes(b"\":")
}

fn without_letter(key: &[u8]) -> &[u8]
    ensures { result.now ≡ drop 1 key.now }
{
    match key.split_first() {
        Some((_letter, name)) => name,
        None => key,
    }
}

/// Adds a string of the rewritten text: a string with its names, or a name in the place of a value.
fn push_string(text: &[u8], paths: &[(Text, JsonPath)], out: &mut Pieces) -> Result<(), NoMemory>
    ensures { OnOk result ((scene : Scene) → shown scene (steps_of paths.now) out.new
        ≡ shown scene (steps_of paths.now) out.old ++ compact_text (filled_string paths.now scene text.now)) }
{
    match text.split_first() {
        Some((letter, rest)) => {
            if *letter == b'N' {
                push_named(rest, paths, out)
            } else {
                push_quoted(rest, paths, out)
            }
        }
        None => out.push_bytes(b"\"\""),
    }
}

/// Adds a name in the place of a value.
fn push_named(name: &[u8], paths: &[(Text, JsonPath)], out: &mut Pieces) -> Result<(), NoMemory>
    ensures { OnOk result ((scene : Scene) → shown scene (steps_of paths.now) out.new
        ≡ shown scene (steps_of paths.now) out.old ++ compact_text (named_value paths.now scene name.now)) }
{
    match known_named(paths, name) {
        Some(known) => out.push_name(Piece::Value(known)),
        None => out.push_bytes(b"\"\""),
    }
}

/// Adds a string's text between quotation marks, with its names.
fn push_quoted(text: &[u8], paths: &[(Text, JsonPath)], out: &mut Pieces) -> Result<(), NoMemory>
    ensures { OnOk result ((scene : Scene) → shown scene (steps_of paths.now) out.new
        ≡ shown scene (steps_of paths.now) out.old ++ 34 ∷ (inside_of paths.now scene text.now ++ 34 ∷ [])) }
{
    out.push_bytes(b"\"")?;
    let mut rest = text;
    while !rest.is_empty() {
        match push_part(rest, paths, out) {
            Ok(after) => rest = after,
            Err(refused) => return Err(refused),
        }
    }
    out.push_bytes(b"\"")
}

/// Adds the name or the byte at the front of a string's text, and returns the bytes after it.
fn push_part<'a>(
    bytes: &'a [u8],
    paths: &[(Text, JsonPath)],
    out: &mut Pieces,
) -> Result<&'a [u8], NoMemory>
    requires { 0 < length bytes.now }
    ensures shorter { IfOk result (λ r. length r.now < length bytes.now) }
    ensures added { IfOk result (λ r. (scene : Scene) → shown scene (steps_of paths.now) out.new ++ inside_of paths.now scene r.now
        ≡ shown scene (steps_of paths.now) out.old ++ inside_of paths.now scene bytes.now) }
{
    match bytes.split_first() {
        Some((first, rest)) => {
            if *first == b'<' {
                push_mark(rest, paths, out)
            } else {
                push_byte(*first, rest, out)
            }
        }
        None => Ok(bytes),
    }
}

fn push_byte<'a>(byte: u8, rest: &'a [u8], out: &mut Pieces) -> Result<&'a [u8], NoMemory>
    requires { byte ≢ 60 }
    ensures rest { IfOk result (λ r. r.now ≡ rest.now) }
    ensures added { IfOk result (λ r. (paths : Paths) (scene : Scene) → shown scene (steps_of paths) out.new ++ inside_of paths scene r.now
        ≡ shown scene (steps_of paths) out.old ++ inside_of paths scene (byte ∷ rest.now)) }
{
    out.push_escaped(&[byte])?;
    Ok(rest)
}

/// Adds the name, or `<` if none begins here, of which the `<` comes before the bytes.
fn push_mark<'a>(
    bytes: &'a [u8],
    paths: &[(Text, JsonPath)],
    out: &mut Pieces,
) -> Result<&'a [u8], NoMemory>
    ensures shorter { IfOk result (λ r. length r.now ≤ length bytes.now) }
    ensures added { IfOk result (λ r. (scene : Scene) → shown scene (steps_of paths.now) out.new ++ inside_of paths.now scene r.now
        ≡ shown scene (steps_of paths.now) out.old ++ inside_of paths.now scene (60 ∷ bytes.now)) }
{
    match name_before(bytes, paths) {
        Some((known, rest)) => {
            out.push_name(Piece::Inside(known))?;
            Ok(rest)
        }
        None => {
            out.push_bytes(b"<")?;
            Ok(bytes)
        }
    }
}

/// The name whose `<` comes before the bytes, and the bytes after its `>`.
fn name_before<'a>(bytes: &'a [u8], paths: &[(Text, JsonPath)]) -> Option<(Known, &'a [u8])>
    ensures { MatchOption result (name_before paths.now bytes.now ≡ None)
        (λ r. (source : Source) × (n : ℕ) × (name_before paths.now bytes.now ≡ Some (source, n)) × StandsFor (steps_of paths.now) r.0 source
        × (r.1.now ≡ drop (suc n) bytes.now)) }
{
    match mark_cut(bytes) {
        Some((name, rest)) => match known_named(paths, name) {
            Some(known) => Some((known, rest)),
            None => None,
        },
        None => None,
    }
}
