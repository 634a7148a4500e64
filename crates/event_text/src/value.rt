//! Values, lists and objects as compact text has them.
ghost use Rattle.std.specs.Prelude.{◌≡◌, ◌≤◌, ◌<◌, ◌∷◌, ℕ, List, length, IfSome};
ghost use Rattle.json_text.specs.Tree.{Tree};
ghost use Rattle.event_text.specs.Written.{BeginsValue, BeginsItems, BeginsMember, BeginsMembers};

use crate::front::after;
use crate::key::{Hashes, add, after_key};
use crate::number::after_number;
use crate::string::after_string;

/// What follows a value with at most `levels` levels of lists and objects.
#[cycle(value)]
fn after_value(bytes: &[u8], levels: u32) -> Option<&[u8]>
    ensures value { IfSome result (λ rest. (t : Tree) × BeginsValue levels t bytes.now rest.now) }
    ensures shorter { IfSome result (λ rest. length rest.now < length bytes.now) }
{
    match bytes {
        [b'"', rest @ ..] => after_string(rest),
        [b'{', rest @ ..] => after_members(rest, levels.checked_sub(1)?),
        [b'[', rest @ ..] => after_items(rest, levels.checked_sub(1)?),
        [b't', ..] => after(bytes, b"true"),
        [b'f', ..] => after(bytes, b"false"),
        [b'n', ..] => after(bytes, b"null"),
        _ => after_number(bytes),
    }
}

/// What follows the values of a list and its bracket.
#[cycle(value)]
fn after_items(bytes: &[u8], levels: u32) -> Option<&[u8]>
    ensures items { IfSome result (λ rest. (ts : List Tree) × BeginsItems levels ts bytes.now (93 ∷ rest.now)) }
    ensures shorter { IfSome result (λ rest. length rest.now < length bytes.now) }
{
    if let [b']', rest @ ..] = bytes {
        return Some(rest);
    }
    let mut left = after_value(bytes, levels)?;
    while let [b',', rest @ ..] = left {
        left = after_value(rest, levels)?;
    }
    match left {
        [b']', rest @ ..] => Some(rest),
        _ => None,
    }
}

/// What follows the members of an object and its brace.
#[cycle(value)]
pub(crate) fn after_members(bytes: &[u8], levels: u32) -> Option<&[u8]>
    ensures members { IfSome result (λ rest. (ms : List (List ℕ × Tree)) × BeginsMembers levels ms bytes.now (125 ∷ rest.now)) }
    ensures shorter { IfSome result (λ rest. length rest.now < length bytes.now) }
{
    match bytes {
        [b'"', rest @ ..] => after_some_members(rest, levels),
        [b'}', rest @ ..] => Some(rest),
        _ => None,
    }
}

/// The same after the first quotation mark.
#[cycle(value)]
fn after_some_members(bytes: &[u8], levels: u32) -> Option<&[u8]>
    ensures members { IfSome result (λ rest. (ms : List (List ℕ × Tree)) × BeginsMembers levels ms (34 ∷ bytes.now) (125 ∷ rest.now)) }
    ensures shorter { IfSome result (λ rest. length rest.now < length bytes.now) }
{
    let mut hashes = Hashes::new();
    let mut left = after_member(bytes, levels, &mut hashes)?;
    while let [b',', b'"', rest @ ..] = left {
        left = after_member(rest, levels, &mut hashes)?;
    }
    match left {
        [b'}', rest @ ..] => Some(rest),
        _ => None,
    }
}

/// What follows a member after its first quotation mark. The hash of its key is added.
#[cycle(value)]
fn after_member<'a>(bytes: &'a [u8], levels: u32, hashes: &mut Hashes) -> Option<&'a [u8]>
    ensures member { IfSome result (λ rest.
        BeginsMember levels hashes.old.items hashes.new.items (34 ∷ bytes.now) rest.now) }
    ensures shorter { IfSome result (λ rest. length rest.now < length bytes.now) }
{
    let (hash, rest) = after_key(bytes)?;
    if !add(hashes, hash) {
        return None;
    }
    after_value(rest, levels)
}
