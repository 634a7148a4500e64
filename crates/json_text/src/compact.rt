//! The one compact text of a value.
ghost use Rattle.std.specs.Prelude.{◌≡◌, ◌≤◌, ◌<◌, ◌++◌, List, ℕ, [], ◌∷◌, false, None, length, take, drop, OnOk, OnErr, flat_map};
ghost use Rattle.json_text.specs.View.{tree_of};
ghost use Rattle.json_text.specs.Compact.{compact_text, quoted, escape, lower_hex, IsValue, tree_levels};
ghost use Rattle.json_text.specs.Grammar.{IsText};
ghost use Rattle.json_text.specs.Node.{Node, value_of, first_repeat};

use super::plain::{UTF8, plain_len};
use super::{Bytes, Json, NoMemory};

/// Puts the value's compact text at the end: no spaces, numbers as they are spelled, in strings the fewest escapes.
pub fn write(json: &Json, out: &mut Bytes) -> Result<(), NoMemory>
    ensures ok { OnOk result (out.new ≡ out.old ++ compact_text (tree_of json.now)) }
    ensures err { OnErr result (out.new ≡ out.old) }
    // The text is read back as the value, with no key twice.
    ensures spells { IsValue (tree_of json.now) → (n : Node)
        × IsText (tree_levels (tree_of json.now)) (compact_text (tree_of json.now)) n
        × (value_of n ≡ tree_of json.now) × (first_repeat n ≡ None) }
{
    let before = out.len();
    let written = push_value(json, out);
    if written.is_err() {
        out.truncate(before);
    }
    written
}

fn push_value(json: &Json, out: &mut Bytes) -> Result<(), NoMemory>
    ensures ok { OnOk result (out.new ≡ out.old ++ compact_text (tree_of json.now)) }
    ensures kept { take (length out.old) out.new ≡ out.old }
{
    match json {
        Json::Null => out.extend(b"null"),
        Json::Truth(true) => out.extend(b"true"),
        Json::Truth(false) => out.extend(b"false"),
        Json::Num(spelling) => out.extend(spelling.as_str().as_bytes()),
        Json::Str(text) => push_quoted(text.as_str().as_bytes(), out),
        Json::List(items) => {
            out.extend(b"[")?;
            'items: for (i, item) in items.iter().enumerate() {
                if i > 0 {
                    out.extend(b",")?;
                }
                push_value(item, out)?;
            }
            out.extend(b"]")
        }
        Json::Obj(members) => {
            out.extend(b"{")?;
            'members: for (i, (key, value)) in members.iter().enumerate() {
                if i > 0 {
                    out.extend(b",")?;
                }
                push_quoted(key.as_str().as_bytes(), out)?;
                out.extend(b":")?;
                push_value(value, out)?;
            }
            out.extend(b"}")
        }
    }
}

/// The text between quotation marks.
fn push_quoted(text: &[u8], out: &mut Bytes) -> Result<(), NoMemory>
    ensures ok { OnOk result (out.new ≡ out.old ++ quoted text.now) }
    ensures kept { take (length out.old) out.new ≡ out.old }
{
    out.extend(b"\"")?;
    let mut rest = text;
    while !rest.is_empty() {
        let (plain, escaped) = rest.split_at(plain_len(rest, UTF8));
        out.extend(plain)?;
        rest = escaped;
        if let Some((byte, after)) = escaped.split_first() {
            push_escape(*byte, out)?;
            rest = after;
        }
    }
    out.extend(b"\"")
}

fn push_escape(byte: u8, out: &mut Bytes) -> Result<(), NoMemory>
    ensures ok { OnOk result (out.new ≡ out.old ++ escape byte) }
    ensures kept { take (length out.old) out.new ≡ out.old }
{
    match byte {
        b'"' => out.extend(b"\\\""),
        b'\\' => out.extend(b"\\\\"),
        8 => out.extend(b"\\b"),
        12 => out.extend(b"\\f"),
        b'\n' => out.extend(b"\\n"),
        b'\r' => out.extend(b"\\r"),
        b'\t' => out.extend(b"\\t"),
        0..32 => {
            let (high, low) = (hex_digit(byte / 16), hex_digit(byte % 16));
            out.extend(&[b'\\', b'u', b'0', b'0', high, low])
        }
        _ => out.extend(&[byte]),
    }
}

fn hex_digit(n: u8) -> u8
    requires { n < 16 }
    ensures { result ≡ lower_hex n }
{
    if n < 10 { b'0' + n } else { b'a' + (n - 10) }
}
