//! Bytes of a string as JSON writes them.
ghost use Rattle.std.specs.Prelude.{◌≡◌, ◌≤◌, ◌<◌, ◌++◌, ◌∷◌, [], false, length, take, OnOk, flat_map};
ghost use Rattle.json_text.specs.Compact.{escape, lower_hex};

use json_text::{Bytes, NoMemory};

/// Adds the bytes as they are written in a string, without quotation marks.
pub(crate) fn push_escaped(text: &[u8], out: &mut Bytes) -> Result<(), NoMemory>
    ensures { OnOk result (out.new ≡ out.old ++ flat_map escape text.now) }
{
    let mut rest = text;
    while !rest.is_empty() {
        let (plain, escaped) = rest.split_at(plain_len(rest));
        out.extend(plain)?;
        rest = escaped;
        if let Some((byte, after)) = escaped.split_first() {
            push_escape(*byte, out)?;
            rest = after;
        }
    }
    Ok(())
}

/// The number of bytes at the front that are written unchanged.
fn plain_len(bytes: &[u8]) -> usize
    ensures within { result ≤ length bytes.now }
    ensures plain { flat_map escape (take result bytes.now) ≡ take result bytes.now }
{
    for (i, byte) in bytes.iter().enumerate() {
        if needs_escape(*byte) {
            return i;
        }
    }
    bytes.len()
}

fn needs_escape(byte: u8) -> bool
    ensures { result ≡ false → escape byte ≡ byte ∷ [] }
{
    byte < b' ' || byte == b'"' || byte == b'\\'
}

fn push_escape(byte: u8, out: &mut Bytes) -> Result<(), NoMemory>
    ensures { OnOk result (out.new ≡ out.old ++ escape byte) }
{
    match byte {
        b'"' => out.extend(b"\\\""),
        b'\\' => out.extend(b"\\\\"),
        8 => out.extend(b"\\b"),
        12 => out.extend(b"\\f"),
        b'\n' => out.extend(b"\\n"),
        b'\r' => out.extend(b"\\r"),
        b'\t' => out.extend(b"\\t"),
        0..32 => {
            let (high, low) = (hex_digit(byte / 16), hex_digit(byte % 16));
            out.extend(&[b'\\', b'u', b'0', b'0', high, low])
        }
        _ => out.extend(&[byte]),
    }
}

fn hex_digit(n: u8) -> u8
    requires { n < 16 }
    ensures { result ≡ lower_hex n }
{
    if n < 10 { b'0' + n } else { b'a' + (n - 10) }
}
