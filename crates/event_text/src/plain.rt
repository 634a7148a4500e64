//! Bytes of a string that are written as they are.
ghost use Rattle.std.specs.Prelude.{◌≡◌, ◌≤◌, length};
ghost use Rattle.json_text.specs.Plain.{PlainBetween, is_plain};

/// The most that a plain byte may be if only ASCII is plain.
pub(crate) const ASCII: u8 = 0x7F;

/// The same if each byte of UTF-8 is plain but those that are escaped.
pub(crate) const UTF8: u8 = 0xFF;

/// The number of bytes at the front that are plain.
pub(crate) fn plain_len(bytes: &[u8], most: u8) -> usize
    ensures within { result ≤ length bytes.now }
    ensures plain { PlainBetween most bytes.now 0 result }
{
    let mut at = 0;
    while at < bytes.len() && is_plain(bytes[at], most) {
        at += 1;
    }
    at
}

#[inline(always)]
fn is_plain(byte: u8, most: u8) -> bool
    ensures { result ≡ is_plain most byte }
{
    ((byte >= b' ') & (byte <= most)) & ((byte != b'"') & (byte != b'\\'))
}
