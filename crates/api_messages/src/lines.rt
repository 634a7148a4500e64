//! Whether a 65th field begins, from the lines before it.
ghost use Rattle.std.specs.Prelude.{◌≡◌, ◌↔◌, ◌≤◌, ◌+◌, ◌++◌, ◌∷◌, [], ℕ, List, length, take, None, Some, IsTrue, MatchOption};
ghost use Rattle.api_messages.specs.Lines.{IsFull, Begins65th, skip_newlines, after_lines, BeginsName};

use crate::front::{FIELD_LIMIT, HEAD_LIMIT};
use httparse::spans::{EMPTY_HEADER_SPAN, parse_request};
use httparse::{Status, is_header_name_token};

/// The request line and 64 field lines.
const LINES: usize = FIELD_LIMIT + 1;

/// Whether 64 field lines are at the front, which an empty line would end as a head, and after them the first byte of a name.
pub(crate) fn begins_65th(start: &[u8]) -> bool
    requires { length start.now ≤ 16384 }
    ensures { IsTrue result ↔ Begins65th start.now }
{
    match after_lines(skip_newlines(start), LINES) {
        Some(after) => begins_name(after) && is_full(&start[..start.len() - after.len()]),
        None => false,
    }
}

/// The bytes from the first that ends no line.
fn skip_newlines(bytes: &[u8]) -> &[u8]
    ensures { result.now ≡ skip_newlines bytes.now }
{
    let mut rest = bytes;
    loop {
        match rest {
            [b'\r', after @ ..] => rest = after,
            [b'\n', after @ ..] => rest = after,
            _ => return rest,
        }
    }
}

/// The bytes after the first `count` line feeds.
fn after_lines(bytes: &[u8], count: usize) -> Option<&[u8]>
    ensures { MatchOption result (after_lines count bytes.now ≡ None) (λ after. after_lines count bytes.now ≡ Some after.now) }
{
    let mut rest = bytes;
    let mut left = count;
    while left > 0 {
        match rest {
            [b'\n', after @ ..] => {
                rest = after;
                left -= 1;
            }
            [_, after @ ..] => rest = after,
            [] => return None,
        }
    }
    Some(rest)
}

fn begins_name(bytes: &[u8]) -> bool
    ensures { IsTrue result ↔ BeginsName bytes.now }
{
    match bytes {
        [first, ..] => is_header_name_token(*first),
        [] => false,
    }
}

/// Whether the bytes, whose last is a line feed, and an empty line are a head with 64 fields.
fn is_full(front: &[u8]) -> bool
    requires short { length front.now ≤ 16384 }
    requires ends { (line : List ℕ) × (front.now ≡ line ++ 10 ∷ []) }
    ensures { IsTrue result ↔ IsFull front.now }
{
    let mut lines = [0u8; HEAD_LIMIT + 1];
    let len = front.len() + 1;
    append(&mut lines, 0, front);
    append(&mut lines, front.len(), b"\n");
    let lines = &lines[..len];
    let mut headers = [EMPTY_HEADER_SPAN; FIELD_LIMIT];
    match parse_request(lines, &mut headers) {
        Ok(Status::Complete(spans)) => spans.len == len && spans.headers == FIELD_LIMIT,
        Ok(Status::Partial) => false,
        Err(_) => false,
    }
}

/// Writes the bytes at that place.
fn append(out: &mut [u8], at: usize, bytes: &[u8])
    requires { at + length bytes.now ≤ length out.old }
    ensures written { take (at + length bytes.now) out.new ≡ take at out.old ++ bytes.now }
    ensures len { length out.new ≡ length out.old }
{
    out[at..at + bytes.len()].copy_from_slice(bytes);
}
