//! The status code of a reply, from the bytes that have arrived so far.
ghost use Rattle.std.specs.Prelude.{◌≡◌, take};
ghost use Rattle.http_target.specs.Reply as spec;
ghost use Rattle.http_target.specs.Reply.{FindsHead, Reads};

use httparse::Status;
use httparse::spans::{EMPTY_HEADER_SPAN, parse_response};

/// How many bytes the heads of a reply may have together.
const HEADS_LIMIT: usize = 16_384;

/// How many fields a head may have.
const FIELD_LIMIT: usize = 256;

/// What the bytes so far show of a reply.
#[derive(Clone, Copy, Debug, PartialEq, Eq)]
pub enum Reply {
    /// The final head is whole, and has this code.
    Whole(u16),
    /// The final head is not whole yet. If interim heads came before it, the code of the last one.
    NotYet(Option<u16>),
    /// No bytes that may follow give a final head within the limits.
    Never,
}

/// What the bytes so far show. Interim heads, those with the codes 100 and 102 to 199, are skipped.
/// The time is linear in the number of bytes, of which at most 16,384 are read.
pub fn read_reply(bytes: &[u8]) -> Reply
    ensures { Reads bytes.now result }
{
    let mut rest = first_bytes(bytes);
    let mut last = None;
    loop {
        match read_front(rest) {
            Front::Whole(code, after) => {
                if is_interim(code) {
                    last = Some(code);
                    rest = after;
                } else {
                    return Reply::Whole(code);
                }
            }
            Front::Partial if bytes.len() < HEADS_LIMIT => return Reply::NotYet(last),
            Front::Partial => return Reply::Never,
            Front::Never => return Reply::Never,
        }
    }
}

/// What is at the front of the bytes.
enum Front<'b> {
    /// A whole head: its code, and the bytes after it.
    Whole(u16, &'b [u8]),
    /// The beginning of one, or nothing.
    Partial,
    /// No bytes that may follow give a head within the limit of fields.
    Never,
}

fn read_front(bytes: &[u8]) -> Front<'_>
    ensures { FindsHead bytes.now result }
{
    let mut headers = [EMPTY_HEADER_SPAN; FIELD_LIMIT];
    match parse_response(bytes, &mut headers) {
        Ok(Status::Complete(head)) => Front::Whole(head.code, &bytes[head.len..]),
        Ok(Status::Partial) => Front::Partial,
        Err(_) => Front::Never,
    }
}

/// The bytes in which the final head has to end.
fn first_bytes(bytes: &[u8]) -> &[u8]
    ensures { result.now ≡ take 16384 bytes.now }
{
    &bytes[..bytes.len().min(HEADS_LIMIT)]
}

fn is_interim(code: u16) -> bool
    ensures { result ≡ spec.is_interim code }
{
    code == 100 || (102 <= code && code <= 199)
}
