//! The bytes of replies.
ghost use Rattle.std.specs.Prelude.{◌≡◌, ◌≤◌, ◌++◌, true, length, take, IfOk, OnOk, OnErr};
ghost use Rattle.api_replies.specs.Reply.{no_memory, bad_head, not_post, length_required, too_large, head_too_large};
ghost use Rattle.api_replies.specs.View.{reply_of};
ghost use Rattle.api_replies.specs.Written.{IsServedStatus, reply_text, reply_head};
ghost use Rattle.api_replies.specs.Pieces as pieces;

use crate::reply::Reply;
use itoa::Buffer;
use json_text::{Bytes, Json, NoMemory, write};

/// The fields of every reply, up to the number of bytes of its body.
pub(crate) const FIELDS: &str = "Content-Type: application/x-amz-json-1.1\r\nContent-Length: ";

/// Appends the bytes of the reply. `close` is true if the connection ends after it. An `Err` appends nothing.
pub fn write_reply(reply: &Reply, close: bool, out: &mut Bytes) -> Result<(), NoMemory>
    requires { IsServedStatus reply.now.status }
    ensures ok { OnOk result (out.new ≡ out.old ++ reply_text (reply_of reply.now) close) }
    ensures err { OnErr result (out.new ≡ out.old) }
{
    let before = out.len();
    let written = push_reply(reply, close, out);
    if written.is_err() {
        out.truncate(before);
    }
    written
}

fn push_reply(reply: &Reply, close: bool, out: &mut Bytes) -> Result<(), NoMemory>
    requires { IsServedStatus reply.now.status }
    ensures ok { OnOk result (out.new ≡ out.old ++ reply_text (reply_of reply.now) close) }
    ensures start { take (length out.old) out.new ≡ out.old }
{
    let mut body = out.new_beside();
    write(&reply.body, &mut body)?;
    push_head(reply.status, body.len(), close, out)?;
    out.extend(body.as_slice())?;
    Ok(())
}

/// Appends the head of a reply with a body of `len` bytes.
fn push_head(status: u16, len: usize, close: bool, out: &mut Bytes) -> Result<(), NoMemory>
    requires { IsServedStatus status }
    ensures ok { OnOk result (out.new ≡ out.old ++ pieces.head_text status len close) }
    ensures start { take (length out.old) out.new ≡ out.old }
{
    out.extend(status_line(status).as_bytes())?;
    out.extend(FIELDS.as_bytes())?;
    out.extend(Buffer::new().format(len).as_bytes())?;
    out.extend(head_end(close).as_bytes())?;
    Ok(())
}

pub(crate) fn status_line(status: u16) -> &'static str
    requires { IsServedStatus status }
    ensures text { result.now ≡ pieces.status_line status }
    ensures short { length result.now ≤ 34 }
{
    match status {
        200 => "HTTP/1.1 200 OK\r\n",
        400 => "HTTP/1.1 400 Bad Request\r\n",
        503 => "HTTP/1.1 503 Service Unavailable\r\n",
        _ => unreachable!(),
    }
}

/// The part of a reply between the number of bytes of the body and the body.
#[tactic(auto, unfolding(crate::specs::Pieces::head_end))]
pub(crate) fn head_end(close: bool) -> &'static str
    ensures text { result.now ≡ pieces.head_end close }
    ensures short { length result.now ≤ 23 }
{
    if close {
        "\r\nConnection: close\r\n\r\n"
    } else {
        "\r\n\r\n"
    }
}

/// The bytes of the reply `out of memory`. They need no memory.
pub fn no_memory_reply(close: bool) -> &'static [u8]
    ensures { result.now ≡ reply_text no_memory close }
{
    if close {
        b"HTTP/1.1 503 Service Unavailable\r\nContent-Type: application/x-amz-json-1.1\r\nContent-Length: 48\r\nConnection: close\r\n\r\n{\"__type\":\"NoMemory\",\"message\":\"Out of memory.\"}"
    } else {
        b"HTTP/1.1 503 Service Unavailable\r\nContent-Type: application/x-amz-json-1.1\r\nContent-Length: 48\r\n\r\n{\"__type\":\"NoMemory\",\"message\":\"Out of memory.\"}"
    }
}

/// The bytes of the reply to bytes with which no message begins. They need no memory.
pub fn bad_head_reply() -> &'static [u8]
    ensures { result.now ≡ reply_text bad_head true }
{
    b"HTTP/1.1 400 Bad Request\r\nContent-Type: application/x-amz-json-1.1\r\nContent-Length: 54\r\nConnection: close\r\n\r\n{\"__type\":\"BadHead\",\"message\":\"The head is not HTTP.\"}"
}

/// The bytes of the reply to a method other than POST. They need no memory. `close` is true if the connection ends after it.
pub fn not_post_reply(close: bool) -> &'static [u8]
    ensures { result.now ≡ reply_text not_post close }
{
    if close {
        b"HTTP/1.1 405 Method Not Allowed\r\nContent-Type: application/x-amz-json-1.1\r\nContent-Length: 53\r\nAllow: POST\r\nConnection: close\r\n\r\n{\"__type\":\"NotPost\",\"message\":\"Only POST is served.\"}"
    } else {
        b"HTTP/1.1 405 Method Not Allowed\r\nContent-Type: application/x-amz-json-1.1\r\nContent-Length: 53\r\nAllow: POST\r\n\r\n{\"__type\":\"NotPost\",\"message\":\"Only POST is served.\"}"
    }
}

/// The same reply to a HEAD, which gets no body.
pub fn not_post_head(close: bool) -> &'static [u8]
    ensures { result.now ≡ reply_head not_post close }
{
    if close {
        b"HTTP/1.1 405 Method Not Allowed\r\nContent-Type: application/x-amz-json-1.1\r\nContent-Length: 53\r\nAllow: POST\r\nConnection: close\r\n\r\n"
    } else {
        b"HTTP/1.1 405 Method Not Allowed\r\nContent-Type: application/x-amz-json-1.1\r\nContent-Length: 53\r\nAllow: POST\r\n\r\n"
    }
}

/// The bytes of the reply to a POST whose head announces no length. They need no memory.
pub fn length_required_reply() -> &'static [u8]
    ensures { result.now ≡ reply_text length_required true }
{
    b"HTTP/1.1 411 Length Required\r\nContent-Type: application/x-amz-json-1.1\r\nContent-Length: 67\r\nConnection: close\r\n\r\n{\"__type\":\"LengthRequired\",\"message\":\"Content-Length is required.\"}"
}

/// The bytes of the reply to a head whose body would be too long. They need no memory.
pub fn too_large_reply() -> &'static [u8]
    ensures { result.now ≡ reply_text too_large true }
{
    b"HTTP/1.1 413 Payload Too Large\r\nContent-Type: application/x-amz-json-1.1\r\nContent-Length: 65\r\nConnection: close\r\n\r\n{\"__type\":\"TooLarge\",\"message\":\"The body is over 1048576 bytes.\"}"
}

/// The bytes of the reply to a head that is too long or has too many fields. They need no memory.
pub fn head_too_large_reply() -> &'static [u8]
    ensures { result.now ≡ reply_text head_too_large true }
{
    b"HTTP/1.1 431 Request Header Fields Too Large\r\nContent-Type: application/x-amz-json-1.1\r\nContent-Length: 80\r\nConnection: close\r\n\r\n{\"__type\":\"HeadTooLarge\",\"message\":\"The head is over 16384 bytes or 64 fields.\"}"
}
