//! Tests of the crate `api_replies`: the refusal at the number limit, and the bytes of replies.
use api_replies::{
    Cause, CountsReply, Reply, limit_reply, no_memory_reply, refused_reply, write_reply,
};
use json_text::{Bytes, Json, NoMemory, write};
use std::alloc::Global;
use std::test::Fail;

/// Whether the value is written so.
fn is_written(alloc: Global, value: &Json, wanted: &str) -> Result<bool, NoMemory> {
    let mut out = Bytes::new(alloc);
    write(value, &mut out)?;
    Ok(out.as_slice() == wanted.as_bytes())
}

/// Whether the reply has the status and the body.
pub(crate) fn is_reply(
    alloc: Global,
    reply: Reply,
    status: u16,
    body: &str,
) -> Result<bool, NoMemory> {
    Ok(reply.status == status && is_written(alloc, &reply.body, body)?)
}

const AT_LIMIT: &str =
    r#"{"__type":"LimitExceededException","message":"Number limit 281474976710656 reached."}"#;

/// Whether both replies at the number limit have this body.
fn are_at_limit(alloc: Global, body: &str) -> Result<bool, NoMemory> {
    Ok(
        is_reply(alloc, limit_reply(alloc)?, 400, body)?
            && is_reply(alloc, refused_reply(alloc, &Cause::NumberLimit)?, 400, body)?,
    )
}

#[test]
fn the_number_limit_is_refused(rt: HostRuntime) -> Result<(), Fail> {
    assert!(rt; are_at_limit(rt.alloc(), AT_LIMIT)?);
    Ok(())
}

/// A reply after which the connection goes on, and one after which it is closed. Both have the body `null`.
const TWO: &[u8] =
    b"HTTP/1.1 200 OK\r\nContent-Type: application/x-amz-json-1.1\r\nContent-Length: 4\r\n\r\nnullHTTP/1.1 400 Bad Request\r\nContent-Type: application/x-amz-json-1.1\r\nContent-Length: 4\r\nConnection: close\r\n\r\nnull";

fn write_first(out: &mut Bytes) -> Result<(), NoMemory> {
    let body = Json::Null;
    write_reply(&Reply { status: 200, body }, false, out)
}

fn write_second(out: &mut Bytes) -> Result<(), NoMemory> {
    let body = Json::Null;
    write_reply(&Reply { status: 400, body }, true, out)
}

#[test]
fn a_reply_is_written_behind_what_is_there(rt: HostRuntime) -> Result<(), Fail> {
    let mut out = Bytes::new(rt.alloc());
    write_first(&mut out)?;
    write_second(&mut out)?;
    assert!(rt; out.as_slice() == TWO);
    Ok(())
}

const NO_MEMORY: &[u8] =
    b"HTTP/1.1 503 Service Unavailable\r\nContent-Type: application/x-amz-json-1.1\r\nContent-Length: 48\r\n\r\n{\"__type\":\"NoMemory\",\"message\":\"Out of memory.\"}";

const LONGEST: &[u8] =
    b"HTTP/1.1 200 OK\r\nContent-Type: application/x-amz-json-1.1\r\nContent-Length: 93\r\nConnection: close\r\n\r\n{\"Attempts\":4294967295,\"Delivered\":4294967295,\"DeadLettered\":4294967295,\"Dropped\":4294967295}";

#[test]
fn replies_without_memory_are_written_out(rt: HostRuntime) -> Result<(), Fail> {
    assert!(rt; no_memory_reply(false) == NO_MEMORY);
    let most: u32 = 4_294_967_295;
    let mut counts = CountsReply::new(rt.alloc())?;
    assert!(rt; counts.fill(most, most, most, most, true) == LONGEST);
    Ok(())
}
