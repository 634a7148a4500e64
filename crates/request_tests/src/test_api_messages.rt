//! What `WireIn` reports beside replies: what is left of its bytes, and fields of a message. Replies are in api_messages.rows.
use api_messages::{Refusal, WireFault, WireIn};
use json_text::Text;
use std::alloc::Global;
use std::test::Fail;

fn fed(alloc: Global, bytes: &[u8]) -> Result<WireIn, Fail> {
    let mut wire = WireIn::new(alloc);
    wire.feed(bytes)?;
    Ok(wire)
}

/// Whether the bytes have a whole head at their front, or are only empty lines. Rows are apart by `;`.
const RESTS: &str =
    "empty lines|;empty lines|\r\n\r\n;neither|\r\n\r;neither|\n;neither|POST / HTTP/1.1\r\nHost: x\r\nContent-Length: 2\r\n;a head|\r\nPOST / HTTP/1.1\r\nHost: x\r\nContent-Length: 2\r\n\r\n;a head|POST / HTTP/1.1\r\nHost: x\r\nContent-Length: 2\r\n\r\n{";

fn rest_shown(wire: &WireIn) -> &'static str {
    match (wire.has_head(), wire.is_between()) {
        (true, false) => "a head",
        (false, true) => "empty lines",
        (false, false) => "neither",
        (true, true) => "both",
    }
}

fn is_rest(alloc: Global, row: &str) -> Result<bool, Fail> {
    match row.split_once('|') {
        Some((want, bytes)) => Ok(rest_shown(&fed(alloc, bytes.as_bytes())?) == want),
        None => Ok(false),
    }
}

#[test]
fn heads_and_empty_lines_are_seen_in_the_rest(rt: HostRuntime) -> Result<(), Fail> {
    assert_eq!(rt; RESTS.split(';').count(), 7, "the number of rows");
    for row in RESTS.split(';') {
        assert!(rt; is_rest(rt.alloc(), row)?, "{row}");
    }
    Ok(())
}

/// Bytes that are refused from their last one on. Rows are apart by `;`.
const REFUSED: &str =
    "BadHead|POST / HTTP/1.1\r\nContent-Length: 0\r\n\r\n;BadHead|POST / HTTP/1.1\r\nHost: x\r\n ;LengthRequired|POST / HTTP/1.1\r\nHost: x\r\n\r\n;TooLarge|GET / HTTP/1.1\r\nHost: x\r\nContent-Length: 1048577\r\n\r\n";

const CALL: &[u8] = b"POST / HTTP/1.1\r\nHost: localhost\r\nContent-Length: 2\r\n\r\n{}";

/// The answer to the next message, without the message.
fn answer(wire: &mut WireIn) -> &'static str {
    match wire.next() {
        Ok(Some(_)) => "Whole",
        Ok(None) => "Awaited",
        Err(WireFault::Refused(Refusal::BadHead)) => "BadHead",
        Err(WireFault::Refused(Refusal::LengthRequired)) => "LengthRequired",
        Err(WireFault::Refused(Refusal::TooLarge)) => "TooLarge",
        Err(WireFault::Refused(Refusal::HeadTooLarge)) => "HeadTooLarge",
        Err(WireFault::NoMemory) => "NoMemory",
    }
}

/// Whether the next message has this answer after the piece.
fn is_answer(wire: &mut WireIn, piece: &[u8], want: &str) -> Result<bool, Fail> {
    wire.feed(piece)?;
    Ok(answer(wire) == want)
}

/// Whether the bytes are awaited and kept before their last one, and have the answer from then on, whatever follows.
fn is_refused(wire: &mut WireIn, bytes: &[u8], want: &str) -> Result<bool, Fail> {
    match bytes {
        [before @ .., last] => Ok(
            is_answer(wire, before, "Awaited")?
                && wire.rest() == before
                && is_answer(wire, &[*last], want)?
                && is_answer(wire, CALL, want)?
                && wire.rest().starts_with(bytes),
        ),
        [] => Ok(false),
    }
}

fn is_refusal(alloc: Global, row: &str) -> Result<bool, Fail> {
    let mut wire = WireIn::new(alloc);
    match row.split_once('|') {
        Some((want, bytes)) => is_refused(&mut wire, bytes.as_bytes(), want),
        None => Ok(false),
    }
}

#[test]
fn a_refusal_stays_and_keeps_its_bytes(rt: HostRuntime) -> Result<(), Fail> {
    assert_eq!(rt; REFUSED.split(';').count(), 4, "the number of rows");
    for row in REFUSED.split(';') {
        assert!(rt; is_refusal(rt.alloc(), row)?, "{row}");
    }
    Ok(())
}

/// A message whose two fields are no UTF-8, and an empty line.
const NOT_TEXTS: &[u8] =
    b"POST / HTTP/1.1\r\nHost: x\r\nContent-Length: 0\r\nX-Amz-Target: a\xff\r\nx-caller-account: \xff\r\n\r\n\r\n";

fn is_empty_text(field: &Option<Text>) -> bool {
    match field {
        Some(text) => text.as_str().is_empty(),
        None => false,
    }
}

/// Whether both fields of the next message are empty texts.
fn has_empty_texts(wire: &mut WireIn) -> Result<bool, Fail> {
    match wire.next()? {
        Some(message) => Ok(is_empty_text(&message.target) && is_empty_text(&message.caller)),
        None => Ok(false),
    }
}

/// Whether neither field is in the next message.
fn has_no_texts(wire: &mut WireIn) -> Result<bool, Fail> {
    match wire.next()? {
        Some(message) => Ok(message.target.is_none() && message.caller.is_none()),
        None => Ok(false),
    }
}

#[test]
fn a_field_that_is_not_utf_8_is_an_empty_text(rt: HostRuntime) -> Result<(), Fail> {
    let mut wire = fed(rt.alloc(), NOT_TEXTS)?;
    assert!(rt; has_empty_texts(&mut wire)?);
    assert!(rt; wire.rest() == b"\r\n".as_slice(), "what is left");
    assert!(rt; is_answer(&mut wire, b"", "Awaited")?);
    wire.feed(CALL)?;
    assert!(rt; has_no_texts(&mut wire)?);
    assert!(rt; wire.rest().is_empty(), "what is left at the end");
    Ok(())
}
