//! What is at the front of the bytes: a whole message, the beginning of one, or bytes that are refused.
ghost use Rattle.std.specs.Prelude.{◌≡◌, ◌↔◌, ◌≤◌, length, take, drop, IfOk, IsTrue, IsFalse};
ghost use Rattle.httparse.specs.Grammar.{HasNoRequest};
ghost use Rattle.api_messages.specs.Fields.{text_of, text_at};
ghost use Rattle.api_messages.specs.Reading.{IsSomeHeadAt, IsMessageAt, FrontIs, HeadIsAwaited, message_at, occurrence_in};
ghost use Rattle.api_messages.specs.Messages.{IsAwaited};
ghost use Rattle.api_messages.specs.Between.{AreEmptyLines, HasHead};

use crate::fields::{Fields, Found};
use crate::lines::begins_65th;
use crate::message::{Message, Refusal};
use crate::method::Method;
use httparse::Status;
use httparse::spans::{EMPTY_HEADER_SPAN, parse_request};
use json_text::{Bytes, NoMemory, Text};
use std::alloc::Global;

/// How many bytes a head may have, empty lines before it included.
pub(crate) const HEAD_LIMIT: usize = 16_384;

/// How many fields a head may have.
pub(crate) const FIELD_LIMIT: usize = 64;

pub(crate) enum Front<T> {
    Whole(T),
    /// The bytes are the beginning of it.
    Awaited,
    Refused(Refusal),
}

/// A whole head, and how many bytes it takes.
#[derive(Clone, Copy, Debug)]
pub(crate) struct Head<'b> {
    pub method: Method,
    pub minor: u8,
    pub fields: Fields<'b>,
    pub len: usize,
}

/// A whole message that is still in the bytes, and how many of them it takes.
#[derive(Clone, Copy, Debug)]
pub(crate) struct InPlace<'b> {
    pub method: Method,
    pub target: Found<'b>,
    pub caller: Found<'b>,
    pub body: &'b [u8],
    pub close: bool,
    pub len: usize,
}

fn read_head(bytes: &[u8]) -> Front<Head<'_>>
    ensures front { FrontIs bytes.now (IsSomeHeadAt bytes.now) result }
    ensures awaited { HeadIsAwaited bytes.now result }
{
    let start = &bytes[..bytes.len().min(HEAD_LIMIT)];
    let mut headers = [EMPTY_HEADER_SPAN; FIELD_LIMIT];
    match parse_request(start, &mut headers) {
        Ok(Status::Complete(spans)) => Front::Whole(Head {
            method: Method::of(spans.method.of(start)),
            minor: spans.version,
            fields: Fields::of(start, &headers[..spans.headers]),
            len: spans.len,
        }),
        Ok(Status::Partial) if begins_65th(start) => Front::Refused(Refusal::HeadTooLarge),
        Ok(Status::Partial) if bytes.len() < HEAD_LIMIT => Front::Awaited,
        Ok(Status::Partial) => Front::Refused(Refusal::HeadTooLarge),
        Err(_) if begins_65th(start) => Front::Refused(Refusal::HeadTooLarge),
        Err(_) => Front::Refused(Refusal::BadHead),
    }
}

fn read_message<'b>(bytes: &'b [u8], head: Head<'b>) -> Front<InPlace<'b>>
    requires { IsSomeHeadAt bytes.now head }
    ensures { FrontIs bytes.now (IsMessageAt bytes.now) result }
{
    let body_len = match head.fields.body_length(head.method, head.minor) {
        Ok(body_len) => body_len,
        Err(why) => return Front::Refused(why),
    };
    let after = &bytes[head.len..];
    if after.len() < body_len {
        return Front::Awaited;
    }
    Front::Whole(InPlace {
        method: head.method,
        target: head.fields.target,
        caller: head.fields.caller,
        body: &after[..body_len],
        close: head.minor == 0 || head.fields.close,
        len: head.len + body_len,
    })
}

pub(crate) fn read_front(bytes: &[u8]) -> Front<InPlace<'_>>
    ensures { FrontIs bytes.now (IsMessageAt bytes.now) result }
{
    match read_head(bytes) {
        Front::Whole(head) => read_message(bytes, head),
        Front::Awaited => Front::Awaited,
        Front::Refused(why) => Front::Refused(why),
    }
}

/// Whether a whole head is at the front.
pub(crate) fn has_head(bytes: &[u8]) -> bool
    ensures whole { IsTrue result → HasHead bytes.now }
    ensures none { IsFalse result → IsAwaited bytes.now → HasNoRequest bytes.now }
{
    match read_head(bytes) {
        Front::Whole(_) => true,
        Front::Awaited => false,
        Front::Refused(_) => false,
    }
}

/// Whether the bytes are empty lines alone, or none.
pub(crate) fn are_empty_lines(bytes: &[u8]) -> bool
    ensures { IsTrue result ↔ AreEmptyLines bytes.now }
{
    let mut rest = bytes;
    while let [b'\r', b'\n', after @ ..] = rest {
        rest = after;
    }
    rest.is_empty()
}

/// The value as a text, empty if it is not UTF-8.
fn text_of(alloc: Global, value: &[u8]) -> Result<Text, NoMemory>
    ensures { IfOk result (λ t. t ≡ text_of value.now) }
{
    match str::from_utf8(value) {
        Ok(text) => Text::from_str(alloc, text),
        Err(_) => Ok(Text::new(alloc)),
    }
}

fn text_at(alloc: Global, found: Found<'_>) -> Result<Option<Text>, NoMemory>
    ensures { IfOk result (λ t. t ≡ text_at (occurrence_in found.entry)) }
{
    match found {
        Found::Once(value) => Ok(Some(text_of(alloc, value)?)),
        Found::Absent | Found::Repeated => Ok(None),
    }
}

impl InPlace<'_> {
    /// The message, moved out of the bytes.
    pub(crate) fn message(&self, alloc: Global) -> Result<Message, NoMemory>
        ensures { IfOk result (λ m. m ≡ message_at self.now) }
    {
        let mut body = Bytes::new(alloc);
        body.extend(self.body)?;
        Ok(Message {
            method: self.method,
            target: text_at(alloc, self.target)?,
            caller: text_at(alloc, self.caller)?,
            body,
            close: self.close,
        })
    }
}
