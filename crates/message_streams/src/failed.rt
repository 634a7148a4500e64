//! The reply of a broken book.
ghost use Rattle.std.specs.Prelude.{◌≡◌};
ghost use Rattle.api_replies.specs.Written.{reply_text};
ghost use Rattle.message_streams.specs.Reply.{journal_failed};

/// The bytes of the reply to a request that a broken book does not carry out. They need no memory.
pub fn journal_failed_reply(close: bool) -> &'static [u8]
    ensures { result.now ≡ reply_text journal_failed close }
{
    if close {
        b"HTTP/1.1 500 Internal Server Error\r\nContent-Type: application/x-amz-json-1.1\r\nContent-Length: 60\r\nConnection: close\r\n\r\n{\"__type\":\"InternalFailure\",\"message\":\"The journal failed.\"}"
    } else {
        b"HTTP/1.1 500 Internal Server Error\r\nContent-Type: application/x-amz-json-1.1\r\nContent-Length: 60\r\n\r\n{\"__type\":\"InternalFailure\",\"message\":\"The journal failed.\"}"
    }
}
