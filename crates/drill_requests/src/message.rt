//! The bytes of a message.
ghost use Rattle.std.specs.Prelude.{◌≡◌, ◌++◌, IfOk, OnOk, decimal};
ghost use Rattle.drill_requests.specs.Messages as messages;

use itoa::Buffer;
use json_text::NoMemory;
use std::alloc::Global;

const HEAD: &[u8] = b"POST / HTTP/1.1\r\nHost: 127.0.0.1\r\nX-Amz-Target: ";

/// The message that posts a body for an operation.
pub(crate) fn message(alloc: Global, operation: &str, body: &[u8]) -> Result<Vec<u8>, NoMemory>
    ensures { IfOk result (λ bytes. bytes.items ≡ messages.message operation.now body.now) }
{
    let mut bytes = Vec::from_slice(alloc, HEAD)?;
    bytes.extend_from_slice(operation.as_bytes())?;
    bytes.extend_from_slice(b"\r\nContent-Length: ")?;
    bytes.extend_from_slice(Buffer::new().format(body.len()).as_bytes())?;
    bytes.extend_from_slice(b"\r\n\r\n")?;
    bytes.extend_from_slice(body)?;
    Ok(bytes)
}

/// Adds a text, and a number after it.
pub(crate) fn push_number(bytes: &mut Vec<u8>, text: &str, number: u64) -> Result<(), NoMemory>
    ensures { OnOk result (bytes.new.items ≡ bytes.old.items ++ (text.now ++ decimal number)) }
{
    bytes.extend_from_slice(text.as_bytes())?;
    bytes.extend_from_slice(Buffer::new().format(number).as_bytes())?;
    Ok(())
}
