//! A request message, and why there is none.
use crate::method::Method;
use json_text::{Bytes, Text};
use thiserror::Error;

/// A request message.
#[derive(Debug, Drop)]
pub struct Message {
    pub method: Method,
    /// The value of the field `X-Amz-Target`. A value that is not UTF-8 is given as the empty text.
    pub target: Option<Text>,
    /// The value of the field `x-caller-account`, by the same rule.
    pub caller: Option<Text>,
    pub body: Bytes,
    /// The sender asks to close after this message: version 1.0, or a field `Connection` with the whole value `close`.
    pub close: bool,
}

/// Why bytes are refused: no message begins with them, whatever follows.
#[derive(Clone, Copy, Debug, PartialEq, Eq)]
pub enum Refusal {
    /// Nothing continues the bytes to a head, or a whole head breaks a rule on its fields.
    BadHead,
    /// A POST has no `Content-Length`.
    LengthRequired,
    /// The body would be longer than 1,048,576 bytes.
    TooLarge,
    /// The head does not end within 16,384 bytes, or it has more than 64 fields.
    HeadTooLarge,
}

/// Why there is no message.
#[derive(Debug, Drop, Error)]
pub enum WireFault {
    #[error("the bytes begin no message that is served")]
    Refused(Refusal),
    #[error("out of memory")]
    NoMemory,
}

impl From<json_text::NoMemory> for WireFault {
    ghost use Rattle.std.specs.Prelude.{◌≡◌};
    ghost use Rattle.api_messages.specs.declared.message.WireFault.TheVariants as Fault;

    ghost from_gives = { λ _ e. e ≡ Fault.NoMemory };

    fn from(_refused: json_text::NoMemory) -> WireFault {
        WireFault::NoMemory
    }
}
