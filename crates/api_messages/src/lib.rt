//! Reads request messages from bytes that come in any pieces.
#![tactic(auto)]

mod fields;
mod front;
mod laws;
mod lines;
mod message;
mod method;
mod wire;

pub use laws::{awaited_is_short, no_message_is_empty, one_reading, one_refusal};
pub use message::{Message, Refusal, WireFault};
pub use method::Method;
pub use wire::WireIn;
