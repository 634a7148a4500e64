//! Reads a message to the request that it asks for, and writes a reply to bytes.
#![tactic(auto)]

mod call;
mod laws;

pub use api_members::CallFault;
pub use api_messages::{
    Message, Method, Refusal, WireFault, WireIn, awaited_is_short, no_message_is_empty,
    one_reading, one_refusal,
};
pub use api_replies::{
    CountsReply, bad_head_reply, head_too_large_reply, length_required_reply, no_memory_reply,
    not_post_head, not_post_reply, too_large_reply, write_reply,
};
pub use call::read_call;
pub use laws::{entitled, one_call};
