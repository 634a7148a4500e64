//! Replies, and their bytes.
#![tactic(auto)]

mod bytes;
mod cause;
mod counts;
mod kind;
mod member;
mod reply;

pub use bytes::{
    bad_head_reply, head_too_large_reply, length_required_reply, no_memory_reply, not_post_head,
    not_post_reply, too_large_reply, write_reply,
};
pub use cause::{Cause, push_failure};
pub use counts::CountsReply;
pub use kind::Kind;
pub use member::Member;
pub use reply::{Reply, limit_reply, refused_reply};
