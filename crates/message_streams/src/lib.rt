//! The two streams of a session. Messages are read from the one, and the bytes of replies are written to the other.
#![tactic(auto)]

mod delivery;
mod failed;
mod farewell;
mod gated;
mod incoming;
mod refused;
mod reply;

pub use delivery::{StepsAsked, steps_asked, steps_room, write_delivery, write_replays};
pub use failed::journal_failed_reply;
pub use farewell::{SessionEnd, finish};
pub use gated::Gated;
pub use incoming::{Incoming, Lack, next_message};
pub use refused::refusal_bytes;
pub use reply::{fault_bytes, reply_bytes, respond};
