//! What a call replies: its causes, and what it shows of queues and deliveries.
#![tactic(auto)]

mod causes;
mod counts;
mod messages;
mod replies;

pub use causes::{change_cause, entry_cause, target_cause};
pub use counts::duty_counts;
pub use messages::peek_messages;
pub use replies::{empty_reply, items_reply, number_reply, target_json, tested_reply, text_reply};
