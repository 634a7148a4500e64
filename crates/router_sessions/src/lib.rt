//! Sessions that share one book in turns. The bytes that a session reads determine which turns it makes and which bytes are written.
#![tactic(auto)]

mod delivery;
mod desk;
mod exchange;
mod quiet;
mod replays;
mod session;
mod text;

pub use message_streams::SessionEnd;
pub use quiet::{look, serve_quiet, step_quiet};
pub use session::serve_session;
