//! The router's book: the tables, the history of its turns, and the journal to which their batches are appended. What a session did is said of
//! this history.
#![tactic(auto)]

mod book;
mod fault;
mod held;
mod history;
mod machine;
mod opened_disk;
mod repeats;
mod turns;
mod visit;

pub use book::{Book, Machine, MadeTurn, Seat, TurnReply};
pub use fault::RequestFault;
pub use held::Held;
pub use history::Why;
pub use visit::was_cut;
