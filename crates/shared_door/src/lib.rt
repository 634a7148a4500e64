//! A door that threads share, as the list of what it did. Each connection that ended fits the history that the threads share, and none has
//! the number of another.
#![tactic(auto)]

mod acts;
mod connection;
mod known;
mod naming;
mod porch;
mod served;
mod tickets;

pub use acts::{Act, Arrival, SeenTurns, Visit, turns_seen};
pub use connection::{Connection, Knocked, Over, Standing};
pub use known::{Known, Numbers};
pub use naming::Naming;
pub use porch::{Parts, Porch};
pub use served::Served;
pub use tickets::{Ticket, Tickets};
