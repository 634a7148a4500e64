//! Connections of a listener over TCP: what each waits for, when it ends, which one ends for a client that waits, and those that
//! wait for their client's end.
#![tactic(auto)]

mod closing;
mod connection;
mod ending;
mod open_connections;
mod times;

pub use closing::Closing;
pub use connection::{Connection, is_waiting, one_wait};
pub use ending::Waited;
pub use open_connections::OpenConnections;
pub use times::Times;
