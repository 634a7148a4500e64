//! A connection that a porch gave.
ghost use Rattle.std.specs.Prelude.{◌≡◌};
ghost use Rattle.shared_door.specs.Knocks.{number_of};

use crate::acts::{Act, Arrival};
use crate::tickets::Ticket;
use bus_host::Door;
use growing_list::Front;

/// A connection. It is not `Drop`: give it back to its porch. Contracts read its number as `number_of`, its streams as they
/// came as `came_of`, what the porch's pass had seen then as `seen_of`, and which porch gave it as `tickets_of`.
pub struct Connection<D: Door, T> {
    pub input: D::In,
    pub output: D::Out,
    pub(crate) ticket: Ticket<Arrival<D::In, D::Out, T>>,
}

impl<D: Door, T> Connection<D, T> {
    /// Its place, from 1, among the connections that the porch gave.
    pub fn number(&self) -> u64
        ensures { result ≡ number_of self.now }
    {
        self.ticket.number()
    }
}

/// What a knock returns.
pub enum Knocked<D: Door, T> {
    Conn(Connection<D, T>),
    /// No connection came for a while.
    Quiet,
    /// No further connection will come. The front has the act that says so.
    Closed(Front<Act<D::In, D::Out, T>>),
    /// The door failed, now or at an earlier knock. The front has the act that says so.
    Failed(Front<Act<D::In, D::Out, T>>),
    /// The porch was stopped. The front has the act by which it is over.
    Stopped(Front<Act<D::In, D::Out, T>>),
    /// Out of memory.
    NoMemory,
}

/// Why a porch gives no more connections.
#[derive(Clone, Copy, Debug, PartialEq, Eq)]
pub enum Over {
    /// The door will give no further connection, or it gave all that it may.
    Closed,
    /// The door failed.
    Failed,
    /// The history says that no further connection is to be served.
    Stopped,
}

/// Where a porch is.
#[derive(Clone, Copy)]
pub struct Standing {
    /// The number of connections given so far.
    pub gave: u64,
    /// How many it may still give; `None` is no limit.
    pub left: Option<u64>,
    pub over: Option<Over>,
}
