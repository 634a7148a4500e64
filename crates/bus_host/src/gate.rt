// A place at which a test may hold a session.
use std::sync::Wait;

/// A place where a session can be held.
#[derive(Clone, Copy, Debug, PartialEq, Eq)]
pub enum Point {
    /// The events of a request are matched, and the session holds no turn.
    Matched,
    /// A reply is about to be written.
    Reply,
}

/// What may hold a session, so that a test can choose an order of events.
pub trait Gate {
    /// Returns once call `call` of connection `conn` may go on from `at`. Connections count from 1 in the order in which
    /// they come; 0 if there is only one session. Calls count from 1 in each connection.
    fn hold<Rt: Wait>(&self, rt: &Rt, conn: u64, call: u64, at: Point);
}

/// A gate that holds nothing.
#[derive(Clone, Copy, Debug, PartialEq, Eq)]
pub struct NoGate;

impl Gate for NoGate {
    fn hold<Rt: Wait>(&self, _rt: &Rt, _conn: u64, _call: u64, _at: Point) {}
}
