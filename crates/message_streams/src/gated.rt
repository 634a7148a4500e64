//! Where a test may hold a session.
use bus_host::{Gate, Point};
use std::alloc::AllocError;
use std::sync::Wait;

/// One request of a connection, and the gate that may hold it.
pub struct Gated<'a, Rt, G> {
    pub rt: &'a Rt,
    pub gate: &'a G,
    /// The number of the connection: from 1, and 0 if there is only one session.
    pub connection: u64,
    /// The number of the request in its connection, from 1.
    pub call: u64,
}

impl<Rt, G> Clone for Gated<'_, Rt, G> {
    fn clone(&self) -> Result<Self, AllocError> {
        Ok(*self)
    }
}

impl<Rt, G> Copy for Gated<'_, Rt, G> {}

impl<Rt: Wait, G: Gate> Gated<'_, Rt, G> {
    /// A reply is about to be written.
    pub fn at_reply(self) {
        self.gate
            .hold(self.rt, self.connection, self.call, Point::Reply);
    }
}
