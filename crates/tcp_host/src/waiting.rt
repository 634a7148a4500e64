// Clients that have connected and wait for a place.
ghost use Rattle.std.specs.Prelude.{◌≡◌};

use crate::listening::{Arrival, Listening};
use circular_buffer::HeapCircularBuffer;
use std::alloc::{AllocError, Global};
use std::net::TcpStream;

/// How many clients a door accepts beyond its limit. The others wait in the system's queue.
const MOST: usize = 8;

/// The clients that wait for a place, the first one first. Their memory is taken at the start.
#[derive(Drop)]
pub(crate) struct Waiting {
    clients: HeapCircularBuffer<TcpStream>,
    ghost few: { clients.capacity ≡ 8 },
}

impl Waiting {
    pub(crate) fn new(alloc: Global) -> Result<Waiting, AllocError> {
        Ok(Waiting {
            clients: HeapCircularBuffer::with_capacity(alloc, MOST)?,
        })
    }

    pub(crate) fn count(&self) -> usize {
        self.clients.len()
    }

    /// Adds clients that wait in the system's queue, as many as there is room for.
    pub(crate) fn fill(&mut self, listening: &Listening) {
        for _ in 0..MOST {
            if self.clients.is_full() {
                return;
            }
            match listening.accept() {
                Arrival::Client(client) => self.add(client),
                Arrival::Nobody | Arrival::Lost | Arrival::Broken => return,
            }
        }
    }

    fn add(&mut self, client: TcpStream) {
        let _ = self.clients.try_push_back(client);
    }

    /// The client that has waited longest.
    pub(crate) fn take(&mut self) -> Option<TcpStream> {
        self.clients.pop_front()
    }
}
