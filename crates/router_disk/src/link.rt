// An outbound link as a trait.
ghost use Rattle.std.specs.Prelude.{◌≡◌, ◌++◌, ℕ, List, Option};
ghost use Rattle.router_disk.specs.Link.{Answered, Exchange, exchanges_of};

use thiserror::Error;

/// Why an endpoint's reply is not known.
#[derive(Clone, Copy, Debug, PartialEq, Eq, Error)]
pub enum LinkFault {
    /// The exchange failed. The link's count of faults shows it.
    #[error("the exchange failed")]
    Failed,
    /// Out of memory before anything was sent. The link's count stays as it was.
    #[error("out of memory")]
    NoMemory,
}

/// What sends texts to endpoints.
pub trait Link: Send {
    ghost use Rattle.router_disk.specs.Faults.{CountsFaults, link_outcome};

    /// The exchanges so far that had an answer: endpoint, text and status code. `None` if they are
    /// not known. An exchange that failed may have reached its endpoint; it has no answer.
    ghost answered: { Self → Option (List Exchange) };

    /// The exchanges so far that had an answer: endpoint, text and status code. An exchange that failed may have reached its
    /// endpoint; it has no answer.
    ghost exchanges: { Self → List Exchange };

    /// The number of sends that have failed.
    ghost faults: { Self → ℕ };

    /// The count of faults. It stays at the last `u64`.
    fn faults(&self) -> u64
        ensures { result ≡ faults self.now };

    /// Sends `body` to the endpoint `to`, and returns the status code of the reply.
    fn send(&mut self, to: &str, body: &str) -> Result<u16, LinkFault>
        ensures answers { Answered (answered self.old) (answered self.new)
            (exchanges_of result to.now body.now) }
        ensures exchanges { exchanges self.new ≡ exchanges self.old ++ exchanges_of result to.now body.now }
        ensures count { CountsFaults (faults self.old) (faults self.new) (link_outcome result) };
}
