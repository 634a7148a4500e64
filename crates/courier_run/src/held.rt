// A claimed duty as a trait.
ghost use Rattle.std.specs.Prelude.{◌≡◌};
ghost use Rattle.courier_run.specs.Claim.{Claim, IsWayOf};

/// How a duty's text reaches its target.
#[derive(Clone, Copy, Debug, PartialEq, Eq)]
pub enum Way {
    /// The endpoint is the ARN of a queue. The record of the attempt adds the message.
    Queue,
    /// The endpoint is any other text. The link sends to it; a text that is no valid URL fails before the link connects.
    Http,
}

/// A duty that a book gave out. It borrows nothing of the book.
pub trait HeldDuty {
    /// What a step of delivery sees of it.
    ghost shows: { Self → Claim };

    fn way(&self) -> Way
        ensures { IsWayOf (shows self.now) result };

    fn endpoint(&self) -> &str
        ensures { result.now ≡ (shows self.now).endpoint };

    fn text(&self) -> &str
        ensures { result.now ≡ (shows self.now).text };

    /// The moment of the batch that made the duty.
    fn accepted(&self) -> u64
        ensures { result ≡ (shows self.now).accepted };

    /// The greatest age at which the duty is attempted, in seconds.
    fn age(&self) -> u32
        ensures { result ≡ (shows self.now).age };

    /// The moment of the claim.
    fn moment(&self) -> u64
        ensures { result ≡ (shows self.now).moment };
}
