// A listener as a trait.
ghost use Rattle.std.specs.Prelude.{◌≡◌, ℕ, Bool, List, [], ◌∷◌, ◌++◌, Option};

use router_disk::{Sink, Source};

/// What a call of `next` returns.
#[derive(Drop)]
pub enum Knock<I, O> {
    /// A connection: the source of its requests, and the sink of its replies.
    Conn(I, O),
    /// No connection came for a while.
    Quiet,
    /// No further connection will come.
    Closed,
    /// The door failed. Its count of faults shows it.
    Failed,
    /// Out of memory. The door's count stays as it was.
    NoMemory,
}

/// A connection that `done` ended.
#[derive(Drop)]
pub struct Ended<I, O> {
    pub input: I,
    pub output: O,
    /// Whether out of memory ended it.
    pub cut: bool,
}

/// A listener for connections. It shows the connections to come, those that it gave and those that it ended.
pub trait Door: Send {
    ghost use Rattle.router_disk.specs.Faults.{CountsFaults};
    ghost use Rattle.bus_host.specs.Knock.{knock_outcome};
    ghost use Rattle.bus_host.specs.declared.door.Ended.{Ended};
    ghost use Rattle.bus_host.specs.Doors.{Lengthened, HasNone, Shortened, closed_after, given_by};

    type In: Source;

    type Out: Sink;

    /// The connections that are still to come, in order, as they will be given. `None` if they are not known.
    ghost ahead: { Self → Option (List (Self.In × Self.Out)) };

    /// The connections given so far, in order, as they were given. `None` if they are not known.
    ghost given: { Self → Option (List (Self.In × Self.Out)) };

    /// The connections that ended so far, in order, as they were then. `None` if they are not known.
    ghost ended: { Self → Option (List (Ended Self.In Self.Out)) };

    /// The connections given so far, in order, as they were given.
    ghost gave: { Self → List (Self.In × Self.Out) };

    /// The connections that ended so far, in order, as they were then.
    ghost took_back: { Self → List (Ended Self.In Self.Out) };

    /// Whether `next` has returned `Closed`.
    ghost closed: { Self → Bool };

    /// The number of calls of `next` that have failed.
    ghost faults: { Self → ℕ };

    /// The count of faults. It stays at the last `u64`.
    fn faults(&self) -> u64
        ensures { result ≡ faults self.now };

    /// The next connection, or why there is none.
    fn next(&mut self) -> Knock<Self::In, Self::Out>
        ensures count { CountsFaults (faults self.old) (faults self.new) (knock_outcome result) }
        ensures ahead { Shortened (ahead self.old) (ahead self.new) (given_by result) }
        ensures given { Lengthened (given self.old) (given self.new) (given_by result) }
        ensures ended { ended self.new ≡ ended self.old }
        ensures closed { result ≡ Knock.Closed → HasNone (ahead self.old) }
        ensures gave { gave self.new ≡ gave self.old ++ given_by result }
        ensures took_back { took_back self.new ≡ took_back self.old }
        ensures over { closed self.new ≡ closed_after (closed self.old) result };

    /// Ends a connection that `next` gave. `cut` is true if out of memory ended it. The call needs no memory.
    fn done(&mut self, input: Self::In, output: Self::Out, cut: bool)
        ensures faults { faults self.new ≡ faults self.old }
        ensures ahead { ahead self.new ≡ ahead self.old }
        ensures given { given self.new ≡ given self.old }
        ensures ended { Lengthened (ended self.old) (ended self.new) (record { input = input; output = output; cut = cut } ∷ []) }
        ensures gave { gave self.new ≡ gave self.old }
        ensures took_back { took_back self.new ≡ took_back self.old ++ record { input = input; output = output; cut = cut } ∷ [] }
        ensures over { closed self.new ≡ closed self.old };
}
