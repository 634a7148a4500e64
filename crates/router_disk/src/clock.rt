// A clock as a trait.
ghost use Rattle.std.specs.Prelude.{◌≡◌, ℕ, Option, List, [], ◌∷◌, ◌++◌};
ghost use Rattle.router_disk.specs.Clock.{Gives};

/// A clock. It has no faults.
pub trait Clock: Send {
    /// The readings to come, without end: at `k`, the reading of the `k`-th call from now on, counted from 0. `None` if
    /// they are not known.
    ghost ahead: { Self → Option (ℕ → ℕ) };

    /// The readings so far, in order.
    ghost gave: { Self → List ℕ };

    /// The next reading, in seconds since 1970. It may be any `u64`, and may be earlier than the last one.
    fn now(&mut self) -> u64
        ensures ahead { Gives (ahead self.old) (ahead self.new) (result ∷ []) }
        ensures gave { gave self.new ≡ gave self.old ++ result ∷ [] };
}
