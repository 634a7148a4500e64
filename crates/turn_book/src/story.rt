//! How a value represents the turns that made it.
ghost use Rattle.std.specs.Prelude.{ℕ, List, Option};

/// A value that represents a list of turns.
pub trait Story {
    type Turn;

    ghost turns: { Self → List Self.Turn };

    // The number of the pass that made a turn.
    ghost made_by: { Self.Turn → Option ℕ };

    // What is true of the value whenever it is in the hall.
    ghost sound: { Self → Type 0 };
}
