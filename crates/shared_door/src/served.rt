//! What a connection owes to the history that the threads share.
ghost use Rattle.std.specs.Prelude.{◌≡◌, ℕ, Bool, List, [], ◌++◌};
ghost use mathlib.Core.List.{IsPrefix};
ghost use Rattle.turn_book.specs.Rule.{turns_by};

use turn_book::Story;

/// A value whose history the connections of a door have to fit.
pub trait Served<I, O>: Story {
    // The connection with this number came with these streams and ended with those, and `true` says that out of memory ended
    // it. Its pass had seen the first list of turns when its session began. It fits a history with the second.
    ghost fits: { ℕ → I × O → I × O → Bool → List Self.Turn → List Self.Turn → Type 0 };

    // It then fits each longer history.
    ghost lasts: { (n : ℕ) (came went : I × O) (cut : Bool) (before turns more : List Self.Turn)
        → fits n came went cut before turns → fits n came went cut before (turns ++ more) };

    // The pass with this number has nothing open in this history.
    ghost rests: { ℕ → List Self.Turn → Type 0 };

    // A pass that made no turn has nothing open.
    ghost unturned: { (n : ℕ) (turns : List Self.Turn) → turns_by Self.made_by n turns ≡ [] → rests n turns };

    // A pass that has nothing open has nothing open in a longer history that has no more turns of it.
    ghost keeps: { (n : ℕ) (seen turns : List Self.Turn) → IsPrefix seen turns
        → turns_by Self.made_by n turns ≡ turns_by Self.made_by n seen → rests n seen → rests n turns };

    // After this history no further connection is to be served.
    ghost stops: { List Self.Turn → Type 0 };

    // Nor after a longer one.
    ghost stays: { (seen turns : List Self.Turn) → IsPrefix seen turns → stops seen → stops turns };
}
