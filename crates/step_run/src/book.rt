// A book of steps as a trait.
ghost use Rattle.std.specs.Prelude.{◌≡◌, ◌++◌, ◌∷◌, [], ℕ, List, IfOk, MatchBool};
ghost use Rattle.std.specs.Result.{IfErr};
ghost use Rattle.json_text.specs.Moment.{IsMoment};
ghost use Rattle.step_run.specs.Act.{Act, looks, makes};
ghost use Rattle.step_run.specs.Step.{IsRefusal};

use crate::StepFault;

/// A book that makes steps of one kind, one after the other.
pub trait StepBook {
    /// A turn of the book with what contracts know of it.
    ghost Placed: { Type 0 };

    /// What a look at the book shows.
    ghost State: { Type 0 };

    /// What else is done where steps are made, such as sends. A step of the book does none of it.
    ghost Other: { Type 0 };

    /// What holds of the book before and after each call.
    ghost sound: { Self → Type 0 };

    /// What the book did from one value to another: its turns and its looks, in order.
    ghost did: { Self → Self → List (Act Placed State Other) → Type 0 };

    /// At first nothing was done.
    ghost begins: { (b : Self) → did b b [] };

    /// What was done in two parts was done.
    ghost joins: { (a b c : Self) (first second : List (Act Placed State Other)) → did a b first → did b c second → did a c (first ++ second) };

    /// The turn makes a step at this moment of the clock.
    ghost steps: { Placed → ℕ → Type 0 };

    /// The turn breaks the book, since a step at this moment could not be kept.
    ghost breaks: { Placed → ℕ → Type 0 };

    /// There is no step to make at this moment.
    ghost idle: { State → ℕ → Type 0 };

    /// There is a step to make at this moment, and the number limit stops it.
    ghost full: { State → ℕ → Type 0 };

    /// The book is broken, and below the number limit there is a step to make at this moment.
    ghost broken: { State → ℕ → Type 0 };

    /// The ghost name of the value that the book borrows. No call changes it, so the lender of the book knows what it
    /// ends as.
    ghost lender: { Self → ℕ };

    /// Makes the next step at `reading`, and returns whether there was one. If there is none, the book was looked at.
    fn step(&mut self, reading: u64) -> Result<bool, StepFault>
        requires moment { IsMoment reading }
        requires sound { sound self.old }
        ensures sound { sound self.new }
        ensures lender { lender self.new ≡ lender self.old }
        ensures stepped { IfOk result (λ made. MatchBool made
            ((p : Placed) × did self.old self.new (makes p ∷ []) × steps p reading)
            ((s : State) × did self.old self.new (looks s ∷ []) × idle s reading)) }
        ensures refused { IfErr result (λ fault.
            (acts : List (Act Placed State Other)) × did self.old self.new acts
            × IsRefusal (λ p. breaks p reading) (λ s. full s reading) (λ s. broken s reading) acts fault) };
}
