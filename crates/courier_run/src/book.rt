// A book of duties as a trait.
ghost use Rattle.std.specs.Prelude.{◌≡◌, ◌++◌, ◌∷◌, [], ℕ, List, IfOk, MatchOption};
ghost use Rattle.std.specs.Result.{IfErr};
ghost use Rattle.json_text.specs.Moment.{IsMoment};
ghost use Rattle.delivery_duties.specs.declared.outcome.Outcome.{Outcome};
ghost use Rattle.courier_run.specs.Claim.{Claim, FitsClaim, NeedsSend};
ghost use Rattle.courier_run.specs.Act.{Act, looks, makes};
ghost use Rattle.courier_run.specs.Steps.{Attempt, Why, unsent, IsUnrecorded};
ghost use Rattle.courier_run.specs.Book.{HasCause, stop_of};

use crate::HeldDuty;
use delivery_duties::{Fate, Outcome};
use thiserror::Error;

/// Why a book made no claim or no record.
#[derive(Clone, Copy, Debug, PartialEq, Eq, Error)]
pub enum BookFault {
    /// The book is at its number limit.
    #[error("the number limit is reached")]
    NumberLimit,
    /// The book is broken: it can keep no record any more.
    #[error("the book is broken")]
    Broken,
    /// Out of memory.
    #[error("out of memory")]
    NoMemory,
}

/// A book that gives out duties and records their attempts.
pub trait DutyBook {
    /// A claimed duty. It has all memory that its record needs.
    type Held: HeldDuty;

    /// A turn of the book with what contracts know of it.
    ghost Placed: { Type 0 };

    /// What a look at the book shows.
    ghost State: { Type 0 };

    /// What holds of the book before and after each call.
    ghost sound: { Self → Type 0 };

    /// No claim that the book gave out is open.
    ghost rests: { Self → Type 0 };

    /// This claim is open, and no other that the book gave out.
    ghost holds: { Self → Claim → Type 0 };

    /// What the book did from one value to another: its turns and its looks, in order.
    ghost did: { Self → Self → List (Act Placed State) → Type 0 };

    /// At first nothing was done.
    ghost begins: { (b : Self) → did b b [] };

    /// What was done in two parts was done.
    ghost joins: { (a b c : Self) (first second : List (Act Placed State)) → did a b first → did b c second → did a c (first ++ second) };

    /// The turn claims this duty at the moment.
    ghost claims: { Placed → Claim → ℕ → Type 0 };

    /// The turn records this attempt.
    ghost records: { Placed → Attempt → Type 0 };

    /// The turn puts this claim back.
    ghost puts_back: { Placed → Claim → Why → Type 0 };

    /// The turn breaks the book, since the record of this claim with this outcome could not be kept.
    ghost breaks: { Placed → Claim → Outcome → Type 0 };

    /// No duty is pending, due at this moment and unclaimed.
    ghost idle: { State → ℕ → Type 0 };

    /// The number limit stops a claim at this moment.
    ghost full: { State → ℕ → Type 0 };

    /// The book is broken, and below its number limit a duty is due at this moment.
    ghost broken: { State → ℕ → Type 0 };

    /// The ghost name of the value that the book borrows. No call changes it, so the lender of the book knows what it
    /// ends as.
    ghost lender: { Self → ℕ };

    /// Claims the duty that is due first at `moment`. If it gives none, the book was looked at.
    fn claim(&mut self, moment: u64) -> Result<Option<Self::Held>, BookFault>
        requires moment { IsMoment moment }
        requires sound { sound self.old }
        requires rests { rests self.old }
        ensures sound { sound self.new }
        ensures lender { lender self.new ≡ lender self.old }
        ensures claimed { IfOk result (λ found. MatchOption found
            (rests self.new × ((s : State) × did self.old self.new (looks s ∷ []) × idle s moment))
            (λ held. holds self.new (Self.Held.shows held)
            × ((p : Placed) × did self.old self.new (makes p ∷ []) × claims p (Self.Held.shows held) moment))) }
        ensures refused { IfErr result (λ fault. rests self.new
            × ((s : State) × did self.old self.new (looks s ∷ []) × HasCause (full s moment) (broken s moment) fault)) };

    /// Records an attempt at the claim's moment, and returns the duty's fate. The turn of the record decides whether a
    /// queue exists. An `Err` has put the claim back, after it broke the book if this record could not be kept. It is never `NoMemory`.
    fn record_of(
        &mut self,
        held: Self::Held,
        outcome: Outcome,
        moment: u64,
    ) -> Result<Fate, BookFault>
        requires sound { sound self.old }
        requires holds { holds self.old (Self.Held.shows held) }
        requires fits { FitsClaim (Self.Held.shows held) outcome }
        ensures sound { sound self.new }
        ensures lender { lender self.new ≡ lender self.old }
        ensures rests { rests self.new }
        ensures recorded { IfOk result (λ fate. (q : Placed) × did self.old self.new (makes q ∷ [])
            × records q (record { claim = Self.Held.shows held; outcome = outcome; fate = fate })) }
        ensures refused { IfErr result (λ fault. (acts : List (Act Placed State)) × did self.old self.new acts
            × IsUnrecorded claims records puts_back breaks idle full broken (Self.Held.shows held) outcome acts (stop_of fault)) };

    /// Puts a claim back of which nothing was sent, so that the duty can be claimed again.
    fn put_back(&mut self, held: Self::Held)
        requires sound { sound self.old }
        requires holds { holds self.old (Self.Held.shows held) }
        requires needed { NeedsSend (Self.Held.shows held) }
        ensures sound { sound self.new }
        ensures lender { lender self.new ≡ lender self.old }
        ensures rests { rests self.new }
        ensures put_back { (q : Placed) × did self.old self.new (makes q ∷ []) × puts_back q (Self.Held.shows held) unsent };
}
