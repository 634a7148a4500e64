//! The laws of policies' texts and of the verdict, for every text, JSON value and asker.
ghost use Rattle.std.specs.Prelude.{◌≡◌, ◌↔◌, ℕ, List};
ghost use Rattle.json_text.specs.Tree.{Tree};
ghost use Rattle.bus_policy.specs.Stored.{stored_of};
ghost use Rattle.bus_policy.specs.Text.{IsPolicyText};
ghost use Rattle.bus_policy.specs.Verdict.{Asker, Verdict, IsVerdict};

/// A text is at most one policy.
pub fn one_policy()
    ensures { (t : List ℕ) (a b : Tree) → IsPolicyText t a → IsPolicyText t b → a ≡ b }
{}

/// A policy has one verdict for an asker, and the policy as it is stored has the same.
pub fn one_verdict()
    ensures stored { (policy : Tree) (asker : Asker) (verdict : Verdict) → IsVerdict policy asker verdict ↔ IsVerdict (stored_of policy) asker verdict }
    ensures once { (policy : Tree) (asker : Asker) (verdict other : Verdict) → IsVerdict policy asker verdict → IsVerdict policy asker other → verdict ≡ other }
{}
