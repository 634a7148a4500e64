//! What follows from the definitions.
ghost use Rattle.std.specs.Prelude.{◌≡◌, ◌↔◌, ℕ, List, Bool};
ghost use Rattle.json_text.specs.Tree.{Tree};
ghost use Rattle.pattern_meaning.specs.Pattern.{Pattern};
ghost use Rattle.pattern_read.specs.Value.{IsPatternOf};
ghost use Rattle.pattern_read.specs.Check.{AllPass, pattern_checks};
ghost use Rattle.pattern_read.specs.Text.{IsPatternText};
ghost use Rattle.pattern_read.specs.Refusal.{IsRefused};
ghost use Rattle.pattern_read.specs.declared.fault.Why.{Why};

/// A value is a pattern exactly when it has no fault. A text is one pattern at most, and is not refused if it is one.
pub fn faults_decide()
    ensures pattern { (root : Bool) (t : Tree) → ((p : Pattern) × IsPatternOf root t p) ↔ AllPass (pattern_checks root t) }
    ensures one { (text : List ℕ) (p q : Pattern) → IsPatternText text p → IsPatternText text q → p ≡ q }
    ensures never_refused { (text : List ℕ) (p : Pattern) (why : Why) (keys : List (List ℕ))
        → IsPatternText text p → ¬ IsRefused text why keys }
{}
