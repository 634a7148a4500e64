//! Laws of the definitions, for every list of bytes.
ghost use Rattle.std.specs.Prelude.{◌≡◌, ℕ, List};
ghost use Rattle.json_text.specs.Node.{Node};
ghost use Rattle.json_text.specs.Grammar.{IsText};

/// A text spells at most one value, however many levels are allowed.
pub fn one_value()
    ensures { (a b : ℕ) (bytes : List ℕ) (n m : Node) → IsText a bytes n → IsText b bytes m → n ≡ m }
{}
