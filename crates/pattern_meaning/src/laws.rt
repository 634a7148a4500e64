//! What the crates below have in common.
ghost use Rattle.std.specs.Prelude.{◌↔◌, ℕ, List};
ghost use Rattle.json_text.specs.Number as json;
ghost use Rattle.numeric_keys.specs.Number as keys;

/// The spellings of numbers in JSON texts are those of which numeric_keys finds the millionths.
pub fn one_number_grammar()
    ensures { (text : List ℕ) → json.IsNumber text ↔ ((parts : keys.Parts) × keys.IsNumber parts text) }
{}
