//! A law of the definitions, for every input.
ghost use Rattle.std.specs.Prelude.{◌≡◌};
ghost use Rattle.input_transform.specs.declared.fill.Input.{Input as Read};
ghost use Rattle.input_transform.specs.Names.{Scene};
ghost use Rattle.input_transform.specs.Fills.{input_text};
ghost use Rattle.rule_targets.specs.declared.given.GivenInput.{GivenInput as Given};
ghost use Rattle.rule_targets.specs.Input.{IsReadOf};

/// What is read of an input gives one text, whatever it is filled from.
pub fn one_text()
    ensures { (given : Given) (a b : Read) (scene : Scene) → IsReadOf given a → IsReadOf given b → input_text scene a ≡ input_text scene b }
{}
