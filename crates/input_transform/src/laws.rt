//! Laws of the definitions, for every list of bytes.
ghost use Rattle.std.specs.Prelude.{◌≡◌, ◌≤◌, ℕ, List, None};
ghost use Rattle.json_text.specs.Node.{Node, value_of, first_repeat};
ghost use Rattle.json_text.specs.Grammar.{IsText};
ghost use Rattle.json_text.specs.Compact.{compact_text, tree_levels};
ghost use Rattle.input_transform.specs.declared.path.Step.{Step as PathStep};
ghost use Rattle.input_transform.specs.Path.{IsPath};
ghost use Rattle.input_transform.specs.Names.{Scene, Paths};
ghost use Rattle.input_transform.specs.Template.{Content, IsTemplate};
ghost use Rattle.input_transform.specs.Filled.{filled};
ghost use Rattle.input_transform.specs.Stored.{IsScene};

/// A text is at most one path.
pub fn one_path()
    ensures { (bytes : List ℕ) (a b : List PathStep) → IsPath bytes a → IsPath bytes b → a ≡ b }
{}

/// A text is at most one template with these names.
pub fn one_template()
    ensures { (paths : Paths) (bytes : List ℕ) (a b : Content) → IsTemplate paths bytes a → IsTemplate paths bytes b → a ≡ b }
{}

/// A filled template is one JSON text, whatever it is filled from. It spells the template's own tree with values in the places of
/// its names, and no key twice: nothing that was put in ends a string, adds a member or moves another.
pub fn filled_text_spells_the_tree()
    ensures { (paths : Paths) (bytes : List ℕ) (c : Content) (scene : Scene) → IsTemplate paths bytes c → IsScene scene
        → tree_levels scene.event ≤ 100
        → (n : Node) × IsText 200 (compact_text (filled scene c)) n × (value_of n ≡ filled scene c) × (first_repeat n ≡ None) }
{}
