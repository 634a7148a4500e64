//! What a target is given as its input.
ghost use Rattle.std.specs.Prelude.{◌≡◌};
ghost use Rattle.rule_targets.specs.Given as spec;

use json_text::Text;
use std::marker::Model;

/// The input of a target, as a request gives it.
#[derive(Debug, Drop)]
pub enum GivenInput {
    /// A JSON text, which the target gets.
    Input(Text),
    /// A path to the part of the event that the target gets.
    InputPath(Text),
    /// A template that is filled from the event.
    InputTransformer(Transformer),
}

/// An InputTransformer as it is given: the entries of its InputPathsMap in their order, and its InputTemplate. Contracts see both.
#[derive(Debug, Drop)]
pub struct Transformer {
    paths: Vec<(Text, Text)>,
    template: Text,
}

impl Model for Transformer {
    ghost use Rattle.rule_targets.specs.Given.{Transformer as View};

    ghost Value = { View };

    ghost view = { λ t. record { paths = t.paths.items; template = t.template } };
}

impl Transformer {
    pub fn new(paths: Vec<(Text, Text)>, template: Text) -> Transformer
        ensures { result ≡ record { paths = paths.items; template = template } }
    {
        Transformer { paths, template }
    }

    /// The keys of the InputPathsMap with the texts of their paths, in its order.
    pub fn paths(&self) -> &[(Text, Text)]
        ensures { result.now ≡ self.now.paths }
    {
        self.paths.as_slice()
    }

    /// The InputTemplate.
    pub fn template(&self) -> &str
        ensures { result.now ≡ self.now.template }
    {
        self.template.as_str()
    }
}
