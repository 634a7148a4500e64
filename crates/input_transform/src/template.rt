//! Templates, as they are read and stored.
ghost use Rattle.std.specs.Prelude.{◌≡◌, List, IfOk, IfErr, MatchResult};
ghost use Rattle.json_text.specs.View.{tree_of};
ghost use Rattle.json_text.specs.Node.{Node, value_of};
ghost use Rattle.json_text.specs.Grammar.{IsText};
ghost use Rattle.json_text.specs.Compact.{compact_text};
ghost use Rattle.input_transform.specs.Names.{Scene};
ghost use Rattle.input_transform.specs.Template.{Content, IsTemplate};
ghost use Rattle.input_transform.specs.Stored.{FillsAs, FillToValues, IsScene, IsFilledValue, pieces_text};
ghost use Rattle.input_transform.specs.Letters.{steps_of, filled_back};

use super::JsonPath;
use super::fault::TemplateFault;
use super::flat::push_value;
use super::piece::{Piece, Pieces};
use super::rewriting::lettered;
use json_text::{Json, JsonFault, NoMemory, Text, read};
use std::alloc::Global;
use std::marker::Model;

/// The most levels of lists and objects in a template.
const MOST_LEVELS: u32 = 100;

/// A template: its compact text in pieces, and the paths that it was read with. Contracts see both.
#[derive(Debug, Drop)]
pub struct Template {
    pieces: Vec<Piece>,
    paths: Vec<JsonPath>,
}

impl Model for Template {
    ghost use Rattle.std.specs.Prelude.{List};
    ghost use Rattle.input_transform.specs.declared.path.Step.{Step as PathStep};
    ghost use Rattle.input_transform.specs.declared.piece.Piece.{Piece as StoredPiece};
    ghost use Rattle.input_transform.specs.Stored.{FillToValues};

    ghost Value = { List StoredPiece × List (List PathStep) };

    ghost view = { λ t. (t.pieces.items, t.paths.items) };

    ghost invariant = { λ t. FillToValues (t.pieces.items, t.paths.items) };
}

impl Template {
    /// The template that the text spells: JSON with names, nested at most 100 deep. `<name>` is a value, or in a string that is one. A name is
    /// `aws.events.rule-arn`, `aws.events.rule-name`, `aws.events.event.ingestion-time`, `aws.events.event.json`, `aws.events.event`,
    /// or else a key of `paths` that has only `A-Z a-z 0-9 _ - .`. Of two equal keys the first counts. `NotTemplate` if the text is
    /// none.
    pub fn read(
        alloc: Global,
        text: &str,
        paths: &[(Text, JsonPath)],
    ) -> Result<Template, TemplateFault>
        ensures found { IfOk result (λ t. (c : Content) × IsTemplate paths.now text.now c × FillsAs t c) }
        ensures only { (c : Content) → IsTemplate paths.now text.now c
            → MatchResult result (λ t. FillsAs t c) (λ e. e ≡ TemplateFault.NoMemory) }
    {
        match lettered(alloc, text.as_bytes(), paths) {
            Ok(rewritten) => match read_value(alloc, rewritten.as_slice()) {
                Ok(json) => stored(alloc, &json, paths),
                Err(fault) => Err(fault),
            },
            Err(fault) => Err(fault),
        }
    }

    pub(crate) fn pieces(&self) -> &[Piece]
        ensures { result.now ≡ self.now.0 }
    {
        self.pieces.as_slice()
    }

    pub(crate) fn paths(&self) -> &[JsonPath]
        ensures value { result.now ≡ self.now.1 }
        ensures fill { FillToValues self.now }
    {
        self.paths.as_slice()
    }
}

fn read_value(alloc: Global, bytes: &[u8]) -> Result<Json, TemplateFault>
    ensures found { IfOk result (λ v. (n : Node) × IsText 100 bytes.now n × (tree_of v ≡ value_of n)) }
    ensures only { (n : Node) → IsText 100 bytes.now n
        → MatchResult result (λ v. tree_of v ≡ value_of n) (λ e. e ≡ TemplateFault.NoMemory) }
{
    match read(alloc, bytes, MOST_LEVELS) {
        Ok(json) => Ok(json),
        Err(JsonFault::NoMemory) => Err(TemplateFault::NoMemory),
        Err(_) => Err(TemplateFault::NotTemplate),
    }
}

/// The rewritten template in pieces.
fn stored(alloc: Global, json: &Json, paths: &[(Text, JsonPath)]) -> Result<Template, TemplateFault>
    requires { (scene : Scene) → IsScene scene → IsFilledValue scene (filled_back paths.now scene (tree_of json.now)) }
    ensures memory { IfErr result (λ e. e ≡ TemplateFault.NoMemory) }
    ensures filled { IfOk result (λ t. (scene : Scene) → pieces_text scene t.1 t.0 ≡ compact_text (filled_back paths.now scene (tree_of json.now))) }
{
    let mut out = Pieces::new(alloc);
    push_value(json, paths, &mut out)?;
    let pieces = out.finish()?;
    let paths = copy_paths(alloc, paths)?;
    Ok(Template { pieces, paths })
}

fn copy_paths(alloc: Global, paths: &[(Text, JsonPath)]) -> Result<Vec<JsonPath>, NoMemory>
    ensures { IfOk result (λ copies. copies.items ≡ steps_of paths.now) }
{
    let mut copies = Vec::with_capacity(alloc, paths.len())?;
    for entry in paths {
        copies.push(entry.1.copy(alloc)?)?;
    }
    Ok(copies)
}
