//! The texts that targets get.
ghost use Rattle.std.specs.Prelude.{◌≡◌, ◌≤◌, ◌++◌, [], ℕ, List, Some, OnOk, IfOk, flat_map, unwrap_or};
ghost use Rattle.std.specs.Str.{IsUtf8};
ghost use Rattle.json_text.specs.Tree.{text, null};
ghost use Rattle.json_text.specs.View.{tree_of};
ghost use Rattle.json_text.specs.Moment.{IsMoment};
ghost use Rattle.json_text.specs.Node.{Node};
ghost use Rattle.json_text.specs.Grammar.{IsText};
ghost use Rattle.json_text.specs.Compact.{compact_text, escape, IsValue, tree_levels};
ghost use Rattle.event_time.specs.Time.{IsIso};
ghost use Rattle.input_transform.specs.declared.path.Step.{Step as PathStep};
ghost use Rattle.input_transform.specs.Path.{found_at};
ghost use Rattle.input_transform.specs.Filled.{inside_text};
ghost use Rattle.input_transform.specs.Stored.{known_value, piece_text, pieces_text};
ghost use Rattle.input_transform.specs.Fills.{input_text, IsWithinLimit, IsSoundInput, IsFilledText};
ghost use Rattle.input_transform.specs.Filling.{scene_of, IsFound};

use super::escape::push_escaped;
use super::fault::FillFault;
use super::piece::{Known, Piece};
use super::value::{Filling, Found, looked_up, rule_name, value_of};
use super::{JsonPath, Template};
use event_time::iso;
use json_text::{Bytes, Json, NoMemory, Text, write};
use std::alloc::Global;
use std::sync::Arc;

/// The most bytes that a target's text may have.
const MOST_TEXT: usize = 1_048_576;

/// What a target gets of an event: the event, a fixed text, what a path finds in the event, or a filled template.
#[derive(Debug, Drop)]
pub enum Input {
    Whole,
    /// The compact text of a JSON value.
    Fixed(Arc<Text>),
    Path(JsonPath),
    Transform(Template),
}

/// The text that a target with this input gets of the event. `ingested` is the moment of the batch, in seconds since 1970. The
/// rule's name is its ARN after the last `/`. `TooLong` if the text has more than 1,048,576 bytes.
pub fn fill_tree(
    alloc: Global,
    input: &Input,
    event: &Json,
    rule_arn: &str,
    ingested: u64,
) -> Result<Text, FillFault>
    requires moment { IsMoment ingested }
    requires value { IsValue (tree_of event.now) }
    ensures text { (time : List ℕ) → IsIso ingested time
        → IsWithinLimit (λ t. t) (input_text (record { event = tree_of event.now; rule_arn = rule_arn.now; time = time }) input.now) result }
    // Whatever the event and the ARN, the text is one JSON text.
    ensures json { tree_levels (tree_of event.now) ≤ 100 → IsSoundInput input.now → IfOk result (λ t. (n : Node) × IsText 200 t n) }
{
    match input {
        Input::Whole => text_of_value(alloc, event),
        Input::Fixed(text) => copied(alloc, text.as_str()),
        Input::Path(path) => text_at(alloc, path, event),
        Input::Transform(template) => fill(alloc, template, event, rule_arn, ingested),
    }
}

/// The value's compact text.
fn text_of_value(alloc: Global, json: &Json) -> Result<Text, FillFault>
    requires { IsValue (tree_of json.now) }
    ensures { IsWithinLimit (λ t. t) (compact_text (tree_of json.now)) result }
{
    let mut out = Bytes::new(alloc);
    match write(json, &mut out) {
        Ok(()) => text_of_bytes(alloc, &out),
        Err(_) => Err(FillFault::NoMemory),
    }
}

/// The bytes as a text, if they are within the limit.
fn text_of_bytes(alloc: Global, bytes: &Bytes) -> Result<Text, FillFault>
    requires { IsUtf8 bytes.now }
    ensures { IsWithinLimit (λ t. t) bytes.now result }
{
    match str::from_utf8(bytes.as_slice()) {
        Ok(text) => copied(alloc, text),
        Err(_) => unreachable!(),
    }
}

/// A copy of the text, if it is within the limit.
fn copied(alloc: Global, text: &str) -> Result<Text, FillFault>
    ensures { IsWithinLimit (λ t. t) text.now result }
{
    if text.len() > MOST_TEXT {
        return Err(FillFault::TooLong);
    }
    match Text::from_str(alloc, text) {
        Ok(copied) => Ok(copied),
        Err(_) => Err(FillFault::NoMemory),
    }
}

/// The compact text of what the path finds, or `null`.
fn text_at(alloc: Global, path: &JsonPath, event: &Json) -> Result<Text, FillFault>
    requires { IsValue (tree_of event.now) }
    ensures { IsWithinLimit (λ t. t) (compact_text (unwrap_or (found_at path.now (tree_of event.now)) null)) result }
{
    match path.at(event) {
        Some(found) => text_of_value(alloc, found),
        None => copied(alloc, "null"),
    }
}

/// The text of a template, filled at a moment.
fn fill(
    alloc: Global,
    template: &Template,
    event: &Json,
    rule_arn: &str,
    ingested: u64,
) -> Result<Text, FillFault>
    requires moment { IsMoment ingested }
    requires value { IsValue (tree_of event.now) }
    ensures text { (time : List ℕ) → IsIso ingested time
        → IsWithinLimit (λ t. t) (pieces_text (record { event = tree_of event.now; rule_arn = rule_arn.now; time = time }) template.now.1 template.now.0) result }
    ensures value { IfOk result (λ t. IsFilledText (tree_of event.now) t) }
{
    match iso(alloc, ingested) {
        Ok(time) => fill_at(alloc, template, event, rule_arn, time.as_str()),
        Err(_) => Err(FillFault::NoMemory),
    }
}

/// The text of a template, filled with this time text.
fn fill_at(
    alloc: Global,
    template: &Template,
    event: &Json,
    rule_arn: &str,
    time: &str,
) -> Result<Text, FillFault>
    requires { IsValue (tree_of event.now) }
    ensures text { IsWithinLimit (λ t. t)
        (pieces_text (record { event = tree_of event.now; rule_arn = rule_arn.now; time = time.now }) template.now.1 template.now.0) result }
    ensures value { IfOk result (λ t. IsFilledText (tree_of event.now) t) }
{
    let _name = rule_name(rule_arn);
    let found = looked_up(alloc, template.paths(), event)?;
    let filling = Filling {
        event,
        rule_arn,
        time,
        found: &found,
    };
    match filled_bytes(alloc, template.pieces(), &filling) {
        Ok(bytes) => text_of_bytes(alloc, &bytes),
        Err(fault) => Err(fault),
    }
}

/// The text of the pieces. Stops at the first piece that passes the limit.
fn filled_bytes(alloc: Global, pieces: &[Piece], filling: &Filling<'_>) -> Result<Bytes, FillFault>
    ensures { (paths : List (List PathStep)) → IsFound filling.now paths
        → IsWithinLimit (λ b. b) (pieces_text (scene_of filling.now) paths pieces.now) result }
{
    let mut out = Bytes::new(alloc);
    for piece in pieces {
        match push_piece(alloc, piece, filling, &mut out) {
            Ok(()) => (),
            Err(_) => return Err(FillFault::NoMemory),
        }
        if out.len() > MOST_TEXT {
            return Err(FillFault::TooLong);
        }
    }
    Ok(out)
}

fn push_piece(
    alloc: Global,
    piece: &Piece,
    filling: &Filling<'_>,
    out: &mut Bytes,
) -> Result<(), NoMemory>
    ensures { OnOk result ((paths : List (List PathStep)) → IsFound filling.now paths
        → out.new ≡ out.old ++ piece_text (scene_of filling.now) paths piece.now) }
{
    match piece {
        Piece::Plain(bytes) => out.extend(bytes.as_slice()),
        Piece::Value(known) => push_value(alloc, *known, filling, out),
        Piece::Inside(known) => push_inside(alloc, *known, filling, out),
    }
}

/// Adds a name's value in the place of a value.
fn push_value(
    alloc: Global,
    known: Known,
    filling: &Filling<'_>,
    out: &mut Bytes,
) -> Result<(), NoMemory>
    ensures { OnOk result ((paths : List (List PathStep)) → IsFound filling.now paths
        → out.new ≡ out.old ++ compact_text (unwrap_or (known_value (scene_of filling.now) paths known) (text []))) }
{
    match value_of(alloc, known, filling)? {
        Found::Missing => out.extend(b"\"\""),
        Found::Lent(json) => write(json, out),
        Found::Made(json) => write(&json, out),
    }
}

/// Adds a name's value in a string.
fn push_inside(
    alloc: Global,
    known: Known,
    filling: &Filling<'_>,
    out: &mut Bytes,
) -> Result<(), NoMemory>
    ensures { OnOk result ((paths : List (List PathStep)) → IsFound filling.now paths
        → out.new ≡ out.old ++ flat_map escape (inside_text (known_value (scene_of filling.now) paths known))) }
{
    match value_of(alloc, known, filling)? {
        Found::Missing => Ok(()),
        Found::Lent(json) => push_in_string(json, out),
        Found::Made(json) => push_in_string(&json, out),
    }
}

/// Adds a string's characters, or another value's compact text, as they are written in a string.
fn push_in_string(json: &Json, out: &mut Bytes) -> Result<(), NoMemory>
    ensures { OnOk result (out.new ≡ out.old ++ flat_map escape (inside_text (Some (tree_of json.now)))) }
{
    match json.as_text() {
        Some(text) => push_escaped(text.as_bytes(), out),
        None => {
            let mut bytes = out.new_beside();
            write(json, &mut bytes)?;
            push_escaped(bytes.as_slice(), out)
        }
    }
}
