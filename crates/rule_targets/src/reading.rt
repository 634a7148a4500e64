//! Inputs of targets, as they are read.
ghost use Rattle.std.specs.Prelude.{◌≡◌, ◌++◌, ◌&&◌, true, nat_le, IfOk, MatchOption, List, length};
ghost use Rattle.std.specs.Bool.{MatchBool};
ghost use Rattle.std.specs.List.{list_all};
ghost use Rattle.std.specs.Str.{chars};
ghost use Rattle.json_text.specs.View.{tree_of};
ghost use Rattle.json_text.specs.Compact.{compact_text, IsValue};
ghost use Rattle.event_shape.specs.Names.{is_name_of};
ghost use Rattle.input_transform.specs.declared.path.Step.{Step as PathStep};
ghost use Rattle.input_transform.specs.Path.{IsPath, is_letter};
ghost use Rattle.input_transform.specs.Names.{Paths};
ghost use Rattle.input_transform.specs.Template.{Content, IsTemplate};
ghost use Rattle.rule_targets.specs.Input as spec;

use crate::given::{GivenInput, Transformer};
use input_transform::{Input, JsonPath, PathFault, Template, TemplateFault};
use json_text::{Bytes, Json, JsonFault, NoMemory, Text, read, write};
use std::alloc::Global;
use std::sync::Arc;

/// The most characters of an Input or of an InputTemplate.
const MOST_TEXT: usize = 8192;

/// The most characters of an InputPath, and of a key of an InputPathsMap.
const MOST_PATH: usize = 256;

/// The most entries of an InputPathsMap.
const MOST_PATHS: usize = 100;

/// The most levels of lists and objects in an Input.
const MOST_LEVELS: u32 = 100;

/// What no key of an InputPathsMap begins with.
const RESERVED: &str = "AWS";

/// What the input is. `None` if it is not valid.
pub(crate) fn read_input(alloc: Global, given: &GivenInput) -> Result<Option<Input>, NoMemory>
    ensures { IfOk result (λ found. MatchOption found
        (¬ spec.IsValidInput given.now)
        (λ read. spec.IsValidInput given.now × spec.IsReadOf given.now read)) }
{
    match given {
        GivenInput::Input(text) => read_fixed(alloc, text.as_str()),
        GivenInput::InputPath(text) => read_path(alloc, text.as_str()),
        GivenInput::InputTransformer(transformer) => read_transformer(alloc, transformer),
    }
}

/// Whether the text has from 1 to `most` characters.
fn has_chars(text: &str, most: usize) -> bool
    ensures { result ≡ spec.has_chars 1 most text.now }
{
    let count = char_count(text);
    1 <= count && count <= most
}

fn char_count(text: &str) -> usize
    ensures { result ≡ length (chars text.now) }
{
    text.chars().count()
}

fn read_fixed(alloc: Global, text: &str) -> Result<Option<Input>, NoMemory>
    ensures { IfOk result (λ found. MatchOption found
        (¬ spec.IsInput text.now)
        (λ read. spec.IsInput text.now × spec.IsReadOf (GivenInput.Input text.now) read)) }
{
    if !has_chars(text, MOST_TEXT) {
        return Ok(None);
    }
    match read(alloc, text.as_bytes(), MOST_LEVELS) {
        Ok(json) => {
            let text = compact(alloc, &json)?;
            let text = Arc::new(alloc, text)?;
            Ok(Some(Input::Fixed(text)))
        }
        Err(JsonFault::NoMemory) => Err(NoMemory),
        Err(JsonFault::NotJson { at: _ })
        | Err(JsonFault::TooDeep { at: _ })
        | Err(JsonFault::KeyTwice { at: _ }) => Ok(None),
    }
}

/// The value's compact text.
fn compact(alloc: Global, json: &Json) -> Result<Text, NoMemory>
    requires { IsValue (tree_of json.now) }
    ensures { IfOk result (λ text. text ≡ compact_text (tree_of json.now)) }
{
    let mut out = Bytes::new(alloc);
    write(json, &mut out)?;
    match str::from_utf8(out.as_slice()) {
        Ok(text) => Text::from_str(alloc, text),
        Err(_) => unreachable!(),
    }
}

fn read_path(alloc: Global, text: &str) -> Result<Option<Input>, NoMemory>
    ensures { IfOk result (λ found. MatchOption found
        (¬ spec.IsInputPath text.now)
        (λ read. spec.IsInputPath text.now × spec.IsReadOf (GivenInput.InputPath text.now) read)) }
{
    if !has_chars(text, MOST_PATH) {
        return Ok(None);
    }
    match path_of(alloc, text)? {
        Some(path) => Ok(Some(Input::Path(path))),
        None => Ok(None),
    }
}

/// The path that the text is. `None` if it is none.
fn path_of(alloc: Global, text: &str) -> Result<Option<JsonPath>, NoMemory>
    ensures { IfOk result (λ found. MatchOption found
        ((steps : List PathStep) → ¬ IsPath text.now steps)
        (λ path. IsPath text.now path)) }
{
    match JsonPath::read(alloc, text) {
        Ok(path) => Ok(Some(path)),
        Err(PathFault::NotPath) => Ok(None),
        Err(PathFault::NoMemory) => Err(NoMemory),
    }
}

fn read_transformer(alloc: Global, transformer: &Transformer) -> Result<Option<Input>, NoMemory>
    ensures { IfOk result (λ found. MatchOption found
        (¬ spec.IsInputTransformer transformer.now)
        (λ read. spec.IsInputTransformer transformer.now × spec.IsReadOf (GivenInput.InputTransformer transformer.now) read)) }
{
    if !is_within_limits(transformer) {
        return Ok(None);
    }
    match read_paths(alloc, transformer.paths())? {
        Some(paths) => read_template(alloc, transformer, paths.as_slice()),
        None => Ok(None),
    }
}

fn is_within_limits(transformer: &Transformer) -> bool
    ensures { result ≡ (nat_le (length transformer.now.paths) 100 && spec.has_chars 1 8192 transformer.now.template) }
{
    transformer.paths().len() <= MOST_PATHS && has_chars(transformer.template(), MOST_TEXT)
}

/// The template that names these paths, as an input.
fn read_template(
    alloc: Global,
    transformer: &Transformer,
    paths: &[(Text, JsonPath)],
) -> Result<Option<Input>, NoMemory>
    requires { spec.ArePaths transformer.now.paths paths.now }
    ensures { IfOk result (λ found. MatchOption found
        ((c : Content) → ¬ IsTemplate paths.now transformer.now.template c)
        (λ read. (c : Content) × IsTemplate paths.now transformer.now.template c
        × spec.IsReadOf (GivenInput.InputTransformer transformer.now) read)) }
{
    match Template::read(alloc, transformer.template(), paths) {
        Ok(template) => Ok(Some(Input::Transform(template))),
        Err(TemplateFault::NotTemplate) => Ok(None),
        Err(TemplateFault::NoMemory) => Err(NoMemory),
    }
}

/// The paths of the entries, under their keys. `None` if a key is not valid or comes twice, or a value is no path.
fn read_paths(
    alloc: Global,
    entries: &[(Text, Text)],
) -> Result<Option<Vec<(Text, JsonPath)>>, NoMemory>
    ensures { IfOk result (λ found. MatchOption found
        ((paths : Paths) → ¬ spec.ArePaths entries.now paths)
        (λ paths. spec.ArePaths entries.now paths.items)) }
{
    let mut paths = Vec::with_capacity(alloc, entries.len())?;
    if push_paths(alloc, entries, &mut paths)? {
        Ok(Some(paths))
    } else {
        Ok(None)
    }
}

/// Adds the path of each entry, under its key. `false` if a key is not valid or comes twice, or a value is no path.
fn push_paths(
    alloc: Global,
    entries: &[(Text, Text)],
    paths: &mut Vec<(Text, JsonPath)>,
) -> Result<bool, NoMemory>
    ensures { IfOk result (λ all. MatchBool all
        ((more : Paths) × spec.ArePaths entries.now more × (paths.new.items ≡ paths.old.items ++ more))
        ((more : Paths) → ¬ spec.ArePaths entries.now more)) }
{
    match entries {
        [(key, text), rest @ ..] => match path_under(alloc, key, rest, text)? {
            Some(path) => {
                paths.push(path)?;
                push_paths(alloc, rest, paths)
            }
            None => Ok(false),
        },
        [] => Ok(true),
    }
}

/// The path that the text is, with its key. `None` if the key is not valid, or one of the other entries has it, or the text is no path.
fn path_under(
    alloc: Global,
    key: &Text,
    others: &[(Text, Text)],
    text: &Text,
) -> Result<Option<(Text, JsonPath)>, NoMemory>
    ensures { IfOk result (λ found. MatchOption found
        ((steps : List PathStep) → spec.is_new_key key.now others.now ≡ true → ¬ IsPath text.now steps)
        (λ path. (spec.is_new_key key.now others.now ≡ true) × (path.0 ≡ key.now) × IsPath text.now path.1)) }
{
    if !is_new_key(key.as_str(), others) {
        return Ok(None);
    }
    match path_of(alloc, text.as_str())? {
        Some(path) => Ok(Some((key.copy(alloc)?, path))),
        None => Ok(None),
    }
}

/// Whether the key is valid, and none of the other entries has it.
fn is_new_key(key: &str, others: &[(Text, Text)]) -> bool
    ensures { result ≡ spec.is_new_key key.now others.now }
{
    is_key(key) && !has_key(others, key)
}

fn has_key(entries: &[(Text, Text)], key: &str) -> bool
    ensures { result ≡ spec.has_key key.now entries.now }
{
    entries.iter().any(|entry| entry.0.as_str() == key)
}

fn is_key(key: &str) -> bool
    ensures { result ≡ spec.is_key key.now }
{
    let bytes = key.as_bytes();
    are_key_letters(bytes) && !bytes.starts_with(RESERVED.as_bytes())
}

/// Whether there are 1 to 256 bytes of `A-Z a-z 0-9 _ -`.
fn are_key_letters(bytes: &[u8]) -> bool
    ensures { result ≡ is_name_of is_letter 256 bytes.now }
{
    are_letters(bytes) && is_key_length(bytes.len())
}

fn are_letters(bytes: &[u8]) -> bool
    ensures { result ≡ list_all is_letter bytes.now }
{
    bytes.iter().all(|byte| is_letter(*byte))
}

fn is_key_length(len: usize) -> bool
    ensures { result ≡ (nat_le 1 len && nat_le len 256) }
{
    1 <= len && len <= MOST_PATH
}

fn is_letter(byte: u8) -> bool
    ensures { result ≡ is_letter byte }
{
    byte.is_ascii_alphanumeric() || byte == b'_' || byte == b'-'
}
