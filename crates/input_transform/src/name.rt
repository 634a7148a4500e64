//! The names that a template may use.
ghost use Rattle.std.specs.Prelude.{◌≡◌, ◌≢◌, ◌<◌, ◌==◌, ◌||◌, ◌++◌, ◌∷◌, ◌+◌, ℕ, List, Some, None, MatchOption, length, take, drop, slice_index, map, codes};
ghost use Rattle.std.specs.List.{list_all};
ghost use Rattle.input_transform.specs.declared.path.Step.{Step as PathStep};
ghost use Rattle.input_transform.specs.Path.{is_letter};
ghost use Rattle.input_transform.specs.Names.{Source, Paths, is_name_byte, names, first_named, source_named, rule_arn, rule_name, ingestion_time, whole_event, bare_event, found};
ghost use Rattle.input_transform.specs.Template.{before_mark, name_before};
ghost use Rattle.input_transform.specs.Letters.{StandsFor, steps_of};

use super::JsonPath;
use super::path_text::is_letter;
use super::piece::Known;
use json_text::Text;

/// What the name is. `None` if it is no name of these.
pub(crate) fn known_named(paths: &[(Text, JsonPath)], name: &[u8]) -> Option<Known>
    ensures { MatchOption result (source_named paths.now name.now ≡ None)
        (λ known. (source : Source) × (source_named paths.now name.now ≡ Some source) × StandsFor (steps_of paths.now) known source) }
{
    if !are_name_bytes(name) {
        return None;
    }
    match own_named(name) {
        Some(known) => Some(known),
        None => path_named(paths, name),
    }
}

fn are_name_bytes(name: &[u8]) -> bool
    ensures { result ≡ list_all is_name_byte name.now }
{
    name.iter().all(|byte| is_name_byte(*byte))
}

fn is_name_byte(byte: u8) -> bool
    ensures { result ≡ is_name_byte byte }
{
    is_letter(byte) || byte == b'.'
}

/// The names that each template may use.
fn own_named(name: &[u8]) -> Option<Known>
    ensures { MatchOption result
        ((paths : Paths) → first_named name.now (names paths) ≡ first_named name.now (map (λ p. (p.0, found p.1)) paths))
        (λ known. (source : Source) × ((paths : Paths) → first_named name.now (names paths) ≡ Some source)
        × ((steps : List (List PathStep)) → StandsFor steps known source)) }
{
    if name == "aws.events.rule-arn".as_bytes() {
        return Some(Known::RuleArn);
    }
    if name == "aws.events.rule-name".as_bytes() {
        return Some(Known::RuleName);
    }
    if name == "aws.events.event.ingestion-time".as_bytes() {
        return Some(Known::IngestionTime);
    }
    if name == "aws.events.event.json".as_bytes() {
        return Some(Known::WholeEvent);
    }
    if name == "aws.events.event".as_bytes() {
        return Some(Known::BareEvent);
    }
    None
}

/// The first path with this key.
fn path_named(paths: &[(Text, JsonPath)], name: &[u8]) -> Option<Known>
    ensures { MatchOption result (first_named name.now (map (λ p. (p.0, found p.1)) paths.now) ≡ None)
        (λ known. (source : Source) × (first_named name.now (map (λ p. (p.0, found p.1)) paths.now) ≡ Some source)
        × StandsFor (steps_of paths.now) known source) }
{
    for (place, (key, _path)) in paths.iter().enumerate() {
        if name == key.as_str().as_bytes() {
            return Some(Known::Found(place));
        }
    }
    None
}

/// The bytes before the first `>`, if they may be in a name, and those after it.
pub(crate) fn mark_cut(bytes: &[u8]) -> Option<(&[u8], &[u8])>
    ensures { MatchOption result (before_mark bytes.now ≡ None)
        (λ r. (before_mark bytes.now ≡ Some r.0.now) × (bytes.now ≡ r.0.now ++ 62 ∷ r.1.now)) }
{
    for (n, byte) in bytes.iter().enumerate() {
        if *byte == b'>' {
            return Some((&bytes[..n], &bytes[n + 1..]));
        }
        if !is_name_byte(*byte) {
            return None;
        }
    }
    None
}
