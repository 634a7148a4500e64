//! The values of a template's names.
ghost use Rattle.std.specs.Prelude.{◌≡◌, ◌++◌, ◌∷◌, [], List, OnOk, IfOk, Some, codes, slice_get, if◌then◌else◌};
ghost use Rattle.std.specs.Str.{bytes_eq};
ghost use Rattle.std.specs.Option.{option_map, option_copied, option_flatten};
ghost use Rattle.json_text.specs.Tree.{text, members_of};
ghost use Rattle.json_text.specs.View.{tree_of, pairs_of};
ghost use Rattle.input_transform.specs.declared.path.Step.{Step as PathStep};
ghost use Rattle.input_transform.specs.Names.{after_slash, without_key, without_detail};
ghost use Rattle.input_transform.specs.Stored.{known_value};
ghost use Rattle.input_transform.specs.Filling.{founds, lookups, scene_of, IsFound, tree_in};

use super::JsonPath;
use super::piece::Known;
use json_text::{Json, Members, NoMemory, Text, copy, push_member};
use std::alloc::Global;

/// What a template is filled from, with what each of its paths finds.
#[derive(Clone, Copy)]
pub(crate) struct Filling<'a> {
    pub(crate) event: &'a Json,
    pub(crate) rule_arn: &'a str,
    pub(crate) time: &'a str,
    pub(crate) found: &'a [Option<&'a Json>],
}

/// The value of a name.
#[derive(Drop)]
pub(crate) enum Found<'a> {
    Missing,
    Lent(&'a Json),
    Made(Json),
}

/// What each path finds in the event.
pub(crate) fn looked_up<'a>(
    alloc: Global,
    paths: &[JsonPath],
    event: &'a Json,
) -> Result<Vec<Option<&'a Json>>, NoMemory>
    ensures { IfOk result (λ found. founds found.items ≡ lookups (tree_of event.now) paths.now) }
{
    let mut found = Vec::with_capacity(alloc, paths.len())?;
    for path in paths {
        found.push(path.at(event))?;
    }
    Ok(found)
}

pub(crate) fn value_of<'a>(
    alloc: Global,
    known: Known,
    filling: &Filling<'a>,
) -> Result<Found<'a>, NoMemory>
    ensures { IfOk result (λ v. (paths : List (List PathStep)) → IsFound filling.now paths
        → tree_in v ≡ known_value (scene_of filling.now) paths known) }
{
    match known {
        Known::RuleArn => made_text(alloc, filling.rule_arn),
        Known::RuleName => made_text(alloc, rule_name(filling.rule_arn)),
        Known::IngestionTime => made_text(alloc, filling.time),
        Known::WholeEvent => Ok(Found::Lent(filling.event)),
        Known::BareEvent => bare_event(alloc, filling.event),
        Known::Found(place) => Ok(found_at(filling.found, place)),
    }
}

fn made_text<'a>(alloc: Global, shown: &str) -> Result<Found<'a>, NoMemory>
    ensures { IfOk result (λ v. tree_in v ≡ Some (text shown.now)) }
{
    let copied = Text::from_str(alloc, shown)?;
    Ok(Found::Made(Json::Str(copied)))
}

/// The name of a rule is its ARN after the last `/`.
pub(crate) fn rule_name(arn: &str) -> &str
    ensures { result.now ≡ after_slash arn.now }
{
    match arn.rsplit_once('/') {
        Some((_front, name)) => name,
        None => arn,
    }
}

fn found_at<'a>(found: &'a [Option<&'a Json>], place: usize) -> Found<'a>
    ensures { tree_in result ≡ option_flatten (slice_get (founds found.now) place) }
{
    match found.get(place) {
        Some(there) => lent(*there),
        None => Found::Missing,
    }
}

fn lent<'a>(found: Option<&'a Json>) -> Found<'a>
    ensures { tree_in result ≡ option_map tree_of (option_copied found.entry) }
{
    match found {
        Some(json) => Found::Lent(json),
        None => Found::Missing,
    }
}

/// The event without its `detail`. A value that is no object is itself.
fn bare_event<'a>(alloc: Global, event: &'a Json) -> Result<Found<'a>, NoMemory>
    ensures { IfOk result (λ v. tree_in v ≡ Some (without_detail (tree_of event.now))) }
{
    match event {
        Json::Obj(members) => {
            let kept = members_without_detail(alloc, members)?;
            Ok(Found::Made(Json::Obj(kept)))
        }
        Json::Null | Json::Truth(_) | Json::Num(_) | Json::Str(_) | Json::List(_) => {
            Ok(Found::Lent(event))
        }
    }
}

fn members_without_detail(alloc: Global, members: &[(Text, Json)]) -> Result<Members, NoMemory>
    ensures { IfOk result (λ kept. members_of (pairs_of kept.items) ≡ without_key (codes "detail") (members_of (pairs_of members.now))) }
{
    let mut kept = Vec::new(alloc);
    for member in members {
        push_unless_detail(alloc, member.0.as_str(), &member.1, &mut kept)?;
    }
    Ok(kept)
}

/// Adds a copy of the member, unless its key is `detail`.
fn push_unless_detail(
    alloc: Global,
    key: &str,
    value: &Json,
    kept: &mut Members,
) -> Result<(), NoMemory>
    ensures { OnOk result (pairs_of kept.new.items ≡ pairs_of kept.old.items
        ++ (if bytes_eq key.now (codes "detail") then [] else (key.now, tree_of value.now) ∷ [])) }
{
    if key == "detail" {
        return Ok(());
    }
    push_member(alloc, kept, key, copy(alloc, value)?)
}
