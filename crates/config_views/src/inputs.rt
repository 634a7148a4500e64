//! The inputs of targets, as they were given.
ghost use Rattle.std.specs.Prelude.{◌≡◌, ◌++◌, ◌∷◌, [], IfOk, OnOk};
ghost use Rattle.json_text.specs.Tree.{object, members_of};
ghost use Rattle.json_text.specs.View.{tree_of, pairs_of};
ghost use Rattle.config_views.specs.Views as spec;

use json_text::{Json, Members, NoMemory, Text, push_member, push_text};
use rule_targets::{GivenInput, SharedInput, Transformer};
use std::alloc::Global;

/// Appends the input as it was given, if there is one.
pub(crate) fn push_input(
    alloc: Global,
    members: &mut Members,
    input: &Option<SharedInput>,
) -> Result<(), NoMemory>
    ensures { OnOk result (pairs_of members.new.items ≡ pairs_of members.old.items ++ spec.input_member input.now) }
{
    match input {
        Some(input) => push_given(alloc, members, input.given()),
        None => Ok(()),
    }
}

fn push_given(alloc: Global, members: &mut Members, given: &GivenInput) -> Result<(), NoMemory>
    ensures { OnOk result (pairs_of members.new.items ≡ pairs_of members.old.items ++ spec.given_member given.now ∷ []) }
{
    match given {
        GivenInput::Input(text) => push_text(alloc, members, "Input", text.as_str()),
        GivenInput::InputPath(text) => push_text(alloc, members, "InputPath", text.as_str()),
        GivenInput::InputTransformer(transformer) => {
            let shown = transformer_json(alloc, transformer)?;
            push_member(alloc, members, "InputTransformer", shown)
        }
    }
}

fn transformer_json(alloc: Global, transformer: &Transformer) -> Result<Json, NoMemory>
    ensures { IfOk result (λ json. tree_of json ≡ object (members_of (spec.transformer_members transformer.now))) }
{
    let mut members: Members = Vec::with_capacity(alloc, 2)?;
    push_paths(alloc, &mut members, transformer.paths())?;
    push_text(alloc, &mut members, "InputTemplate", transformer.template())?;
    Ok(Json::Obj(members))
}

/// Appends the InputPathsMap, if it has an entry.
fn push_paths(alloc: Global, members: &mut Members, paths: &[(Text, Text)]) -> Result<(), NoMemory>
    ensures { OnOk result (pairs_of members.new.items ≡ pairs_of members.old.items ++ spec.paths_member paths.now) }
{
    match paths {
        [_, ..] => {
            let shown = paths_json(alloc, paths)?;
            push_member(alloc, members, "InputPathsMap", shown)
        }
        [] => Ok(()),
    }
}

/// An object of the texts of the paths, under their keys.
fn paths_json(alloc: Global, paths: &[(Text, Text)]) -> Result<Json, NoMemory>
    ensures { IfOk result (λ json. tree_of json ≡ object (members_of (spec.text_members paths.now))) }
{
    let mut members: Members = Vec::with_capacity(alloc, paths.len())?;
    for (key, path) in paths {
        push_text(alloc, &mut members, key.as_str(), path.as_str())?;
    }
    Ok(Json::Obj(members))
}
