//! Names of statements.
ghost use Rattle.std.specs.Prelude.{◌≡◌, ◌++◌, IfOk, Some, codes};
ghost use Rattle.std.specs.Fmt.{decimal};
ghost use Rattle.json_text.specs.Tree.{items_of};
ghost use Rattle.json_text.specs.View.{tree_of, trees_of};
ghost use Rattle.bus_policy.specs.Verdict as spec;

use json_text::{Json, NoMemory, Text};
use std::alloc::Global;

/// The names of all statements of a policy, in order.
pub(crate) fn names_of(alloc: Global, statements: &[Json]) -> Result<Vec<Text>, NoMemory>
    ensures { IfOk result (λ names. names.items ≡ spec.names_from 1 (items_of (trees_of statements.now))) }
{
    let mut names = Vec::with_capacity(alloc, statements.len())?;
    for (i, statement) in statements.iter().enumerate() {
        names.push(name_of(alloc, i + 1, statement)?)?;
    }
    Ok(names)
}

fn name_of(alloc: Global, place: usize, statement: &Json) -> Result<Text, NoMemory>
    ensures { IfOk result (λ name. name ≡ spec.name_of place (tree_of statement.now)) }
{
    match statement.member("Sid") {
        Some(sid) => name_by(alloc, place, sid),
        None => numbered(alloc, place),
    }
}

fn name_by(alloc: Global, place: usize, sid: &Json) -> Result<Text, NoMemory>
    ensures { IfOk result (λ name. name ≡ spec.name_by place (Some (tree_of sid.now))) }
{
    match sid {
        Json::Str(text) => text.copy(alloc),
        _ => numbered(alloc, place),
    }
}

fn numbered(alloc: Global, place: usize) -> Result<Text, NoMemory>
    ensures { IfOk result (λ name. name ≡ codes "#" ++ decimal place) }
{
    Ok(Text::from(format!(in alloc; "#{place}")?))
}
