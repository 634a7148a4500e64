//! The verdict of statements for an asker.
ghost use Rattle.std.specs.Prelude.{◌≡◌, ◌↔◌, IsTrue, MatchOption};
ghost use Rattle.json_text.specs.Tree.{items_of};
ghost use Rattle.json_text.specs.View.{trees_of};
ghost use Rattle.bus_policy.specs.View.{asker_of, verdict_of};
ghost use Rattle.bus_policy.specs.Verdict as spec;

use crate::applying::{allows, denies};
use crate::asker::Asker;
use crate::verdict::Verdict;
use event_shape::OWNER;
use json_text::{Json, Text};

/// The verdict of the statements, which have these names.
pub(crate) fn verdict<'a>(statements: &[Json], names: &'a [Text], asker: &Asker) -> Verdict<'a>
    requires { names.now ≡ spec.names_from 1 (items_of (trees_of statements.now)) }
    ensures { spec.IsVerdictOf (items_of (trees_of statements.now)) (asker_of asker.now) (verdict_of result) }
{
    match first_denial(statements, names, asker) {
        Some(name) => Verdict::DeniedBy(name),
        None => {
            if is_allowed(statements, asker) {
                Verdict::Allowed
            } else {
                Verdict::NoAllow
            }
        }
    }
}

/// The name of the first Deny that applies.
fn first_denial<'a>(statements: &[Json], names: &'a [Text], asker: &Asker) -> Option<&'a str>
    requires { names.now ≡ spec.names_from 1 (items_of (trees_of statements.now)) }
    ensures { MatchOption result
        (spec.NoneDenies (asker_of asker.now) (items_of (trees_of statements.now)))
        (λ name. spec.FirstDenies (asker_of asker.now) 1 (items_of (trees_of statements.now)) name.now) }
{
    for (i, statement) in statements.iter().enumerate() {
        if denies(statement, asker) {
            return Some(names[i].as_str());
        }
    }
    None
}

fn is_allowed(statements: &[Json], asker: &Asker) -> bool
    ensures { IsTrue result ↔ spec.IsOwnerOrAllowed (asker_of asker.now) (items_of (trees_of statements.now)) }
{
    asker.account == OWNER || some_allows(statements, asker)
}

fn some_allows(statements: &[Json], asker: &Asker) -> bool
    ensures { IsTrue result ↔ spec.SomeAllows (asker_of asker.now) (items_of (trees_of statements.now)) }
{
    for statement in statements {
        if allows(statement, asker) {
            return true;
        }
    }
    false
}
