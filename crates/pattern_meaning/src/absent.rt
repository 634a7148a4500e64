//! Which paths of `exists: false` no view of the event has a leaf at. They are found once, before the value is walked, so that a long list
//! is not asked again at each of its members.
ghost use Rattle.std.specs.Prelude.{◌≡◌, ◌↔◌, ◌++◌, ◌&&◌, IsTrue, not};
ghost use Rattle.std.specs.List.{AllByRecursion, list_any};
ghost use Rattle.json_text.specs.Compact.{IsValue};
ghost use Rattle.json_text.specs.View.{tree_of};
ghost use Rattle.pattern_meaning.specs.Holds.{IsAbsent, PatternHolds};
ghost use Rattle.pattern_meaning.specs.PatternView.{test_of, pattern_of};
ghost use Rattle.pattern_meaning.specs.Frames.{path_of, route_of, todo_of, known_of};
ghost use Rattle.pattern_meaning.specs.Meets as spec;

use crate::frames::{Known, Need, Path, Route, Todo, Wanted};
use crate::pattern::{Field, LeafTest, LeafTests, Pattern};
use crate::walk::meets;
use json_text::Json;

/// Whether the pattern holds of the event. The paths of `exists: false` that are known to be absent are in `known`, those not looked at
/// are in `todo`.
pub(crate) fn gathered<'a>(
    pattern: &'a Pattern,
    event: &'a Json,
    todo: &'a Todo<'a>,
    known: &'a Known<'a>,
) -> bool
    requires value { IsValue (tree_of event.now) }
    requires absent { AllByRecursion (IsAbsent (tree_of event.now)) (known_of known.now) }
    requires covered { spec.IsCovered (tree_of event.now) (pattern_of pattern.now) (known_of known.now) (todo_of todo.now) }
    ensures { IsTrue result ↔ PatternHolds (pattern_of pattern.now) (tree_of event.now) }
{
    match todo {
        Todo::End => {
            let wanted = Wanted::More {
                key: "",
                need: Need::Pattern(pattern),
                rest: &Wanted::End,
            };
            meets(&*known, event, &Path::Root, "", &wanted)
        }
        Todo::Fields { fields, at, rest } => match fields {
            [(key, field), more @ ..] => {
                let left = Todo::Fields {
                    fields: more,
                    at: &**at,
                    rest: &**rest,
                };
                let below = Path::Key {
                    key: key.as_str(),
                    up: &**at,
                };
                match field {
                    Field::Tests(tests) => {
                        if is_gone(tests, event, &below) {
                            gathered(
                                pattern,
                                event,
                                &left,
                                &Known::More {
                                    at: &below,
                                    rest: &*known,
                                },
                            )
                        } else {
                            gathered(pattern, event, &left, &*known)
                        }
                    }
                    Field::Below(inner) => {
                        let branches = Todo::Branches {
                            branches: &inner.branches,
                            at: &below,
                            rest: &left,
                        };
                        gathered(
                            pattern,
                            event,
                            &Todo::Fields {
                                fields: &inner.fields,
                                at: &below,
                                rest: &branches,
                            },
                            &*known,
                        )
                    }
                }
            }
            [] => gathered(pattern, event, &**rest, &*known),
        },
        Todo::Branches { branches, at, rest } => match branches {
            [branch, more @ ..] => {
                let left = Todo::Branches {
                    branches: more,
                    at: &**at,
                    rest: &**rest,
                };
                let inner = Todo::Branches {
                    branches: &branch.branches,
                    at: &**at,
                    rest: &left,
                };
                gathered(
                    pattern,
                    event,
                    &Todo::Fields {
                        fields: &branch.fields,
                        at: &**at,
                        rest: &inner,
                    },
                    &*known,
                )
            }
            [] => gathered(pattern, event, &**rest, &*known),
        },
    }
}

/// Whether `exists: false` is among the tests, and no view of the event has a leaf at the path.
fn is_gone(tests: &LeafTests, event: &Json, at: &Path<'_>) -> bool
    ensures { result ≡ (list_any (λ test. spec.is_missing (test_of test)) tests.now.items && spec.absent_in (tree_of event.now) (path_of at.now)) }
{
    has_missing(tests) && is_absent(event, at)
}

/// Whether `exists: false` is among the tests.
fn has_missing(tests: &LeafTests) -> bool
    ensures { result ≡ list_any (λ test. spec.is_missing (test_of test)) tests.now.items }
{
    tests.iter().any(|test| is_missing(test))
}

pub(crate) fn is_missing(test: &LeafTest) -> bool
    ensures { result ≡ spec.is_missing (test_of test.now) }
{
    matches!(test, LeafTest::Missing)
}

/// Whether the path is known to be absent.
pub(crate) fn is_known(known: &Known<'_>, at: &Path<'_>) -> bool
    ensures { result ≡ spec.known_in (known_of known.now) (path_of at.now) }
{
    match known {
        Known::End => false,
        Known::More { at: other, rest } => is_same(other, at) || is_known(rest, at),
    }
}

/// Whether two paths have the same keys.
fn is_same(a: &Path<'_>, b: &Path<'_>) -> bool
    ensures { result ≡ spec.same_path (path_of a.now) (path_of b.now) }
{
    match a {
        Path::Root => match b {
            Path::Root => true,
            Path::Key { .. } => false,
        },
        Path::Key { key, up } => match b {
            Path::Root => false,
            Path::Key {
                key: other,
                up: above,
            } => *key == *other && is_same(up, above),
        },
    }
}

/// Whether no view of the event has a leaf at the path.
fn is_absent(event: &Json, at: &Path<'_>) -> bool
    ensures { result ≡ not (spec.has_leaf (path_of at.now) (tree_of event.now)) }
{
    !has_leaf_at(event, at, &Route::End)
}

/// Whether some view of the event has a leaf at the path and then the route.
fn has_leaf_at<'a>(event: &Json, at: &'a Path<'a>, route: &'a Route<'a>) -> bool
    ensures { result ≡ spec.has_leaf (path_of at.now ++ route_of route.now) (tree_of event.now) }
{
    match at {
        Path::Root => has_leaf(event, route),
        Path::Key { key, up } => has_leaf_at(event, up, &Route::Key { key, rest: route }),
    }
}

/// Whether some view of the value has a leaf at the route.
fn has_leaf(value: &Json, route: &Route<'_>) -> bool
    ensures { result ≡ spec.has_leaf (route_of route.now) (tree_of value.now) }
{
    match (value, route) {
        (Json::List(items), _) => {
            for item in items {
                if has_leaf(item, route) {
                    return true;
                }
            }
            false
        }
        (Json::Obj(members), Route::Key { key, rest }) => {
            for (name, inside) in members {
                if name.as_str() == *key {
                    return has_leaf(inside, rest);
                }
            }
            false
        }
        (Json::Obj(_), Route::End) => false,
        (_, Route::End) => true,
        (_, Route::Key { .. }) => false,
    }
}
