//! Whether a value has a view that satisfies all that is wanted of it. A branch of each `$or` is chosen when its object is reached, and
//! what is wanted of one member is wanted of it at once.
ghost use Rattle.std.specs.Prelude.{◌≡◌, ◌↔◌, ◌∷◌, [], ◌++◌, IsTrue, map, option_map, option_copied};
ghost use Rattle.json_text.specs.Compact.{IsValue};
ghost use Rattle.json_text.specs.Access.{member_in, member_of};
ghost use Rattle.json_text.specs.Tree.{items_of, members_of};
ghost use Rattle.json_text.specs.View.{tree_of, trees_of, pairs_of};
ghost use Rattle.pattern_meaning.specs.Pattern.{branches_of};
ghost use Rattle.pattern_meaning.specs.PatternView.{test_of, field_of, pattern_of, fields_view};
ghost use Rattle.pattern_meaning.specs.View as view;
ghost use Rattle.pattern_meaning.specs.View.{leaf_at};
ghost use Rattle.pattern_meaning.specs.Frames as frame;
ghost use Rattle.pattern_meaning.specs.Frames.{path_of, wants_of, value_of, known_of};
ghost use Rattle.pattern_meaning.specs.Meets as spec;

use crate::absent::is_known;
use crate::frames::{Known, Need, Path, Site, Wanted};
use crate::leaf::is_met;
use crate::pattern::{Field, LeafTest, LeafTests, Pattern};
use json_text::{Json, Text};

/// Whether some view of the value satisfies what is wanted with the key.
#[cycle(walk)]
pub(crate) fn meets<'a, 'k>(
    known: &'a Known<'a>,
    value: &'a Json,
    at: &'a Path<'a>,
    key: &'k str,
    wanted: &'a Wanted<'a>,
) -> bool
    requires value { IsValue (tree_of value.now) }
    ensures { IsTrue result ↔ spec.OnSome (tree_of value.now)
        (spec.WithKeyMet (spec.known_in (known_of known.now)) (path_of at.now) key.now (wants_of wanted.now)) }
{
    match value {
        Json::List(items) => {
            for item in items {
                if meets(&*known, item, &*at, key, &*wanted) {
                    return true;
                }
            }
            false
        }
        _ => chosen(
            Site {
                known: &*known,
                value: Some(value),
                at: &*at,
            },
            key,
            &*wanted,
            &Wanted::End,
        ),
    }
}

/// Goes through what is wanted with the key. `found` is what is already wanted of the value's members.
#[cycle(walk)]
fn chosen<'a, 'k>(
    site: Site<'a>,
    key: &'k str,
    wanted: &'a Wanted<'a>,
    found: &'a Wanted<'a>,
) -> bool
    requires value { spec.IsNode (value_of (option_copied site.value)) }
    ensures { IsTrue result ↔ spec.OnSome (value_of (option_copied site.entry.value)) (λ v.
        spec.WithKeyMet (spec.known_in (known_of site.entry.known.now)) (path_of site.entry.at.now) key.now (wants_of wanted.now) v
        × spec.AllMet (spec.known_in (known_of site.entry.known.now)) (path_of site.entry.at.now) (wants_of found.now) v) }
{
    match wanted {
        Wanted::End => members_meet(site, &*found, &*found),
        Wanted::More {
            key: other,
            need,
            rest,
        } => {
            if *other != key {
                return chosen(site, key, &**rest, &*found);
            }
            match need {
                Need::Tests(tests) => some_holds(tests, site)
                    && chosen(site, key, &**rest, &*found),
                Need::Pattern(pattern) => opened(
                    site,
                    &pattern.fields,
                    &pattern.branches,
                    key,
                    &**rest,
                    &*found,
                ),
            }
        }
    }
}

/// Adds the fields to what is wanted of the members, and then those of one branch.
#[cycle(walk)]
fn opened<'a, 'k>(
    site: Site<'a>,
    fields: &'a [(Text, Field)],
    branches: &'a [Pattern],
    key: &'k str,
    wanted: &'a Wanted<'a>,
    found: &'a Wanted<'a>,
) -> bool
    requires value { spec.IsNode (value_of (option_copied site.value)) }
    ensures { IsTrue result ↔ spec.OnSome (value_of (option_copied site.entry.value)) (λ v.
        spec.FieldsMet (spec.known_in (known_of site.entry.known.now)) (path_of site.entry.at.now) (fields_view fields.now) v
        × spec.BranchesMet (spec.known_in (known_of site.entry.known.now)) (path_of site.entry.at.now) (branches_of (map pattern_of branches.now)) v
        × spec.WithKeyMet (spec.known_in (known_of site.entry.known.now)) (path_of site.entry.at.now) key.now (wants_of wanted.now) v
        × spec.AllMet (spec.known_in (known_of site.entry.known.now)) (path_of site.entry.at.now) (wants_of found.now) v) }
{
    match fields {
        [(name, field), rest @ ..] => {
            let more = Wanted::More {
                key: name.as_str(),
                need: need_of(field),
                rest: &*found,
            };
            opened(site, rest, &*branches, key, &*wanted, &more)
        }
        [] if branches.is_empty() => chosen(site, key, &*wanted, &*found),
        [] => some_opened(site, &*branches, key, &*wanted, &*found),
    }
}

/// Adds the fields of one of the branches.
#[cycle(walk)]
fn some_opened<'a, 'k>(
    site: Site<'a>,
    branches: &'a [Pattern],
    key: &'k str,
    wanted: &'a Wanted<'a>,
    found: &'a Wanted<'a>,
) -> bool
    requires value { spec.IsNode (value_of (option_copied site.value)) }
    ensures { IsTrue result ↔ spec.OnSome (value_of (option_copied site.entry.value)) (λ v.
        spec.SomeMet (spec.known_in (known_of site.entry.known.now)) (path_of site.entry.at.now) (branches_of (map pattern_of branches.now)) v
        × spec.WithKeyMet (spec.known_in (known_of site.entry.known.now)) (path_of site.entry.at.now) key.now (wants_of wanted.now) v
        × spec.AllMet (spec.known_in (known_of site.entry.known.now)) (path_of site.entry.at.now) (wants_of found.now) v) }
{
    match branches {
        [branch, rest @ ..] => {
            opened(
                site,
                &branch.fields,
                &branch.branches,
                key,
                &*wanted,
                &*found,
            ) || some_opened(site, rest, key, &*wanted, &*found)
        }
        [] => false,
    }
}

/// Whether for each key of `rest` the member has a view that satisfies all that `found` wants of it.
#[cycle(walk)]
fn members_meet<'a>(site: Site<'a>, found: &'a Wanted<'a>, rest: &'a Wanted<'a>) -> bool
    requires value { spec.IsNode (value_of (option_copied site.value)) }
    ensures { IsTrue result ↔ spec.EachKeyMet (spec.known_in (known_of site.entry.known.now)) (path_of site.entry.at.now)
        (value_of (option_copied site.entry.value)) (wants_of found.now) (wants_of rest.now) }
{
    match rest {
        Wanted::End => true,
        Wanted::More { key, rest, .. } if has_key(rest, key) => members_meet(
            site, &*found, &**rest,
        ),
        Wanted::More { key, rest, .. } => member_meets(site, key, &*found)
            && members_meet(site, &*found, &**rest),
    }
}

/// Whether the member with the key has a view that satisfies all that is wanted of it. A missing member has no leaves.
#[cycle(walk)]
fn member_meets<'a>(site: Site<'a>, key: &'a str, found: &'a Wanted<'a>) -> bool
    requires value { spec.IsNode (value_of (option_copied site.value)) }
    ensures { IsTrue result ↔ spec.OnSome (value_of (option_copied site.entry.value)) (λ v.
        spec.WithKeyMet (spec.known_in (known_of site.entry.known.now)) (path_of site.entry.at.now ++ key.now ∷ []) key.now (wants_of found.now)
        (spec.value_at key.now v)) }
{
    let at = Path::Key {
        key: &*key,
        up: site.at,
    };
    match member(site.value, key) {
        Some(value) => meets(site.known, value, &at, key, &*found),
        None => chosen(
            Site {
                known: site.known,
                value: None,
                at: &at,
            },
            key,
            &*found,
            &Wanted::End,
        ),
    }
}

/// The value of a member that has a view.
#[inline(always)]
pub(crate) fn member<'a>(value: Option<&'a Json>, key: &str) -> Option<&'a Json>
    ensures { option_map tree_of (option_copied result) ≡ spec.seen_member key.now (value_of (option_copied value.entry)) }
{
    let inside = inside_object(value?, key)?;
    if has_view(inside) { Some(inside) } else { None }
}

/// The same as `Json::member`, but inlined: patterns take most of their time here.
#[inline(always)]
fn inside_object<'a>(value: &'a Json, key: &str) -> Option<&'a Json>
    ensures { option_map tree_of (option_copied result) ≡ member_of key.now (tree_of value.now) }
{
    match value {
        Json::Obj(members) => first_member(members, key),
        Json::Null | Json::Truth(_) | Json::Num(_) | Json::Str(_) | Json::List(_) => None,
    }
}

#[inline(always)]
fn first_member<'a>(members: &'a [(Text, Json)], key: &str) -> Option<&'a Json>
    ensures { option_map tree_of (option_copied result) ≡ member_in key.now (members_of (pairs_of members.now)) }
{
    for (name, value) in members {
        if name.as_str() == key {
            return Some(value);
        }
    }
    None
}

/// A value has a view unless it is a list none of whose members has one.
#[cycle(view)]
#[inline(always)]
fn has_view(value: &Json) -> bool
    ensures { result ≡ view.has_view (tree_of value.now) }
{
    match value {
        Json::List(items) => some_has_view(items),
        _ => true,
    }
}

#[cycle(view)]
#[inline(never)]
fn some_has_view(items: &[Json]) -> bool
    ensures { result ≡ view.some_has_view (items_of (trees_of items.now)) }
{
    for item in items {
        if has_view(item) {
            return true;
        }
    }
    false
}

/// Whether one of the tests holds at the site.
fn some_holds(tests: &LeafTests, site: Site<'_>) -> bool
    requires value { spec.IsNode (value_of (option_copied site.value)) }
    ensures { IsTrue result ↔ spec.SomeMetOf (spec.TestMet (spec.known_in (known_of site.entry.known.now))
        (path_of site.entry.at.now) (value_of (option_copied site.entry.value))) (map test_of tests.now.items) }
{
    for test in tests {
        if holds_at(test, site) {
            return true;
        }
    }
    false
}

/// Whether the test holds at the site.
fn holds_at(test: &LeafTest, site: Site<'_>) -> bool
    requires value { spec.IsNode (value_of (option_copied site.value)) }
    ensures { IsTrue result ↔ spec.TestMet (spec.known_in (known_of site.entry.known.now)) (path_of site.entry.at.now)
        (value_of (option_copied site.entry.value)) (test_of test.now) }
{
    match test {
        LeafTest::Missing => is_known(site.known, site.at),
        _ => match leaf(site.value) {
            Some(leaf) => is_met(test, leaf),
            None => false,
        },
    }
}

/// The value, if it is a scalar.
pub(crate) fn leaf<'a>(value: Option<&'a Json>) -> Option<&'a Json>
    ensures { option_map tree_of (option_copied result) ≡ leaf_at [] (value_of (option_copied value.entry)) }
{
    match value? {
        Json::List(_) | Json::Obj(_) => None,
        Json::Null | Json::Truth(_) | Json::Num(_) | Json::Str(_) => value,
    }
}

fn need_of<'a>(field: &'a Field) -> Need<'a>
    ensures { frame.need_of result ≡ field_of field.now }
{
    match field {
        Field::Tests(tests) => Need::Tests(tests),
        Field::Below(pattern) => Need::Pattern(pattern),
    }
}

/// Whether something is wanted with the key.
fn has_key(wanted: &Wanted<'_>, key: &str) -> bool
    ensures { result ≡ spec.has_key key.now (wants_of wanted.now) }
{
    match wanted {
        Wanted::End => false,
        Wanted::More {
            key: other,
            rest,
            ..
        } => *other == key || has_key(rest, key),
    }
}
