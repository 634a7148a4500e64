//! The members of an event's text, taken apart.
ghost use Rattle.std.specs.Prelude.{◌≡◌, ◌∷◌, ℕ, List, None, map, MatchOption};
ghost use Rattle.std.specs.Vec.Iter.{into_iter_items};
ghost use Rattle.json_text.specs.Tree.{Tree, Items as TreeItems, text, list, items_of};
ghost use Rattle.json_text.specs.View.{tree_of, trees_of};
ghost use Rattle.event_shape.specs.Event.{Event as View, event_members};
ghost use Rattle.event_shape.specs.Parts.{values_in, BeginsWith};

use json_text::{Items, Json, Members, Text};
use std::alloc::Global;
use std::vec::IntoIter;

/// The members of an event's text that are not the same in every event.
#[derive(Drop)]
pub(crate) struct Parts {
    pub(crate) id: Text,
    pub(crate) detail_type: Text,
    pub(crate) source: Text,
    pub(crate) account: Text,
    pub(crate) time: Text,
    pub(crate) resources: Items,
    pub(crate) detail: Json,
}

/// The members of an event, by their order alone. `None` if their values do not begin as an event's.
pub(crate) fn parts_of(members: Members) -> Option<Parts>
    ensures { MatchOption result
        ((e : View) → ¬ (values_in members.items ≡ map (λ m. m.1) (event_members e)))
        (λ p. BeginsWith (values_in members.items) p) }
{
    let mut members = members.into_iter();
    let _version = next_text(&mut members)?;
    let id = next_text(&mut members)?;
    let detail_type = next_text(&mut members)?;
    let source = next_text(&mut members)?;
    let account = next_text(&mut members)?;
    let time = next_text(&mut members)?;
    let _region = next_text(&mut members)?;
    let resources = next_list(&mut members)?;
    let detail = next_value(&mut members)?;
    Some(Parts {
        id,
        detail_type,
        source,
        account,
        time,
        resources,
        detail,
    })
}

fn next_value(members: &mut IntoIter<(Text, Json), Global>) -> Option<Json>
    ensures { MatchOption result
        ((t : Tree) (rest : List Tree) → ¬ (values_in (into_iter_items members.old) ≡ t ∷ rest))
        (λ json. values_in (into_iter_items members.old) ≡ tree_of json ∷ values_in (into_iter_items members.new)) }
{
    match members.next() {
        Some((_, value)) => Some(value),
        None => None,
    }
}

fn next_text(members: &mut IntoIter<(Text, Json), Global>) -> Option<Text>
    ensures { MatchOption result
        ((t : List ℕ) (rest : List Tree) → ¬ (values_in (into_iter_items members.old) ≡ text t ∷ rest))
        (λ t. values_in (into_iter_items members.old) ≡ text t ∷ values_in (into_iter_items members.new)) }
{
    match next_value(members) {
        Some(value) => text_of(value),
        None => None,
    }
}

/// The text that the value is.
pub(crate) fn text_of(value: Json) -> Option<Text>
    ensures { MatchOption result ((t : List ℕ) → ¬ (tree_of value ≡ text t)) (λ t. tree_of value ≡ text t) }
{
    match value {
        Json::Str(text) => Some(text),
        Json::Null | Json::Truth(_) | Json::Num(_) | Json::List(_) | Json::Obj(_) => None,
    }
}

fn next_list(members: &mut IntoIter<(Text, Json), Global>) -> Option<Items>
    ensures { MatchOption result
        ((inside : TreeItems) (rest : List Tree) → ¬ (values_in (into_iter_items members.old) ≡ list inside ∷ rest))
        (λ items. values_in (into_iter_items members.old)
        ≡ list (items_of (trees_of items.items)) ∷ values_in (into_iter_items members.new)) }
{
    match next_value(members) {
        Some(Json::List(items)) => Some(items),
        _ => None,
    }
}
