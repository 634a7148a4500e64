//! The event that a text is read to, before the text is compared with that event's own text.
ghost use Rattle.std.specs.Prelude.{◌≡◌, ◌↔◌, ◌≢◌, ◌≤◌, [], ℕ, false, List, None, Some, map, IsTrue, IfOk, MatchOption, MatchResult};
ghost use Rattle.json_text.specs.Tree.{text};
ghost use Rattle.json_text.specs.View.{tree_of, trees_of};
ghost use Rattle.json_text.specs.Compact.{IsValue, tree_levels};
ghost use Rattle.event_shape.specs.Event.{Event as View, IsEvent, IsEventText, event_tree};
ghost use Rattle.json_text.specs.Access.{IsObject};
ghost use Rattle.event_shape.specs.Fault.{is_reserved as reserved};
ghost use Rattle.event_shape.specs.Parts.{ArePartsOf, AreValid};

use crate::checking::is_reserved;
use crate::event::Event;
use crate::id::number_of;
use crate::parts::{Parts, parts_of, text_of};
use crate::time::{iso, text_moment};
use json_text::{Items, Json, JsonFault, NoMemory, Text};
use std::alloc::Global;

/// The event whose tree the value is. For other values it may return some event, too.
pub(crate) fn event_of(alloc: Global, json: Json) -> Result<Option<Event>, NoMemory>
    requires value { IsValue (tree_of json) }
    requires levels { tree_levels (tree_of json) ≤ 100 }
    ensures { IfOk result (λ o. (e : View) → IsEvent e → tree_of json ≡ event_tree e None → o ≡ Some e) }
{
    match json {
        Json::Obj(members) => match parts_of(members) {
            Some(parts) => event_with(alloc, parts),
            None => Ok(None),
        },
        Json::Null | Json::Truth(_) | Json::Num(_) | Json::Str(_) | Json::List(_) => Ok(None),
    }
}

/// The event that has these parts.
fn event_with(alloc: Global, parts: Parts) -> Result<Option<Event>, NoMemory>
    requires { AreValid parts }
    ensures { IfOk result (λ o. (e : View) → IsEvent e → ArePartsOf parts e → o ≡ Some e) }
{
    let Parts {
        id,
        detail_type,
        source,
        account,
        time,
        resources,
        detail,
    } = parts;
    if !are_allowed(&source, &detail_type, &detail) {
        return Ok(None);
    }
    let Some(number) = number_of(id.as_str()) else {
        return Ok(None);
    };
    let Some(moment) = text_moment(time.as_str().as_bytes()) else {
        return Ok(None);
    };
    let Some(resources) = texts_of(alloc, resources)? else {
        return Ok(None);
    };
    let time = iso(alloc, moment)?;
    Ok(Some(Event {
        number,
        detail_type,
        source,
        account,
        moment,
        time,
        resources,
        detail,
    }))
}

/// Whether an event may have these members.
fn are_allowed(source: &Text, detail_type: &Text, detail: &Json) -> bool
    ensures { IsTrue result
        ↔ ((source.now ≢ []) × (detail_type.now ≢ []) × (reserved source.now ≡ false) × IsObject (tree_of detail.now)) }
{
    !source.as_str().is_empty()
        && !detail_type.as_str().is_empty()
        && !is_reserved(source)
        && detail.is_object()
}

/// The texts that the values are, if all are texts.
fn texts_of(alloc: Global, items: Items) -> Result<Option<Vec<Text>>, NoMemory>
    ensures { IfOk result (λ o. MatchOption o
        ((ts : List (List ℕ)) → ¬ (trees_of items.items ≡ map text ts))
        (λ texts. trees_of items.items ≡ map text texts.items)) }
{
    let mut texts = Vec::with_capacity(alloc, items.len())?;
    for item in items {
        match text_of(item) {
            Some(text) => texts.push(text)?,
            None => return Ok(None),
        }
    }
    Ok(Some(texts))
}

/// A text with this fault is no event's text, unless the fault is out of memory.
pub(crate) fn none_unless_memory(fault: JsonFault) -> Result<Option<Event>, NoMemory>
    ensures { MatchResult result
        (λ o. (o ≡ None) × (fault ≢ JsonFault.NoMemory))
        (λ _. fault ≡ JsonFault.NoMemory) }
{
    match fault {
        JsonFault::NoMemory => Err(NoMemory),
        JsonFault::NotJson { .. } | JsonFault::TooDeep { .. } | JsonFault::KeyTwice { .. } => {
            Ok(None)
        }
    }
}

/// The event, if the bytes are its text; else `None`.
pub(crate) fn if_written_as(
    alloc: Global,
    event: Event,
    text: &[u8],
) -> Result<Option<Event>, NoMemory>
    ensures { IfOk result (λ o. MatchOption o
        (¬ IsEventText text.now event)
        (λ e. (e ≡ event) × IsEventText text.now e)) }
{
    let written = event.written(alloc, None)?;
    if written.as_slice() == text {
        Ok(Some(event))
    } else {
        Ok(None)
    }
}
