//! Archives as rows say them.
ghost use Rattle.std.specs.Prelude.{◌≡◌, [], ◌∷◌, IfOk};
ghost use Rattle.archive_keep.specs.declared.event_ref.KeptEvent.{KeptEvent};
ghost use Rattle.archive_keep.specs.Kept.{IsTextOfEvent};

use archive_keep::{Archive, EventRef, KeptEvent};
use event_shape::Event;
use json_text::Text;
use shared_text::SharedText;
use std::alloc::Global;
use std::collections::LinkedList;
use std::test::Fail;

/// The text of each event, of 220 bytes.
const TEXT: &str =
    r#"{"version":"0","id":"00000000-0000-8000-8000-000000000001","detail-type":"Order","source":"shop.orders","account":"111122223333","time":"2023-11-14T22:13:20Z","region":"us-east-1","resources":[],"detail":{"total":12.50}}"#;

/// Two numbers with a comma between them.
pub(crate) fn pair(field: &str) -> Result<(u64, u64), Fail> {
    let (first, second) = field.split_once(',').ok_or("no comma")?;
    Ok((first.parse::<u64>()?, second.parse::<u64>()?))
}

/// The text, if it is an event's.
fn event_text(alloc: Global) -> Result<SharedText, Fail>
    ensures { IfOk result (λ text. IsTextOfEvent text) }
{
    let text = Text::from_str(alloc, TEXT)?;
    match Event::read(alloc, text.as_str().as_bytes())? {
        Some(_) => Ok(SharedText::new(alloc, text)?),
        None => Err(Fail::new("no event's text")),
    }
}

/// A list of this event.
fn one(alloc: Global, number: u64, accepted: u64, time: u64) -> Result<LinkedList<EventRef>, Fail>
    ensures { IfOk result (λ list. (e : KeptEvent) × (list ≡ e ∷ []) × (e.number ≡ number) × (e.accepted ≡ accepted)) }
{
    let text = event_text(alloc)?;
    let kept = KeptEvent {
        number,
        accepted,
        time,
        text,
    };
    let event = EventRef::new(alloc, kept)?;
    let mut list = LinkedList::new(alloc);
    list.push_back(event)?;
    Ok(list)
}

/// An archive of these days, and the events that it keeps: each is `ACCEPTED,TIME`, and they are numbered from 1.
pub(crate) fn archive_of(alloc: Global, days: &str, events: &str) -> Result<Archive, Fail> {
    let name = Text::from_str(alloc, "a")?;
    let mut archive = Archive::new(alloc, name, days.parse::<u32>()?, 0);
    let mut number = 0;
    let mut moment = 0;
    for event in events.split(' ') {
        let (accepted, time) = pair(event)?;
        if accepted < moment {
            return Err(Fail::new("events are accepted in order"));
        }
        if number >= 1000 || archive.count() >= 1000 {
            return Err(Fail::new("too many events"));
        }
        let list = one(alloc, number + 1, accepted, time)?;
        archive.keep(list);
        number += 1;
        moment = accepted;
    }
    Ok(archive)
}

/// Appends the numbers of the events.
pub(crate) fn push_numbers(
    alloc: Global,
    said: &mut String,
    events: &LinkedList<EventRef>,
) -> Result<(), Fail> {
    for event in events.iter() {
        push_number(alloc, said, event.number())?;
    }
    Ok(())
}

/// Appends a number.
pub(crate) fn push_number(alloc: Global, said: &mut String, number: u64) -> Result<(), Fail> {
    let part = format!(in alloc; "{number}")?;
    Ok(said.push_str(&part)?)
}
