//! An archive of one day that keeps the events of several days.
ghost use Rattle.std.specs.Prelude.{◌≡◌, ◌≤◌, [], ◌∷◌, All, IfOk};
ghost use Rattle.archive_keep.specs.declared.event_ref.KeptEvent.{KeptEvent};
ghost use Rattle.archive_keep.specs.Kept.{IsTextOfEvent};

use anyhow::{Result, bail};
use archive_keep::{Archive, EventRef, KeptEvent};
use event_shape::Event;
use json_text::Text;
use shared_text::SharedText;
use std::alloc::Global;
use std::collections::LinkedList;
use std::rt::Clock;
use std::time::{Duration, Instant};

/// The text of each event, of 220 bytes.
const TEXT: &str =
    r#"{"version":"0","id":"00000000-0000-8000-8000-000000000001","detail-type":"Order","source":"shop.orders","account":"111122223333","time":"2023-11-14T22:13:20Z","region":"us-east-1","resources":[],"detail":{"total":12.50}}"#;

const SECONDS_OF_A_DAY: u64 = 86_400;

/// Events that are kept at most.
const MOST: u64 = 1_000_000_000;

/// The number of events that are kept at the end, the time that each day took, and that of a purge of all of them.
#[derive(Drop)]
pub struct Figures {
    pub kept: u64,
    pub days: Vec<Duration>,
    pub purged: Duration,
}

/// An archive, with the number and the moment of its last event.
#[derive(Drop)]
struct Line {
    archive: Archive,
    number: u64,
    moment: u64,
}

/// Keeps this number of events on each day, one after the other, and drops what expires after each of them.
pub fn measure(rt: &impl Clock, alloc: Global, events: u32, days: u32) -> Result<Figures> {
    let text = event_text(alloc)?;
    let archive = Archive::new(alloc, Text::from_str(alloc, "a")?, 1, 0);
    let mut line = Line {
        archive,
        number: 0,
        moment: 0,
    };
    let mut took = Vec::new(alloc);
    for day in 0..days {
        let start = Instant::now(rt)?;
        keep_a_day(alloc, &mut line, &text, day, events)?;
        took.push(start.elapsed(rt)?)?;
    }
    let kept = line.archive.count();
    let start = Instant::now(rt)?;
    let _gone = line.archive.purge(u64::MAX);
    Ok(Figures {
        kept,
        days: took,
        purged: start.elapsed(rt)?,
    })
}

/// Keeps this number of events on a day, as far apart from each other as they can be.
fn keep_a_day(
    alloc: Global,
    line: &mut Line,
    text: &SharedText,
    day: u32,
    events: u32,
) -> Result<()>
    requires text { IsTextOfEvent text.now }
    requires so_far { All (λ (o : KeptEvent). (o.number ≤ line.old.number) × (o.accepted ≤ line.old.moment)) line.old.archive.events }
    ensures so_far { All (λ (o : KeptEvent). (o.number ≤ line.new.number) × (o.accepted ≤ line.new.moment)) line.new.archive.events }
{
    for place in 0..events {
        let second = u64::from(place) * SECONDS_OF_A_DAY / u64::from(events);
        let moment = u64::from(day) * SECONDS_OF_A_DAY + second;
        keep_one(alloc, line, text, moment)?;
    }
    Ok(())
}

/// Keeps one event, and then drops what has expired.
fn keep_one(alloc: Global, line: &mut Line, text: &SharedText, moment: u64) -> Result<()>
    requires text { IsTextOfEvent text.now }
    requires so_far { All (λ (o : KeptEvent). (o.number ≤ line.old.number) × (o.accepted ≤ line.old.moment)) line.old.archive.events }
    ensures so_far { All (λ (o : KeptEvent). (o.number ≤ line.new.number) × (o.accepted ≤ line.new.moment)) line.new.archive.events }
{
    if moment < line.moment {
        bail!("events are accepted in order");
    }
    if line.number >= MOST || line.archive.count() >= MOST {
        bail!("too many events");
    }
    let list = one(alloc, text, line.number + 1, moment)?;
    line.archive.keep(list);
    line.number += 1;
    line.moment = moment;
    let _gone = line.archive.purge(moment);
    Ok(())
}

/// A list of this event.
fn one(alloc: Global, text: &SharedText, number: u64, accepted: u64) -> Result<LinkedList<EventRef>>
    requires { IsTextOfEvent text.now }
    ensures { IfOk result (λ list. (e : KeptEvent) × (list ≡ e ∷ []) × (e.number ≡ number) × (e.accepted ≡ accepted)) }
{
    let kept = KeptEvent {
        number,
        accepted,
        time: accepted,
        text: text.share()?,
    };
    let event = EventRef::new(alloc, kept)?;
    let mut list = LinkedList::new(alloc);
    list.push_back(event)?;
    Ok(list)
}

/// The text, which is an event's.
fn event_text(alloc: Global) -> Result<SharedText>
    ensures { IfOk result (λ text. IsTextOfEvent text) }
{
    let text = Text::from_str(alloc, TEXT)?;
    match Event::read(alloc, text.as_str().as_bytes())? {
        Some(_) => Ok(SharedText::new(alloc, text)?),
        None => bail!("no event's text"),
    }
}
