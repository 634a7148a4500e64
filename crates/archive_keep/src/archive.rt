//! Archives.
ghost use Rattle.std.specs.Prelude.{◌≡◌, ◌+◌, ◌^◌, ◌<◌, ◌≤◌, [], ◌∷◌, ◌↔◌, List, IsTrue, All, length, take, drop};
ghost use Rattle.archive_keep.specs.declared.event_ref.KeptEvent.{KeptEvent};
ghost use Rattle.archive_keep.specs.Kept.{AreInOrder, IsLater};
ghost use Rattle.archive_keep.specs.Archive as spec;

use crate::event_ref::EventRef;
use json_text::Text;
use key_tree::{cut, join};
use std::alloc::Global;
use std::collections::LinkedList;
use std::collections::linked_list::Iter;
use std::marker::Model;
use std::mem;

/// The seconds of a day.
const DAY: u64 = 86_400;

/// An archive with the events that it keeps, oldest first. With 0 days it keeps them forever.
#[derive(Debug, Drop)]
pub struct Archive {
    name: Text,
    days: u32,
    created: u64,
    events: LinkedList<EventRef>,
    /// The bytes of their texts.
    bytes: u128,
}

impl Model for Archive {
    ghost use Rattle.archive_keep.specs.Archive.{Archive as View};
    ghost use Rattle.archive_keep.specs.Sound.{IsSummed};

    ghost Value = { View };

    ghost view = { λ a. record { name = a.name; days = a.days; created = a.created; events = a.events } };

    ghost invariant = { λ a. IsSummed a.bytes a.events };
}

impl Archive {
    /// An archive without events, created at this moment.
    pub fn new(alloc: Global, name: Text, days: u32, created: u64) -> Archive
        ensures { result ≡ spec.empty_archive name days created }
    {
        Archive {
            name,
            days,
            created,
            events: LinkedList::new(alloc),
            bytes: 0,
        }
    }

    pub fn name(&self) -> &str
        ensures { result.now ≡ self.now.name }
    {
        self.name.as_str()
    }

    /// The days for which an event is kept; 0 keeps events forever.
    pub fn days(&self) -> u32
        ensures { result ≡ self.now.days }
    {
        self.days
    }

    /// The moment of the archive's creation.
    pub fn created(&self) -> u64
        ensures { result ≡ self.now.created }
    {
        self.created
    }

    /// Keeps the event of the list, which has one. The node of the list was made before.
    pub fn keep(&mut self, event: LinkedList<EventRef>)
        requires one { length event ≡ 1 }
        requires later { (e : KeptEvent) → event ≡ e ∷ [] → All (λ o. IsLater o e) self.old.events }
        requires room { length self.old.events + 1 < 2 ^ 63 }
        ensures { (e : KeptEvent) → event ≡ e ∷ [] → self.new ≡ spec.with_event e self.old }
    {
        self.bytes += size_of_one(&event);
        join(&mut self.events, event);
    }

    /// The events that are retained at the moment, oldest first. Each event that is not costs a step.
    pub fn retained(&self, moment: u64) -> Iter<'_, EventRef>
        ensures events { result ≡ spec.retained_at moment self.now }
        ensures in_order { AreInOrder (spec.retained_at moment self.now) }
    {
        let count = self.expired_count(moment);
        skip(&self.events, count)
    }

    /// The number of the events that are retained at the moment, and the bytes of their texts. Each event that is not
    /// retained costs a step, and no other event does.
    pub fn counts(&self, moment: u64) -> (u64, u128)
        ensures events { result.0 ≡ length (spec.retained_at moment self.now) }
        ensures bytes { result.1 ≡ spec.size_of (spec.retained_at moment self.now) }
    {
        let count = self.expired_count(moment);
        let bytes = size_of_first(&self.events, count, self.bytes);
        ((self.events.len() - count) as u64, self.bytes - bytes)
    }

    /// The number of events that the archive keeps.
    pub fn count(&self) -> u64
        ensures { result ≡ length self.now.events }
    {
        self.events.len() as u64
    }

    /// Drops the events that are not retained at the moment, and returns them, oldest first. Each of them costs a step, and
    /// no other event does. Frees nothing.
    pub fn purge(&mut self, moment: u64) -> LinkedList<EventRef>
        ensures left { self.new ≡ spec.purged moment self.old }
        ensures gone { result ≡ spec.expired_at moment self.old }
    {
        let count = self.expired_count(moment);
        self.bytes -= size_of_first(&self.events, count, self.bytes);
        let left = cut(&mut self.events, count);
        mem::replace(&mut self.events, left)
    }

    /// Drops the events that are not retained at the moment by the days so far, and returns them. Then these days hold.
    pub fn keep_for(&mut self, days: u32, moment: u64) -> LinkedList<EventRef>
        ensures left { self.new ≡ spec.with_days days moment self.old }
        ensures gone { result ≡ spec.expired_at moment self.old }
    {
        let gone = self.purge(moment);
        self.days = days;
        gone
    }

    /// The moment at which the oldest event expires, at most the greatest `u64`; that if none does.
    pub(crate) fn expiry(&self) -> u64
        ensures { spec.KeepsUntil result self.now }
    {
        match self.events.front() {
            Some(event) => expiry_of(event, self.days),
            None => u64::MAX,
        }
    }

    /// The number of the events that are not retained at the moment.
    fn expired_count(&self, moment: u64) -> usize
        ensures count { result ≡ length (spec.expired_at moment self.now) }
        ensures within { result ≤ length self.now.events }
    {
        self.events
            .iter()
            .take_while(|event| has_expired(event, self.days, moment))
            .count()
    }
}

/// The events after the first `count`.
fn skip(events: &LinkedList<EventRef>, count: usize) -> Iter<'_, EventRef>
    requires { count ≤ length events.now }
    ensures { result ≡ drop count events.now }
{
    let mut left = events.iter();
    for _ in 0..count {
        left.next();
    }
    left
}

/// The bytes of the texts of this number of events, oldest first; `all` is that of all events.
fn size_of_first(events: &LinkedList<EventRef>, count: usize, all: u128) -> u128
    requires count { count ≤ length events.now }
    requires all { all ≡ spec.size_of events.now }
    ensures size { result ≡ spec.size_of (take count events.now) }
    ensures within { result ≤ all }
{
    let mut left = events.iter();
    let mut bytes = 0;
    for _ in 0..count {
        match left.next() {
            Some(event) => bytes += event.text().len() as u128,
            None => unreachable!(),
        }
    }
    bytes
}

/// Whether an event is no longer retained at the moment.
fn has_expired(event: &EventRef, days: u32, moment: u64) -> bool
    ensures { result ≡ spec.has_expired days moment event.now }
{
    days != 0 && moment.saturating_sub(event.accepted()) >= u64::from(days) * DAY
}

/// The moment at which an event expires, at most the greatest `u64`; that if it does not.
pub(crate) fn expiry_of(event: &EventRef, days: u32) -> u64
    ensures { spec.IsKeptUntil result days event.now }
{
    if days == 0 {
        u64::MAX
    } else {
        event.accepted().saturating_add(u64::from(days) * DAY)
    }
}

/// The bytes of the text of the event of a list of one.
fn size_of_one(event: &LinkedList<EventRef>) -> u128
    requires { length event.now ≡ 1 }
    ensures size { result ≡ spec.size_of event.now }
    ensures short { result < 2 ^ 64 }
{
    match event.front() {
        Some(event) => event.text().len() as u128,
        None => unreachable!(),
    }
}
