//! All archives, in the byte order of their names.
ghost use Rattle.std.specs.Prelude.{◌≡◌, ◌+◌, ◌^◌, ◌<◌, ◌≤◌, [], ◌∷◌, ◌++◌, None, Some};
ghost use Rattle.std.specs.Prelude.{IfOk, All, MatchOption, MatchResult, length, slice_index_or, vec_capacity};
ghost use Rattle.name_rows.specs.Rows.{AreSorted, named, placed, without};
ghost use Rattle.name_rows.specs.Place.{IsHere, IsBefore};
ghost use Rattle.archive_keep.specs.declared.event_ref.KeptEvent.{KeptEvent};
ghost use Rattle.archive_keep.specs.Kept.{IsLater};
ghost use Rattle.archive_keep.specs.Archive.{Archive as Kept, KeepsUntil};
ghost use Rattle.archive_keep.specs.Archives as spec;

use crate::archive::Archive;
use crate::event_ref::EventRef;
use json_text::NoMemory;
use key_tree::join;
use std::alloc::Global;
use std::collections::LinkedList;
use std::marker::Model;

/// The greatest number of archives. Their places are reserved from the start.
pub const MOST_ARCHIVES: usize = 100;

/// Archives in the byte order of their names.
#[derive(Debug, Drop)]
pub struct Archives {
    rows: Vec<Archive>,
    /// Nothing expires at moments before this one.
    next_expiry: u64,
}

impl Model for Archives {
    ghost use Rattle.std.specs.Prelude.{◌≤◌, List, All, vec_capacity};
    ghost use Rattle.name_rows.specs.Rows.{AreSorted};
    ghost use Rattle.archive_keep.specs.Archive.{Archive as View, KeepsUntil};
    ghost use Rattle.archive_keep.specs.Archives.{most_archives, name_of};

    ghost Value = { List View };

    ghost view = { λ a. a.rows.items };

    ghost invariant = { λ a. AreSorted name_of a.rows.items × (most_archives ≤ vec_capacity a.rows)
        × All (KeepsUntil a.next_expiry) a.rows.items };
}

impl Archives {
    /// No archives, with places for `MOST_ARCHIVES`.
    pub fn new(alloc: Global) -> Result<Archives, NoMemory>
        ensures { IfOk result (λ a. a ≡ []) }
    {
        let rows = Vec::with_capacity(alloc, MOST_ARCHIVES)?;
        Ok(Archives {
            rows,
            next_expiry: u64::MAX,
        })
    }

    /// All archives.
    pub fn rows(&self) -> &[Archive]
        ensures rows { result.now ≡ self.now }
        ensures sorted { AreSorted spec.name_of self.now }
    {
        &self.rows
    }

    /// The archive with this name.
    pub fn find(&self, name: &str) -> Option<&Archive>
        ensures { MatchOption result
            (named spec.name_of name.now self.now ≡ None)
            (λ archive. named spec.name_of name.now self.now ≡ Some archive.now) }
    {
        match place_of(&self.rows, name) {
            Ok(at) => Some(archive_at(&self.rows, at)),
            Err(_) => None,
        }
    }

    /// Adds the archive, which keeps nothing yet, unless there is one with its name.
    pub fn create(&mut self, archive: Archive)
        requires empty { archive.events ≡ [] }
        requires room { length self.old < spec.most_archives }
        ensures { self.new ≡ placed spec.name_of spec.keeping archive self.old }
    {
        match place_of(&self.rows, archive.name()) {
            Ok(_) => (),
            Err(at) => match self.rows.insert(at, archive) {
                Ok(()) => (),
                Err(_) => unreachable!(),
            },
        }
    }

    /// Removes the archive of this name, and returns it with its events; none if there is no such archive.
    pub fn remove(&mut self, name: &str) -> Option<Archive>
        ensures left { self.new ≡ without spec.name_of name.now self.old }
        ensures removed { MatchOption result
            (named spec.name_of name.now self.old ≡ None)
            (λ archive. named spec.name_of name.now self.old ≡ Some archive) }
    {
        match place_of(&self.rows, name) {
            Ok(at) => Some(self.rows.remove(at)),
            Err(_) => None,
        }
    }

    /// The archive of this name keeps the event of the list, which has one; without such an archive the event is dropped.
    pub fn keep(&mut self, name: &str, event: LinkedList<EventRef>)
        requires one { length event ≡ 1 }
        requires later { (e : KeptEvent) (a : Kept) → event ≡ e ∷ [] → named spec.name_of name.now self.old ≡ Some a → All (λ o. IsLater o e) a.events }
        requires room { All (λ a. length a.events + 1 < 2 ^ 63) self.old }
        ensures { (e : KeptEvent) → event ≡ e ∷ [] → self.new ≡ spec.kept_in name.now e self.old }
    {
        match place_of(&self.rows, name) {
            Ok(at) => {
                self.rows[at].keep(event);
                self.next_expiry = self.next_expiry.min(archive_at(&self.rows, at).expiry());
            }
            Err(_) => (),
        }
    }

    /// Gives the archive of this name new days. Returns what it did not retain by its old ones; none if there is no such
    /// archive.
    pub fn keep_for(&mut self, name: &str, days: u32, moment: u64) -> Option<LinkedList<EventRef>>
        ensures left { self.new ≡ spec.kept_for name.now days moment self.old }
        ensures gone { MatchOption result
            (named spec.name_of name.now self.old ≡ None)
            (λ gone. spec.expired_in name.now moment self.old ≡ gone) }
    {
        match place_of(&self.rows, name) {
            Ok(at) => {
                let gone = self.rows[at].keep_for(days, moment);
                self.next_expiry = self.next_expiry.min(archive_at(&self.rows, at).expiry());
                Some(gone)
            }
            Err(_) => None,
        }
    }

    /// The number of events that the archives keep.
    pub fn count(&self) -> u64
        requires { spec.event_count self.now < 2 ^ 64 }
        ensures { result ≡ spec.event_count self.now }
    {
        let mut count = 0;
        for archive in &self.rows {
            count += archive.count();
        }
        count
    }

    /// Drops what the archives do not retain at the moment, and returns it. Looks at no archive if nothing has expired, and
    /// frees nothing.
    pub fn purge(&mut self, moment: u64) -> LinkedList<EventRef>
        requires room { spec.event_count self.old < 2 ^ 63 }
        ensures left { self.new ≡ spec.all_purged moment self.old }
        ensures gone { result ≡ spec.all_expired moment self.old }
    {
        if moment < self.next_expiry {
            LinkedList::new(*self.rows.allocator())
        } else {
            let gone = purge_all(&mut self.rows, moment);
            self.next_expiry = next_expiry(&self.rows);
            gone
        }
    }
}

/// Drops what the archives do not retain at the moment, and returns it.
fn purge_all(rows: &mut Vec<Archive>, moment: u64) -> LinkedList<EventRef>
    requires { spec.event_count rows.old.items < 2 ^ 63 }
    ensures left { rows.new.items ≡ spec.all_purged moment rows.old.items }
    ensures capacity { vec_capacity rows.new ≡ vec_capacity rows.old }
    ensures gone { result ≡ spec.all_expired moment rows.old.items }
{
    let mut gone = LinkedList::new(*rows.allocator());
    purge_rows(rows, moment, &mut gone);
    gone
}

/// Appends what the archives do not retain at the moment, and drops it.
fn purge_rows(rows: &mut [Archive], moment: u64, gone: &mut LinkedList<EventRef>)
    requires { length gone.old + spec.event_count rows.old < 2 ^ 63 }
    ensures left { rows.new ≡ spec.all_purged moment rows.old }
    ensures gone { gone.new ≡ gone.old ++ spec.all_expired moment rows.old }
{
    for archive in rows.iter_mut() {
        join(gone, archive.purge(moment));
    }
}

/// The moment of the first expiry.
fn next_expiry(rows: &[Archive]) -> u64
    ensures { All (KeepsUntil result) rows.now }
{
    let mut next = u64::MAX;
    for archive in rows {
        next = next.min(archive.expiry());
    }
    next
}

fn archive_at(archives: &[Archive], at: usize) -> &Archive
    requires { at < length archives.now }
    ensures { result.now ≡ slice_index_or archives.now at result.now }
{
    &archives[at]
}

/// The index of the archive with this name, or the index at which it belongs.
fn place_of(archives: &[Archive], name: &str) -> Result<usize, usize>
    requires { AreSorted spec.name_of archives.now }
    ensures { MatchResult result
        (λ at. IsHere spec.name_of name.now archives.now at)
        (λ at. IsBefore spec.name_of name.now archives.now at) }
{
    match archives.binary_search_by(|archive| archive.name().cmp(name)) {
        Ok(at) => Ok(at),
        Err(at) => Err(at),
    }
}
