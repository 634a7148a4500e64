//! All replays.
ghost use Rattle.std.specs.Prelude.{◌≡◌, ℕ, ◌+◌, ◌^◌, ◌<◌, ◌≤◌, ◌∷◌, ◌++◌, [], List, Some, None, true, IfOk, IfSome, MatchOption, length, vec_capacity};
ghost use Rattle.std.specs.Option.{option_copied};
ghost use Rattle.name_rows.specs.Rows.{AreSorted, named};
ghost use Rattle.archive_keep.specs.declared.event_ref.KeptEvent.{KeptEvent};
ghost use Rattle.replay_run.specs.declared.row.ReplayRow.{ReplayRow};
ghost use Rattle.replay_run.specs.Replays as spec;

use crate::replay::Rest;
use crate::row::{NumberedName, ReplayRow, Stepped};
use crate::settings::ReplaySettings;
use archive_keep::Archive;
use json_text::{NoMemory, Text};
use key_tree::{KeyTree, Node};
use name_rows::{Rows, RowsFrom};
use std::alloc::Global;
use std::marker::Model;

/// The greatest number of replays that run at once. Their places are reserved from the start.
pub const MOST_RUNNING: usize = 10;

/// A replay that is to be started, with all the memory that this takes. It is for the very next start, since its names are
/// all names with its own.
#[derive(Drop)]
pub struct NewReplay {
    pub row: Node<ReplayRow>,
    /// The names of all replays with this one.
    pub names: Rows<NumberedName>,
}

/// All replays. Starting, stepping and cancelling take no memory.
#[derive(Drop)]
pub struct Replays {
    /// All replays, by number.
    all: KeyTree<ReplayRow>,
    /// The numbers of the running ones, in the order of their starts.
    running: Vec<u64>,
    /// The names of all, with their numbers.
    names: Rows<NumberedName>,
    count: u64,
}

impl Model for Replays {
    ghost use Rattle.std.specs.Prelude.{◌≡◌, ◌≤◌, List, length, vec_capacity};
    ghost use Rattle.replay_run.specs.declared.row.ReplayRow.{ReplayRow};
    ghost use Rattle.replay_run.specs.Replays.{AreSound, most_running, rows_in};

    ghost Value = { List ReplayRow };

    ghost view = { λ r. rows_in r.all };

    ghost invariant = { λ r. (most_running ≤ vec_capacity r.running) × (r.count ≡ length r.all) × AreSound r.all r.running.items r.names };
}

impl Replays {
    /// No replays, with places for `MOST_RUNNING` that run.
    pub fn new(alloc: Global) -> Result<Replays, NoMemory>
        ensures { IfOk result (λ r. r ≡ []) }
    {
        let running = Vec::with_capacity(alloc, MOST_RUNNING)?;
        let names = Rows::new(alloc)?;
        let all = KeyTree::new();
        Ok(Replays {
            all,
            running,
            names,
            count: 0,
        })
    }

    /// The number of replays.
    pub fn count(&self) -> u64
        ensures { result ≡ length self.now }
    {
        self.count
    }

    /// The number of replays that are running.
    pub fn running_count(&self) -> usize
        ensures { result ≡ length (spec.running self.now) }
    {
        self.running.len()
    }

    /// The replay that is stepped next: of those that are running the one that started first.
    pub fn next(&self) -> Option<&ReplayRow>
        ensures first { MatchOption result
            (spec.running self.now ≡ [])
            (λ row. (rest : List ReplayRow) × (spec.running self.now ≡ row.now ∷ rest)) }
        ensures named { IfSome result (λ row. spec.found (spec.name_of row.now) self.now ≡ Some row.now) }
    {
        match self.running.first() {
            Some(number) => self.all.get(u128::from(*number)),
            None => None,
        }
    }

    /// Whether a running replay sends its events to this bus.
    pub fn goes_to(&self, bus: &str) -> bool
        ensures { result ≡ spec.is_sent_to bus.now self.now }
    {
        is_one_sent_to(&self.all, &self.running, bus)
    }

    /// The names of all replays, in byte order.
    pub fn names(&self) -> RowsFrom<'_, NumberedName>
        ensures names { result ≡ spec.names_of self.now }
        ensures sorted { AreSorted spec.number_name result }
        ensures each { (name : List ℕ) → named spec.number_name name result ≡ spec.numbered_if (spec.found name self.now) }
    {
        self.names.iter()
    }

    /// The replay of this name.
    pub fn find(&self, name: &str) -> Option<&ReplayRow>
        ensures { MatchOption result
            (spec.found name.now self.now ≡ None)
            (λ row. spec.found name.now self.now ≡ Some row.now) }
    {
        match self.names.find(name) {
            Some(found) => self.all.get(u128::from(found.number)),
            None => None,
        }
    }

    /// A replay of the archive, to be started.
    pub fn prepare(
        &self,
        alloc: Global,
        archive: &Archive,
        settings: ReplaySettings,
    ) -> Result<NewReplay, NoMemory>
        requires { spec.next_number self.now < 2 ^ 64 }
        ensures row { IfOk result (λ new. new.row ≡ spec.first_row archive.now settings (spec.next_number self.now)) }
        ensures names { IfOk result (λ new. new.names ≡ spec.names_of (self.now ++ new.row ∷ [])) }
    {
        let number = self.count + 1;
        let name = Text::from_str(alloc, settings.name.as_str())?;
        let names = self.names.with(alloc, NumberedName { name, number })?;
        let row = ReplayRow::start(alloc, archive, settings, number)?;
        let node = Node::new(alloc, row)?;
        Ok(NewReplay { row: node, names })
    }

    /// Starts the replay, which no other has the name of.
    pub fn start(&mut self, new: NewReplay)
        requires name { spec.found (spec.name_of new.row) self.old ≡ None }
        requires number { new.row.number ≡ spec.next_number self.old }
        requires names { new.names ≡ spec.names_of (self.old ++ new.row ∷ []) }
        requires few { spec.next_number self.old < 2 ^ 64 }
        requires room { spec.is_running new.row ≡ true → length (spec.running self.old) < spec.most_running }
        ensures { self.new ≡ self.old ++ new.row ∷ [] }
    {
        let NewReplay { row, names } = new;
        let first = row.value();
        let number = first.number;
        let runs = first.is_running();
        note_start(&mut self.running, number, runs);
        self.all.insert(u128::from(number), row);
        self.names = names;
        self.count += 1;
    }

    /// Makes a step of the running replay of this name. `None` means that there is none.
    pub fn step(&mut self, name: &str, moment: u64) -> Option<Stepped>
        ensures stepped { self.new ≡ spec.stepped_in name.now moment self.old }
        ensures event { MatchOption result
            (spec.running_named name.now self.old ≡ None)
            (λ s. (row : ReplayRow) × (rest : List KeptEvent) × (spec.running_named name.now self.old ≡ Some row)
            × (row.replay.left ≡ s.event ∷ rest)) }
    {
        match self.running_number(name) {
            Some(number) => match self.all.remove(u128::from(number)) {
                Some(mut node) => {
                    let stepped = node.value_mut().step(moment);
                    note_change(&mut self.running, number, node.value().is_running());
                    self.all.insert(u128::from(number), node);
                    Some(stepped)
                }
                None => unreachable!(),
            },
            None => None,
        }
    }

    /// Cancels the running replay of this name, and returns what it has not repeated. `None` means that there is none.
    pub fn cancel(&mut self, name: &str, moment: u64) -> Option<Rest>
        ensures cancelled { self.new ≡ spec.cancelled_in name.now moment self.old }
        ensures rest { MatchOption result
            (spec.running_named name.now self.old ≡ None)
            (λ rest. (row : ReplayRow) × (spec.running_named name.now self.old ≡ Some row) × (rest ≡ row.replay.left)) }
    {
        match self.running_number(name) {
            Some(number) => match self.all.remove(u128::from(number)) {
                Some(mut node) => {
                    let rest = node.value_mut().cancel(moment);
                    note_change(&mut self.running, number, node.value().is_running());
                    self.all.insert(u128::from(number), node);
                    Some(rest)
                }
                None => unreachable!(),
            },
            None => None,
        }
    }

    /// The number of the running replay of this name.
    fn running_number(&self, name: &str) -> Option<u64>
        ensures { MatchOption result
            (spec.running_named name.now self.now ≡ None)
            (λ number. (row : ReplayRow) × (spec.running_named name.now self.now ≡ Some row) × (row.number ≡ number)) }
    {
        match self.find(name) {
            Some(row) => {
                if row.is_running() {
                    Some(row.number)
                } else {
                    None
                }
            }
            None => None,
        }
    }
}

/// Whether one of the replays of these numbers sends its events to the bus.
fn is_one_sent_to(all: &KeyTree<ReplayRow>, numbers: &[u64], bus: &str) -> bool
    ensures { result ≡ spec.is_one_sent_to bus.now all.now numbers.now }
{
    match numbers {
        [number, rest @ ..] => {
            is_row_sent_to(all.get(u128::from(*number)), bus) || is_one_sent_to(all, rest, bus)
        }
        [] => false,
    }
}

fn is_row_sent_to(row: Option<&ReplayRow>, bus: &str) -> bool
    ensures { result ≡ spec.is_row_sent_to bus.now (option_copied row.entry) }
{
    match row {
        Some(row) => row.settings.bus.as_str() == bus,
        None => false,
    }
}

/// Notes the number of a replay that started, if it runs.
fn note_start(running: &mut Vec<u64>, number: u64, runs: bool)
    requires room { runs ≡ true → length running.old.items < spec.most_running }
    requires capacity { spec.most_running ≤ vec_capacity running.old }
    ensures numbers { running.new.items ≡ spec.numbers_with runs number running.old.items }
    ensures capacity { spec.most_running ≤ vec_capacity running.new }
{
    if runs {
        match running.push(number) {
            Ok(()) => (),
            Err(_) => unreachable!(),
        }
    }
}

/// Forgets the number of a replay that changed, unless it runs on.
fn note_change(running: &mut Vec<u64>, number: u64, runs: bool)
    requires { spec.most_running ≤ vec_capacity running.old }
    ensures numbers { running.new.items ≡ spec.numbers_after runs number running.old.items }
    ensures capacity { spec.most_running ≤ vec_capacity running.new }
{
    if !runs {
        running.retain(|other| *other != number);
    }
}
