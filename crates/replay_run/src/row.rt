//! Replays among all replays.
ghost use Rattle.std.specs.Prelude.{◌≡◌, ◌∷◌, [], List, Some, None, true, IfOk};
ghost use Rattle.archive_keep.specs.declared.event_ref.KeptEvent.{KeptEvent};
ghost use Rattle.replay_run.specs.Replays as spec;

use crate::replay::{Replay, Rest};
use crate::settings::ReplaySettings;
use crate::state::ReplayState;
use archive_keep::{Archive, EventRef};
use json_text::{NoMemory, Text};
use name_rows::Row;
use std::alloc::Global;

/// A replay, with the number of its start among all starts, from 1.
#[derive(Debug, Drop)]
pub struct ReplayRow {
    pub number: u64,
    pub settings: ReplaySettings,
    pub replay: Replay,
    /// The moment of its end.
    pub ended_at: Option<u64>,
}

/// What a step did.
#[derive(Drop)]
pub struct Stepped {
    pub event: EventRef,
    /// The memory of the replay's list, if the step completed it.
    pub rest: Option<Rest>,
}

impl ReplayRow {
    /// A replay of the archive, at its start.
    pub(crate) fn start(
        alloc: Global,
        archive: &Archive,
        settings: ReplaySettings,
        number: u64,
    ) -> Result<ReplayRow, NoMemory>
        ensures { IfOk result (λ row. row ≡ spec.first_row archive.now settings number) }
    {
        let started_at = settings.started_at;
        let replay = Replay::start(alloc, archive, settings.range, started_at)?;
        let mut row = ReplayRow {
            number,
            settings,
            replay,
            ended_at: None,
        };
        row.note_end(started_at);
        Ok(row)
    }

    pub fn name(&self) -> &str
        ensures { result.now ≡ self.now.settings.name }
    {
        self.settings.name.as_str()
    }

    pub fn is_running(&self) -> bool
        ensures { result ≡ spec.is_running self.now }
    {
        match self.replay.state() {
            ReplayState::Running => true,
            ReplayState::Completed => false,
            ReplayState::Cancelled => false,
        }
    }

    /// Notes the moment of the end, if the replay is not running.
    fn note_end(&mut self, moment: u64)
        ensures { self.new ≡ spec.changed_at moment self.old }
    {
        if !self.is_running() {
            self.ended_at = Some(moment);
        }
    }

    /// Repeats the next event.
    pub(crate) fn step(&mut self, moment: u64) -> Stepped
        requires { spec.is_running self.old ≡ true }
        ensures event { (rest : List KeptEvent) × (self.old.replay.left ≡ result.event ∷ rest) }
        ensures row { self.new ≡ spec.stepped_at moment self.old }
    {
        let event = self.replay.advance();
        self.note_end(moment);
        let rest = if self.is_running() {
            None
        } else {
            Some(self.replay.take_rest())
        };
        Stepped { event, rest }
    }

    /// Cancels the replay, and returns what it has not repeated.
    pub(crate) fn cancel(&mut self, moment: u64) -> Rest
        requires { spec.is_running self.old ≡ true }
        ensures rest { result ≡ self.old.replay.left }
        ensures row { self.new ≡ spec.cancelled_at moment self.old }
    {
        match self.replay.cancel() {
            Ok(rest) => {
                self.note_end(moment);
                rest
            }
            Err(_) => unreachable!(),
        }
    }
}

/// The name of a replay with its number.
#[derive(Debug, Drop)]
pub struct NumberedName {
    pub name: Text,
    pub number: u64,
}

impl Row for NumberedName {
    ghost name_of = { λ row. row.name };

    fn row_name(&self) -> &str {
        self.name.as_str()
    }
}
