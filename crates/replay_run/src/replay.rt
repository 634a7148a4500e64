//! Replays.
ghost use Rattle.std.specs.Prelude.{◌≡◌, ◌≢◌, ◌+◌, ◌∷◌, [], List, Some, None, IfOk, MatchOption, MatchResult};
ghost use Rattle.archive_keep.specs.declared.event_ref.KeptEvent.{KeptEvent};
ghost use Rattle.replay_run.specs.Selection.{selection_of};
ghost use Rattle.replay_run.specs.Replay as spec;

use crate::selection::{TimeRange, selection};
use crate::state::{IllegalStatus, ReplayState};
use archive_keep::{Archive, EventRef};
use json_text::NoMemory;
use std::alloc::Global;
use std::marker::Model;
use std::mem;

/// A replay: the events that it selected at its start and has not repeated yet.
#[derive(Debug, Drop)]
pub struct Replay {
    /// The events that are left, the next one last.
    left: Vec<EventRef>,
    selected: u64,
    repeated: u64,
    last: Option<u64>,
    cancelled: bool,
}

impl Model for Replay {
    ghost use Rattle.std.specs.Prelude.{reverse};
    ghost use Rattle.replay_run.specs.Replay.{Replay as View, IsSound};

    ghost Value = { View };

    ghost view = { λ r. record {
      left = reverse r.left.items;
      selected = r.selected;
      repeated = r.repeated;
      last = r.last;
      cancelled = r.cancelled;
    } };

    ghost invariant = { λ r. IsSound (record {
      left = reverse r.left.items;
      selected = r.selected;
      repeated = r.repeated;
      last = r.last;
      cancelled = r.cancelled;
    }) };
}

/// The events that an ended replay did not repeat, with the memory that its list took. Dropping it frees them, so drop it
/// where nobody waits.
#[derive(Debug, Drop)]
pub struct Rest {
    left: Vec<EventRef>,
}

impl Model for Rest {
    ghost use Rattle.std.specs.Prelude.{List, reverse};
    ghost use Rattle.archive_keep.specs.declared.event_ref.KeptEvent.{KeptEvent};

    ghost Value = { List KeptEvent };

    ghost view = { λ r. reverse r.left.items };
}

impl Replay {
    /// A replay of what the archive retains at the moment, with a time in the range.
    pub fn start(
        alloc: Global,
        archive: &Archive,
        range: TimeRange,
        moment: u64,
    ) -> Result<Replay, NoMemory>
        ensures { IfOk result (λ r. r ≡ spec.new_replay (selection_of range moment archive.now)) }
    {
        let mut left = selection(alloc, archive, range, moment)?;
        left.reverse();
        let selected = left.len() as u64;
        Ok(Replay {
            left,
            selected,
            repeated: 0,
            last: None,
            cancelled: false,
        })
    }

    pub fn state(&self) -> ReplayState
        ensures { result ≡ spec.replay_state self.now }
    {
        if self.cancelled {
            ReplayState::Cancelled
        } else if self.repeated == self.selected {
            ReplayState::Completed
        } else {
            ReplayState::Running
        }
    }

    /// The next event to repeat, if the replay is running.
    pub fn next(&self) -> Option<&EventRef>
        ensures next { MatchOption result
            (self.now.left ≡ [])
            (λ e. (rest : List KeptEvent) × (self.now.left ≡ e.now ∷ rest)) }
        ensures running { MatchOption result
            (spec.replay_state self.now ≢ ReplayState.Running)
            (λ _. spec.replay_state self.now ≡ ReplayState.Running) }
    {
        self.left.last()
    }

    /// The number of events selected.
    pub fn selected(&self) -> u64
        ensures { result ≡ self.now.selected }
    {
        self.selected
    }

    /// The time of the last event repeated, if there was one.
    pub fn last(&self) -> Option<u64>
        ensures { result ≡ self.now.last }
    {
        self.last
    }

    /// Goes on to the event after the next one, and returns the latter.
    pub fn advance(&mut self) -> EventRef
        requires { spec.replay_state self.old ≡ ReplayState.Running }
        ensures event { (rest : List KeptEvent) × (self.old.left ≡ result ∷ rest) }
        ensures advanced { self.new ≡ spec.advanced self.old }
    {
        match self.left.pop() {
            Some(event) => {
                self.repeated += 1;
                self.last = Some(event.time());
                event
            }
            None => unreachable!(),
        }
    }

    /// Takes the memory of the list, if nothing is left of it.
    pub(crate) fn take_rest(&mut self) -> Rest
        ensures { self.new ≡ self.old }
    {
        let nothing = Vec::new(*self.left.allocator());
        if self.left.is_empty() {
            Rest {
                left: mem::replace(&mut self.left, nothing),
            }
        } else {
            Rest { left: nothing }
        }
    }

    /// Ends the replay, and returns what it has not repeated. An `Err` changes nothing.
    pub fn cancel(&mut self) -> Result<Rest, IllegalStatus>
        ensures cancelled { MatchResult result
            (λ rest. (spec.replay_state self.old ≡ ReplayState.Running) × (rest ≡ self.old.left) × (self.new ≡ spec.after_cancellation self.old))
            (λ _. (spec.replay_state self.old ≢ ReplayState.Running) × (self.new ≡ self.old)) }
    {
        match self.state() {
            ReplayState::Running => {
                let nothing = Vec::new(*self.left.allocator());
                self.cancelled = true;
                Ok(Rest {
                    left: mem::replace(&mut self.left, nothing),
                })
            }
            ReplayState::Completed => Err(IllegalStatus),
            ReplayState::Cancelled => Err(IllegalStatus),
        }
    }
}
