//! Laws of replays.
ghost use Rattle.std.specs.Prelude.{◌≡◌, ◌↔◌, ◌++◌, ℕ, List};
ghost use Rattle.std.specs.List.Sorted.{IsPermutation};
ghost use Rattle.archive_keep.specs.declared.event_ref.KeptEvent.{KeptEvent};
ghost use Rattle.archive_keep.specs.Archive.{Archive};
ghost use Rattle.archive_keep.specs.Kept.{AreInOrder};
ghost use Rattle.replay_run.specs.declared.selection.TimeRange.{TimeRange};
ghost use Rattle.replay_run.specs.Selection.{AreByTimeAndNumber, chosen_of, selection_of};
ghost use Rattle.replay_run.specs.Replay.{ReplayAct, after_acts, events_in, new_replay, replay_state};

use crate::state::ReplayState;

/// A selection is in the order of its times, and of one time in that of its numbers, and it has each event in the range once.
pub fn a_selection_is_in_order()
    ensures order { (range : TimeRange) (moment : ℕ) (a : Archive) → AreInOrder a.events → AreByTimeAndNumber (selection_of range moment a) }
    ensures once { (range : TimeRange) (moment : ℕ) (a : Archive) → IsPermutation (chosen_of range moment a) (selection_of range moment a) }
{}

/// Whatever is done with a replay, the events that it repeats are, in order, a first part of its selection. They are all of it exactly
/// if it is completed.
pub fn steps_are_a_front_of_the_selection()
    ensures front { (selection : List KeptEvent) (acts : List ReplayAct)
        → (rest : List KeptEvent) × (selection ≡ events_in acts (new_replay selection) ++ rest) }
    ensures all { (selection : List KeptEvent) (acts : List ReplayAct)
        → (events_in acts (new_replay selection) ≡ selection) ↔ (replay_state (after_acts acts (new_replay selection)) ≡ ReplayState.Completed) }
{}
