//! Laws of batches that are ready, and of replays.
ghost use Rattle.std.specs.Prelude.{◌≡◌, ◌↔◌, ◌++◌, ℕ, List, All, map};
ghost use Rattle.archive_keep.specs.declared.event_ref.KeptEvent.{KeptEvent};
ghost use Rattle.router_requests.specs.declared.batch.StartedReplay.{StartedReplay};
ghost use Rattle.router_requests.specs.Batch.{Batch};
ghost use Rattle.router_core.specs.Tables.{Tables, after_batch, first_tables, tables_after};
ghost use Rattle.router_core.specs.Admitted.{AreBatchesAdmitted, IsNoChange};
ghost use Rattle.router_core.specs.Ready.{IsNoStart, IsPrepared};
ghost use Rattle.router_core.specs.Replaying.{IsCompleted, IsStartIn, repeated_in};
ghost use Rattle.router_requests.specs.View.{batch_of};
ghost use Rattle.router_core.specs.declared.ready.Ready.{Ready};

/// What is prepared for a batch stays prepared while no configuration changes: while events are accepted, attempts are recorded, and replays
/// start, make steps and are cancelled. A batch that starts a replay is excepted: its part has its selection and its number.
pub fn a_prepared_batch_stays_prepared()
    ensures { (t : Tables) (r : Ready) (b : Batch) → All IsNoChange b.entries → All IsNoStart (batch_of r.batch).entries → IsPrepared t r
        → IsPrepared (after_batch b t) r }
{}

/// From the first tables on, the numbers of the events that the steps of a replay repeat are, in order, a first part of its selection from the
/// archive before its start. They are all of it exactly if the replay is completed.
pub fn a_replay_repeats_a_front_of_its_selection()
    ensures front { (batches : List Batch) (s : StartedReplay) (selection : List KeptEvent) → AreBatchesAdmitted first_tables batches
        → IsStartIn batches s selection → (rest : List ℕ) × (map (λ e. e.number) selection ≡ repeated_in s.name batches ++ rest) }
    ensures all { (batches : List Batch) (s : StartedReplay) (selection : List KeptEvent) → AreBatchesAdmitted first_tables batches
        → IsStartIn batches s selection
        → (repeated_in s.name batches ≡ map (λ e. e.number) selection) ↔ IsCompleted s.name (tables_after batches first_tables) }
{}
