//! The steps of replays: each is one turn, and one batch.
ghost use Rattle.std.specs.Prelude.{◌≡◌, ◌≢◌, [], Some, false, IfOk, IfSome, IfNone, IfErr, MatchBool};
ghost use Rattle.json_text.specs.Moment.{IsMoment};
ghost use Rattle.replay_run.specs.Replays.{running};
ghost use Rattle.router_requests.specs.View.{batch_of};
ghost use Rattle.router_core.specs.Ready.{IsReadyFor};
ghost use Rattle.router_core.specs.Replaying.{IsReplayStep};
ghost use Rattle.router_core.specs.Tables.{is_full, moment_at};
ghost use Rattle.router_history.specs.History.{repeats, state_of};
ghost use Rattle.router_history.specs.Book.{turns_of, IsSoundMachine, HasGrown};
ghost use Rattle.router_history.specs.Answered.{IsAdded, IsRepeated, HasNoRepeat, IsUnrepeated};

use crate::book::{Book, Machine, Seat};
use crate::history::{Ask, Turn, Written};
use crate::machine::turn_moment;
use duty_journal::DiskFault;
use json_text::NoMemory;
use router_core::{Ready, Released, replayed, step};
use router_disk::Disk;
use std::alloc::Global;
use std::snapshot::Snapshot;
use step_run::StepFault;

impl Machine {
    /// Whether no replay is running.
    pub(crate) fn is_idle(&self) -> bool
        ensures { MatchBool result (running self.now.tables.replays ≡ []) (running self.now.tables.replays ≢ []) }
    {
        match self.tables.replays().next() {
            Some(_row) => false,
            None => true,
        }
    }

    /// The batch that makes the next step of the replays at this reading of the clock. The event is matched on the board.
    pub(crate) fn next_step(&self, alloc: Global, reading: u64) -> Result<Ready, NoMemory>
        requires reading { IsMoment reading }
        requires some { running self.now.tables.replays ≢ [] }
        requires numbered { is_full self.now.tables ≡ false }
        ensures ready { IfOk result (λ r. IsReadyFor self.now.tables r) }
        ensures step { IfOk result (λ r. IsReplayStep self.now.tables (moment_at self.now.tables reading) (batch_of r.batch)) }
    {
        let moment = turn_moment(&self.tables, reading);
        match replayed(alloc, &self.tables)? {
            Some((bus, event, name)) => {
                let seen = self
                    .board
                    .seen_event(alloc, bus.as_str(), &event, Some(name.as_str()))?;
                step(alloc, &self.tables, moment, (bus, event, name), seen)
            }
            None => unreachable!(),
        }
    }

    /// Makes the turn of the next step of the replays, whose batch is made already. Returns what the turn released.
    pub(crate) fn repeat(&mut self, seat: Seat, reading: u64, ready: Ready) -> Released
        requires kept { IsSoundMachine self.old }
        requires unbroken { (state_of (turns_of self.old)).broken ≡ false }
        requires numbered { is_full self.old.tables ≡ false }
        requires reading { IsMoment reading }
        requires ready { IsReadyFor self.old.tables ready }
        requires step { IsReplayStep self.old.tables (moment_at self.old.tables reading) (batch_of ready.batch) }
        ensures kept { IsSoundMachine self.new }
        ensures grows { HasGrown seat self.old self.new }
        ensures repeated { IsRepeated seat reading (turns_of self.old) (turns_of self.new) }
        ensures added { IsAdded (repeats reading) (Some (batch_of ready.batch)) (turns_of self.old) (turns_of self.new) }
    {
        self.history.push(&Turn {
            pass: Some(seat.pass),
            connection: seat.connection,
            ask: Ask::Repeats { reading },
            k: self.tables.set().control_count(),
            written: Written::Changes(Snapshot::of(ready.batch())),
        });
        self.tables.apply(ready)
    }
}

impl<D: Disk> Book<D> {
    ghost use Rattle.duty_journal.specs.Home.{is_broken_home};
    ghost use Rattle.router_history.specs.Home.{IsSoundBook};

    /// Makes the next step of the replays at this reading of the clock: one turn, and one batch. If no replay is running, there is no turn.
    /// Neither is there one at the number limit, if the book is broken, or out of memory; all memory is allocated before the first call of the
    /// disk. If the append of the batch fails, the one turn breaks the book. Returns what the turn released.
    pub fn step(
        &mut self,
        alloc: Global,
        seat: Seat,
        reading: u64,
    ) -> Result<Option<Released>, StepFault>
        requires book { IsSoundBook D.calls D.faults self.old }
        requires reading { IsMoment reading }
        ensures book { IsSoundBook D.calls D.faults self.new }
        ensures grows { HasGrown seat self.old.machine self.new.machine }
        ensures repeated { IfOk result (λ found. IfSome found (λ _. IsRepeated seat reading (turns_of self.old.machine) (turns_of self.new.machine))) }
        ensures none { IfOk result (λ found. IfNone found (HasNoRepeat seat reading (turns_of self.old.machine) (turns_of self.new.machine))) }
        ensures refused { IfErr result (λ fault. IsUnrepeated seat reading fault (turns_of self.old.machine) (turns_of self.new.machine)) }
    {
        if self.machine.is_idle() {
            return Ok(None);
        }
        if self.machine.tables.full() {
            return Err(StepFault::NumberLimit);
        }
        if self.home.is_broken() {
            return Err(StepFault::Broken);
        }
        self.append_step(alloc, seat, reading)
    }

    /// The same if a replay is running, below the number limit, on a book that is not broken.
    fn append_step(
        &mut self,
        alloc: Global,
        seat: Seat,
        reading: u64,
    ) -> Result<Option<Released>, StepFault>
        requires book { IsSoundBook D.calls D.faults self.old }
        requires reading { IsMoment reading }
        requires some { running self.old.machine.tables.replays ≢ [] }
        requires numbered { is_full self.old.machine.tables ≡ false }
        requires unbroken { is_broken_home self.old.home ≡ false }
        ensures book { IsSoundBook D.calls D.faults self.new }
        ensures grows { HasGrown seat self.old.machine self.new.machine }
        ensures repeated { IfOk result (λ found. IfSome found (λ _. IsRepeated seat reading (turns_of self.old.machine) (turns_of self.new.machine))) }
        ensures none { IfOk result (λ found. IfNone found (HasNoRepeat seat reading (turns_of self.old.machine) (turns_of self.new.machine))) }
        ensures refused { IfErr result (λ fault. IsUnrepeated seat reading fault (turns_of self.old.machine) (turns_of self.new.machine)) }
    {
        let ready = self.machine.next_step(alloc, reading)?;
        let prepared = self.home.prepare(alloc, ready.batch())?;
        match self.home.append(&prepared) {
            Ok(()) => Ok(Some(self.machine.repeat(seat, reading, ready))),
            Err(DiskFault) => {
                self.machine.break_by(seat, ready.batch());
                Err(StepFault::Broken)
            }
        }
    }
}
