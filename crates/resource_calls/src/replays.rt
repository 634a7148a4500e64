//! Calls on replays.
ghost use Rattle.std.specs.Prelude.{◌≡◌, IfOk, None, Some};
ghost use Rattle.json_text.specs.Moment.{IsMoment};
ghost use Rattle.name_rows.specs.Rows.{named};
ghost use Rattle.archive_keep.specs.Archives.{name_of};
ghost use Rattle.rule_table.specs.RuleSet.{archive_at};
ghost use Rattle.replay_run.specs.Replays.{found};
ghost use Rattle.replay_run.specs.declared.replays.NewReplay.{NewReplay};
ghost use Rattle.api_replies.specs.View.{reply_of};
ghost use Rattle.config_views.specs.Replays.{cancelled_reply, started_reply};
ghost use Rattle.router_core.specs.Admitted.{IsCancellationAdmitted, IsStartAdmitted};
ghost use Rattle.router_core.specs.declared.ready.Part.TheVariants.{Start};
ghost use Rattle.router_requests.specs.Bounds.{IsStartBounded};
ghost use Rattle.router_requests.specs.Batch.{replay_cancelled};
ghost use Rattle.resource_calls.specs.Decision.{replay_start, start_of as start_decided, IsStarting, replay_cancellation, writes as decided_as};
ghost use Rattle.resource_calls.specs.Decided.{decided_of, CanBeMade};

use crate::archives::no_archive;
use crate::decided::{Decided, refused, writes};
use crate::tables::read_tables;
use archive_keep::Archive;
use config_views::{cancelled_reply, started_reply};
use json_text::{NoMemory, Text};
use replay_run::MOST_RUNNING;
use router_core::{Cause, Kind, Part, Reply, Tables};
use router_requests::{Entry, StartedReplay};
use rule_table::ArchiveRow;
use std::alloc::Global;

/// Starts the replay at the moment, unless it is refused. Its events go to this bus, which has to be that of its archive.
pub fn start_replay(
    alloc: Global,
    tables: &Tables,
    moment: u64,
    start: &StartedReplay,
    bus: &Text,
) -> Result<Decided, NoMemory>
    requires form { IsStartBounded start.now bus.now }
    requires moment { IsMoment moment }
    ensures answer { IfOk result (λ d. decided_of d ≡ replay_start tables.now moment start.now bus.now) }
    ensures made { IfOk result (λ d. CanBeMade tables.now moment d) }
{
    read_tables(tables);
    if tables.replays().find(start.name.as_str()).is_some() {
        let name = start.name.copy(alloc)?;
        let kind = Kind::Replay;
        return refused(alloc, &Cause::Exists { kind, name });
    }
    match tables.set().archive(start.archive.as_str()) {
        Some(row) => match tables.archives().find(start.archive.as_str()) {
            Some(archive) => start_of(alloc, tables, moment, start, bus, row, archive),
            None => no_archive(alloc, &start.archive),
        },
        None => no_archive(alloc, &start.archive),
    }
}

/// Starts the replay of the archive that is there.
fn start_of(
    alloc: Global,
    tables: &Tables,
    moment: u64,
    start: &StartedReplay,
    bus: &Text,
    row: &ArchiveRow,
    archive: &Archive,
) -> Result<Decided, NoMemory>
    requires form { IsStartBounded start.now bus.now }
    requires moment { IsMoment moment }
    requires new { found start.now.name tables.now.replays ≡ None }
    requires known { archive_at start.now.archive tables.now.set ≡ Some row.now }
    requires kept { named name_of start.now.archive tables.now.archives ≡ Some archive.now }
    ensures answer { IfOk result (λ d. decided_of d ≡ start_decided tables.now moment start.now bus.now row.now archive.now) }
    ensures made { IfOk result (λ d. CanBeMade tables.now moment d) }
{
    if bus.as_str() != row.bus() {
        return refused(alloc, &Cause::OtherDestination);
    }
    if start.range.end < start.range.start {
        return refused(alloc, &Cause::EmptyRange);
    }
    if tables.replays().running_count() >= MOST_RUNNING {
        return refused(alloc, &Cause::LimitReached(Kind::Replay));
    }
    started(alloc, tables, moment, start)
}

/// The start as one operation, with its reply.
fn started(
    alloc: Global,
    tables: &Tables,
    moment: u64,
    start: &StartedReplay,
) -> Result<Decided, NoMemory>
    requires admitted { IsStartAdmitted tables.now start.now }
    ensures answer { IfOk result (λ d. IsStarting tables.now moment start.now (decided_of d)) }
    ensures made { IfOk result (λ d. CanBeMade tables.now moment d) }
{
    let part = Part::of_start(alloc, tables, start, moment)?;
    let reply = reply_to_start(alloc, &part)?;
    let start = start.copy(alloc)?;
    writes(alloc, Entry::ReplayStarted(start), part, reply)
}

/// The reply that shows the replay as it is after its start.
fn reply_to_start(alloc: Global, part: &Part) -> Result<Reply, NoMemory>
    requires { (new : NewReplay) × (part.now ≡ Start new) }
    ensures { IfOk result (λ reply. (new : NewReplay) → part.now ≡ Start new → reply_of reply ≡ started_reply new.row) }
{
    match part.started() {
        Some(replay) => started_reply(alloc, replay),
        None => unreachable!(),
    }
}

/// Cancels the replay, if it is running.
pub fn cancel_replay(
    alloc: Global,
    tables: &Tables,
    moment: u64,
    name: &Text,
) -> Result<Decided, NoMemory>
    ensures answer { IfOk result (λ d. decided_of d ≡ replay_cancellation tables.now name.now) }
    ensures made { IfOk result (λ d. CanBeMade tables.now moment d) }
{
    match tables.replays().find(name.as_str()) {
        Some(row) => {
            if row.is_running() {
                cancellation(alloc, tables, moment, name)
            } else {
                let name = name.copy(alloc)?;
                refused(alloc, &Cause::NotRunning { name })
            }
        }
        None => {
            let name = name.copy(alloc)?;
            let kind = Kind::Replay;
            refused(alloc, &Cause::NotFound { kind, name })
        }
    }
}

/// The cancellation of a replay that is running.
fn cancellation(
    alloc: Global,
    tables: &Tables,
    moment: u64,
    name: &Text,
) -> Result<Decided, NoMemory>
    requires running { IsCancellationAdmitted tables.now name.now }
    ensures answer { IfOk result (λ d. decided_of d ≡ decided_as (replay_cancelled name.now) (cancelled_reply name.now)) }
    ensures made { IfOk result (λ d. CanBeMade tables.now moment d) }
{
    let reply = cancelled_reply(alloc, name.as_str())?;
    let name = name.copy(alloc)?;
    writes(
        alloc,
        Entry::ReplayCancelled { name },
        Part::Cancellation,
        reply,
    )
}
