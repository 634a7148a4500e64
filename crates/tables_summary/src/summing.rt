//! The summary that a program prints at its end.
ghost use Rattle.std.specs.Prelude.{◌≡◌, ◌≢◌};
ghost use Rattle.archive_keep.specs.Archives.{event_count};
ghost use Rattle.router_disk.specs.Faults.{Rose};
ghost use Rattle.program_lines.specs.declared.status.Status.TheVariants as statuses;
ghost use Rattle.tables_summary.specs.Summary.{summary_of, IsSummed};

use program_lines::{Status, Summary, summary_text};
use router_core::Tables;
use router_disk::{Failed, Sink};
use std::alloc::Global;

/// Prints the summary of the tables.
pub fn sum_up<K: Sink>(alloc: Global, tables: &Tables, output: &mut K) -> Status
    ensures summed { IsSummed tables.now (K.wrote output.old) (K.wrote output.new) result }
    ensures write_fault { result ≡ statuses.WriteFault → Rose (K.faults output.old) (K.faults output.new) }
    ensures output_faultless { result ≢ statuses.WriteFault → K.faults output.new ≡ K.faults output.old }
{
    match summary_text(alloc, &summary(tables)) {
        Ok(text) => match output.write_all(text.as_slice()) {
            Ok(()) => Status::Done,
            Err(Failed) => Status::WriteFault,
        },
        Err(_) => Status::NoMemory,
    }
}

/// What the tables count.
fn summary(tables: &Tables) -> Summary
    ensures { result ≡ summary_of tables.now }
{
    let counts = tables.duties().counts();
    Summary {
        records: tables.batches(),
        entries: tables.entries(),
        control: tables.set().control_count(),
        events: tables.events(),
        archived: archived(tables),
        replays: tables.replays().count(),
        duties: counts.created,
        pending: counts.pending,
        delivered: counts.delivered,
        dead_lettered: counts.dead_lettered,
        dropped: counts.dropped,
        messages: tables.messages(),
    }
}

/// The number of events that archives keep, an event once for each of its archives.
fn archived(tables: &Tables) -> u64
    ensures { result ≡ event_count tables.now.archives }
{
    // Read for what holds of all tables: there are at most 100 archives, and none keeps more events than there are.
    let _version = tables.set().control_count();
    let _full = tables.full();
    tables.archives().count()
}
