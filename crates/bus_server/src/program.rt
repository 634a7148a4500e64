//! The program.
ghost use Rattle.std.specs.Prelude.{◌≡◌, ◌≢◌, ◌⊎◌, ◌++◌, ◌≤◌, ℕ, List, Option, Some, None, map, string_bytes};
ghost use Rattle.command_line.specs.Command.{CommandView, IsCommand, command_view};
ghost use Rattle.command_line.specs.Command as commands;
ghost use Rattle.command_line.specs.Fault.{AreRefused};
ghost use Rattle.command_line.specs.Line.{IsLine};
ghost use Rattle.program_lines.specs.Files.{workers_for};
ghost use Rattle.program_lines.specs.declared.status.Status.TheVariants as statuses;
ghost use Rattle.bus_server.specs.Run.{IsRun, IsUntouched, IsReported, IsReportedLast, FaultsMatch, HostMatches, around};
ghost use Rattle.bus_server.specs.Journal.{IsJournaledRun, disks};
ghost use Rattle.bus_server.specs.Words.{EndsBy, EndsUnread};
ghost use Rattle.bus_host.specs.Host.{SameGiven};
ghost use Rattle.shared_door.specs.Shown.{shown_by};
ghost use Rattle.session_workers.specs.Jobs.{did_by};
ghost use Rattle.bus_server.specs.Serve.{around_door, IsServe};
ghost use Rattle.bus_server.specs.ServeJournal.{IsJournaledServe};
ghost use Rattle.drill_run.specs.Drill.{IsDrill};
ghost use Rattle.journal_check.specs.Check.{IsCheck, around_disk};
ghost use Rattle.router_history.specs.Visit.{IsVisit};

use crate::once::once;
use crate::serve::serve;
use bus_host::{Clocks, Host};
use command_line::{Command, WordsFault, read_command};
use drill_run::drill;
use journal_check::check;
use program_lines::{Status, fitting_workers};
use router_disk::{Failed, Sink, Source};
use std::alloc::Global;
use std::sync::Wait;
use std::thread::Threads;

/// Runs the program on its arguments. The first is its name. With `once` it serves one session over its input and output; after
/// `--now S`, S is every reading of the clock, in seconds. After `--journal FILE` the session goes on from the journal in the file, and each
/// change is appended to it before its reply is written. With `serve` it serves connections to a port, each as a session of its own, by
/// workers that each have a link and a clock of their own, with fewer workers if the process may not have as many open files (`files`)
/// as they need, and with a journal as for `once`. With `drill` it serves sessions over messages that it makes, and with `check` it reads a journal. Arguments are read first;
/// then memory is allocated, then the host gives links and a door, or a disk. A program that serves needs memory once more after it printed
/// its port, and at its end. Before the line of the status, `faults` gets why words are refused, or how many workers there are if they are
/// fewer.
pub fn run<Rt: Wait + Threads + Sync, S: Source, K: Sink, E: Sink, H: Host, C: Clocks>(
    rt: &Rt,
    alloc: Global,
    words: &[String],
    files: u64,
    input: &mut S,
    output: &mut K,
    faults: &mut E,
    host: &mut H,
    clock: &mut C,
) -> Status
    ensures run { (now : Option ℕ) → IsCommand (map string_bytes words.now) (commands.once None now) → IsRun H.Link.exchanges H.Link.faults now
        (around (S.gave input.old) (K.wrote output.old) (C.gave clock.old) (H.links_given host.old) (H.links_back host.old))
        (around (S.gave input.new) (K.wrote output.new) (C.gave clock.new) (H.links_given host.new) (H.links_back host.new)) result }
    ensures journaled { (journal : List ℕ) (now : Option ℕ) → IsCommand (map string_bytes words.now) (commands.once (Some journal) now)
        → IsJournaledRun H.Disk.calls H.Disk.faults H.Link.exchanges H.Link.faults (λ s. FaultsMatch s (S.faults input.old) (S.faults input.new) (K.faults output.old) (K.faults output.new)) journal now
        (disks (H.disks_given host.old) (H.disks_back host.old) (H.disk_faults host.old))
        (disks (H.disks_given host.new) (H.disks_back host.new) (H.disk_faults host.new))
        (around (S.gave input.old) (K.wrote output.old) (C.gave clock.old) (H.links_given host.old) (H.links_back host.old))
        (around (S.gave input.new) (K.wrote output.new) (C.gave clock.new) (H.links_given host.new) (H.links_back host.new)) result }
    ensures serve { (port workers : ℕ) (connections : Option ℕ) → IsCommand (map string_bytes words.now) (commands.serve None port workers connections)
        → (S.gave input.new ≡ S.gave input.old) × (C.gave clock.new ≡ C.gave clock.old) × IsServe (shown_by H.Door.faults H.Door.ahead H.Door.given H.Door.ended H.Door.gave H.Door.took_back H.Door.closed)
        (IsVisit H.Door.In.gave H.Door.Out.wrote H.Door.In.faults H.Door.Out.faults)
        (did_by H.Door.In.gave H.Door.Out.wrote C.Lent.gave H.Link.exchanges H.Link.faults) port (workers_for files workers) connections
        (around_door (K.wrote output.old) (H.doors_given host.old) (H.doors_back host.old) (H.links_given host.old) (H.links_back host.old)
        (C.clocks_given clock.old) (C.clocks_back clock.old) (H.door_faults host.old) (H.link_faults host.old))
        (around_door (K.wrote output.new) (H.doors_given host.new) (H.doors_back host.new) (H.links_given host.new) (H.links_back host.new)
        (C.clocks_given clock.new) (C.clocks_back clock.new) (H.door_faults host.new) (H.link_faults host.new)) result }
    ensures served { (journal : List ℕ) (port workers : ℕ) (connections : Option ℕ) → IsCommand (map string_bytes words.now) (commands.serve (Some journal) port workers connections)
        → (S.gave input.new ≡ S.gave input.old) × (C.gave clock.new ≡ C.gave clock.old) × IsJournaledServe H.Disk.calls H.Disk.faults (shown_by H.Door.faults H.Door.ahead H.Door.given H.Door.ended H.Door.gave H.Door.took_back H.Door.closed)
        (IsVisit H.Door.In.gave H.Door.Out.wrote H.Door.In.faults H.Door.Out.faults)
        (did_by H.Door.In.gave H.Door.Out.wrote C.Lent.gave H.Link.exchanges H.Link.faults) journal port (workers_for files workers) connections
        (disks (H.disks_given host.old) (H.disks_back host.old) (H.disk_faults host.old))
        (disks (H.disks_given host.new) (H.disks_back host.new) (H.disk_faults host.new))
        (around_door (K.wrote output.old) (H.doors_given host.old) (H.doors_back host.old) (H.links_given host.old) (H.links_back host.old)
        (C.clocks_given clock.old) (C.clocks_back clock.old) (H.door_faults host.old) (H.link_faults host.old))
        (around_door (K.wrote output.new) (H.doors_given host.new) (H.doors_back host.new) (H.links_given host.new) (H.links_back host.new)
        (C.clocks_given clock.new) (C.clocks_back clock.new) (H.door_faults host.new) (H.link_faults host.new)) result }
    ensures drill { (seed events : ℕ) → IsCommand (map string_bytes words.now) (commands.drill seed events) → IsUntouched
        (around (S.gave input.old) (K.wrote output.old) (C.gave clock.old) (H.links_given host.old) (H.links_back host.old))
        (around (S.gave input.new) (K.wrote output.new) (C.gave clock.new) (H.links_given host.new) (H.links_back host.new))
        × IsDrill seed events (K.wrote output.old) (K.wrote output.new) result × SameGiven C.clocks_given C.clocks_back clock.old clock.new }
    ensures check { (journal : List ℕ) → IsCommand (map string_bytes words.now) (commands.check journal) → IsUntouched
        (around (S.gave input.old) (K.wrote output.old) (C.gave clock.old) (H.links_given host.old) (H.links_back host.old))
        (around (S.gave input.new) (K.wrote output.new) (C.gave clock.new) (H.links_given host.new) (H.links_back host.new))
        × IsCheck H.Disk.calls H.Disk.faults journal
        (around_disk (K.wrote output.old) (H.disks_given host.old) (H.disks_back host.old) (H.disk_faults host.old))
        (around_disk (K.wrote output.new) (H.disks_given host.new) (H.disks_back host.new) (H.disk_faults host.new)) result
        × ((H.door_faults host.new ≡ H.door_faults host.old) × (H.link_faults host.new ≡ H.link_faults host.old))
        × SameGiven H.doors_given H.doors_back host.old host.new × SameGiven C.clocks_given C.clocks_back clock.old clock.new }
    ensures unread { ((c : CommandView) → ¬ IsCommand (map string_bytes words.now) c) → IsUntouched
        (around (S.gave input.old) (K.wrote output.old) (C.gave clock.old) (H.links_given host.old) (H.links_back host.old))
        (around (S.gave input.new) (K.wrote output.new) (C.gave clock.new) (H.links_given host.new) (H.links_back host.new))
        × EndsUnread (map string_bytes words.now) (K.wrote output.old) (K.wrote output.new) result
        × SameGiven C.clocks_given C.clocks_back clock.old clock.new }
    ensures usage { result ≡ statuses.Usage → AreRefused (map string_bytes words.now) }
    ensures line { (c : CommandView) → IsLine (map string_bytes words.now) c → result ≢ statuses.Usage }
    ensures last { IsReportedLast result (E.wrote faults.old) (E.wrote faults.new) (E.faults faults.old) (E.faults faults.new) }
    ensures reported { result ≢ statuses.Usage
        → ((journal : Option (List ℕ)) (port workers : ℕ) (connections : Option ℕ) → ¬ IsCommand (map string_bytes words.now) (commands.serve journal port workers connections))
        → IsReported result (E.wrote faults.old) (E.wrote faults.new) (E.faults faults.old) (E.faults faults.new) }
    ensures counts { ((journal : List ℕ) (now : Option ℕ) → ¬ IsCommand (map string_bytes words.now) (commands.once (Some journal) now))
        → FaultsMatch result (S.faults input.old) (S.faults input.new) (K.faults output.old) (K.faults output.new) }
    ensures disk { ((journal : List ℕ) → ¬ IsCommand (map string_bytes words.now) (commands.check journal))
        → ((journal : List ℕ) (now : Option ℕ) → ¬ IsCommand (map string_bytes words.now) (commands.once (Some journal) now))
        → ((journal : List ℕ) (port workers : ℕ) (connections : Option ℕ) → ¬ IsCommand (map string_bytes words.now) (commands.serve (Some journal) port workers connections))
        → (H.disk_faults host.new ≡ H.disk_faults host.old) × SameGiven H.disks_given H.disks_back host.old host.new }
    ensures host { ((journal : Option (List ℕ)) (port workers : ℕ) (connections : Option ℕ) → ¬ IsCommand (map string_bytes words.now) (commands.serve journal port workers connections))
        → ((journal : List ℕ) → ¬ IsCommand (map string_bytes words.now) (commands.check journal))
        → HostMatches H.door_faults H.link_faults result host.old host.new × SameGiven H.doors_given H.doors_back host.old host.new }
{
    match read_command(alloc, words) {
        Ok(command) => obey(
            rt, alloc, command, files, input, output, faults, host, clock,
        ),
        Err(fault) => explain(fault, output, faults),
    }
}

/// Carries out a command, and reports the status.
fn obey<Rt: Wait + Threads + Sync, S: Source, K: Sink, E: Sink, H: Host, C: Clocks>(
    rt: &Rt,
    alloc: Global,
    command: Command<'_>,
    files: u64,
    input: &mut S,
    output: &mut K,
    faults: &mut E,
    host: &mut H,
    clock: &mut C,
) -> Status
    requires workers { (journal : Option (List ℕ)) (port workers : ℕ) (connections : Option ℕ) → command_view command ≡ commands.serve journal port workers connections
        → (1 ≤ workers) × (workers ≤ 1024) }
    ensures run { (now : Option ℕ) → command_view command.entry ≡ commands.once None now → IsRun H.Link.exchanges H.Link.faults now
        (around (S.gave input.old) (K.wrote output.old) (C.gave clock.old) (H.links_given host.old) (H.links_back host.old))
        (around (S.gave input.new) (K.wrote output.new) (C.gave clock.new) (H.links_given host.new) (H.links_back host.new)) result }
    ensures journaled { (journal : List ℕ) (now : Option ℕ) → command_view command.entry ≡ commands.once (Some journal) now
        → IsJournaledRun H.Disk.calls H.Disk.faults H.Link.exchanges H.Link.faults (λ s. FaultsMatch s (S.faults input.old) (S.faults input.new) (K.faults output.old) (K.faults output.new)) journal now
        (disks (H.disks_given host.old) (H.disks_back host.old) (H.disk_faults host.old))
        (disks (H.disks_given host.new) (H.disks_back host.new) (H.disk_faults host.new))
        (around (S.gave input.old) (K.wrote output.old) (C.gave clock.old) (H.links_given host.old) (H.links_back host.old))
        (around (S.gave input.new) (K.wrote output.new) (C.gave clock.new) (H.links_given host.new) (H.links_back host.new)) result }
    ensures serve { (port workers : ℕ) (connections : Option ℕ) → command_view command.entry ≡ commands.serve None port workers connections
        → (S.gave input.new ≡ S.gave input.old) × (C.gave clock.new ≡ C.gave clock.old) × IsServe (shown_by H.Door.faults H.Door.ahead H.Door.given H.Door.ended H.Door.gave H.Door.took_back H.Door.closed)
        (IsVisit H.Door.In.gave H.Door.Out.wrote H.Door.In.faults H.Door.Out.faults)
        (did_by H.Door.In.gave H.Door.Out.wrote C.Lent.gave H.Link.exchanges H.Link.faults) port (workers_for files workers) connections
        (around_door (K.wrote output.old) (H.doors_given host.old) (H.doors_back host.old) (H.links_given host.old) (H.links_back host.old)
        (C.clocks_given clock.old) (C.clocks_back clock.old) (H.door_faults host.old) (H.link_faults host.old))
        (around_door (K.wrote output.new) (H.doors_given host.new) (H.doors_back host.new) (H.links_given host.new) (H.links_back host.new)
        (C.clocks_given clock.new) (C.clocks_back clock.new) (H.door_faults host.new) (H.link_faults host.new)) result }
    ensures served { (journal : List ℕ) (port workers : ℕ) (connections : Option ℕ) → command_view command.entry ≡ commands.serve (Some journal) port workers connections
        → (S.gave input.new ≡ S.gave input.old) × (C.gave clock.new ≡ C.gave clock.old) × IsJournaledServe H.Disk.calls H.Disk.faults (shown_by H.Door.faults H.Door.ahead H.Door.given H.Door.ended H.Door.gave H.Door.took_back H.Door.closed)
        (IsVisit H.Door.In.gave H.Door.Out.wrote H.Door.In.faults H.Door.Out.faults)
        (did_by H.Door.In.gave H.Door.Out.wrote C.Lent.gave H.Link.exchanges H.Link.faults) journal port (workers_for files workers) connections
        (disks (H.disks_given host.old) (H.disks_back host.old) (H.disk_faults host.old))
        (disks (H.disks_given host.new) (H.disks_back host.new) (H.disk_faults host.new))
        (around_door (K.wrote output.old) (H.doors_given host.old) (H.doors_back host.old) (H.links_given host.old) (H.links_back host.old)
        (C.clocks_given clock.old) (C.clocks_back clock.old) (H.door_faults host.old) (H.link_faults host.old))
        (around_door (K.wrote output.new) (H.doors_given host.new) (H.doors_back host.new) (H.links_given host.new) (H.links_back host.new)
        (C.clocks_given clock.new) (C.clocks_back clock.new) (H.door_faults host.new) (H.link_faults host.new)) result }
    ensures drill { (seed events : ℕ) → command_view command.entry ≡ commands.drill seed events → IsUntouched
        (around (S.gave input.old) (K.wrote output.old) (C.gave clock.old) (H.links_given host.old) (H.links_back host.old))
        (around (S.gave input.new) (K.wrote output.new) (C.gave clock.new) (H.links_given host.new) (H.links_back host.new))
        × IsDrill seed events (K.wrote output.old) (K.wrote output.new) result × SameGiven C.clocks_given C.clocks_back clock.old clock.new }
    ensures check { (journal : List ℕ) → command_view command.entry ≡ commands.check journal → IsUntouched
        (around (S.gave input.old) (K.wrote output.old) (C.gave clock.old) (H.links_given host.old) (H.links_back host.old))
        (around (S.gave input.new) (K.wrote output.new) (C.gave clock.new) (H.links_given host.new) (H.links_back host.new))
        × IsCheck H.Disk.calls H.Disk.faults journal
        (around_disk (K.wrote output.old) (H.disks_given host.old) (H.disks_back host.old) (H.disk_faults host.old))
        (around_disk (K.wrote output.new) (H.disks_given host.new) (H.disks_back host.new) (H.disk_faults host.new)) result
        × ((H.door_faults host.new ≡ H.door_faults host.old) × (H.link_faults host.new ≡ H.link_faults host.old))
        × SameGiven H.doors_given H.doors_back host.old host.new × SameGiven C.clocks_given C.clocks_back clock.old clock.new }
    ensures usage { result ≢ statuses.Usage }
    ensures last { IsReportedLast result (E.wrote faults.old) (E.wrote faults.new) (E.faults faults.old) (E.faults faults.new) }
    ensures reported { ((journal : Option (List ℕ)) (port workers : ℕ) (connections : Option ℕ) → command_view command.entry ≢ commands.serve journal port workers connections)
        → IsReported result (E.wrote faults.old) (E.wrote faults.new) (E.faults faults.old) (E.faults faults.new) }
    ensures counts { ((journal : List ℕ) (now : Option ℕ) → command_view command.entry ≢ commands.once (Some journal) now)
        → FaultsMatch result (S.faults input.old) (S.faults input.new) (K.faults output.old) (K.faults output.new) }
    ensures disk { ((journal : List ℕ) → command_view command.entry ≢ commands.check journal)
        → ((journal : List ℕ) (now : Option ℕ) → command_view command.entry ≢ commands.once (Some journal) now)
        → ((journal : List ℕ) (port workers : ℕ) (connections : Option ℕ) → command_view command.entry ≢ commands.serve (Some journal) port workers connections)
        → (H.disk_faults host.new ≡ H.disk_faults host.old) × SameGiven H.disks_given H.disks_back host.old host.new }
    ensures host { ((journal : Option (List ℕ)) (port workers : ℕ) (connections : Option ℕ) → command_view command.entry ≢ commands.serve journal port workers connections)
        → ((journal : List ℕ) → command_view command.entry ≢ commands.check journal)
        → HostMatches H.door_faults H.link_faults result host.old host.new × SameGiven H.doors_given H.doors_back host.old host.new }
{
    match command {
        Command::Once { journal, now } => {
            let status = once(rt, alloc, journal, now, input, output, host, clock);
            report(faults, status);
            status
        }
        Command::Serve {
            journal,
            port,
            workers,
            connections,
        } => {
            let fitting = fitting_workers(files, workers);
            announce(alloc, faults, files, workers, fitting);
            let status = serve(
                rt,
                alloc,
                journal,
                port,
                fitting,
                connections,
                output,
                host,
                clock,
            );
            report(faults, status);
            status
        }
        Command::Check { journal } => {
            let status = check(alloc, journal, output, host);
            report(faults, status);
            status
        }
        Command::Drill { seed, events } => {
            let status = drill(rt, alloc, seed, events, output);
            report(faults, status);
            status
        }
    }
}

/// Writes what words get that are not carried out, and reports the status.
fn explain<K: Sink, E: Sink>(fault: WordsFault, output: &mut K, faults: &mut E) -> Status
    ensures ends { EndsBy fault (K.wrote output.old) (K.wrote output.new) result }
    ensures last { IsReportedLast result (E.wrote faults.old) (E.wrote faults.new) (E.faults faults.old) (E.faults faults.new) }
    ensures reported { result ≢ statuses.Usage → IsReported result (E.wrote faults.old) (E.wrote faults.new) (E.faults faults.old) (E.faults faults.new) }
    ensures counts { (reads : ℕ) → FaultsMatch result reads reads (K.faults output.old) (K.faults output.new) }
{
    match fault {
        WordsFault::Help(text) => {
            let status = show(output, text.as_str());
            report(faults, status);
            status
        }
        WordsFault::Refused(text) => {
            say(faults, text.as_str());
            report(faults, Status::Usage);
            Status::Usage
        }
        WordsFault::NoMemory => {
            report(faults, Status::NoMemory);
            Status::NoMemory
        }
    }
}

/// Writes a text that was asked for.
fn show<K: Sink>(output: &mut K, text: &str) -> Status
    ensures shown { ((result ≡ statuses.Done) ⊎ (result ≡ statuses.WriteFault))
        × ((written : List ℕ) × (K.wrote output.new ≡ K.wrote output.old ++ written)) }
    ensures counts { (reads : ℕ) → FaultsMatch result reads reads (K.faults output.old) (K.faults output.new) }
{
    match output.write_all(text.as_bytes()) {
        Ok(()) => Status::Done,
        Err(Failed) => Status::WriteFault,
    }
}

/// Says so if there are fewer workers than asked for. If memory runs out, nothing is said.
fn announce<E: Sink>(alloc: Global, faults: &mut E, files: u64, workers: u16, fitting: u16)
    ensures { (why : List ℕ) × (E.wrote faults.new ≡ E.wrote faults.old ++ why) × (E.faults faults.old ≤ E.faults faults.new) }
{
    if fitting < workers {
        match format!(in alloc; "ebusd: {files} open files are allowed: {fitting} workers\n") {
            Ok(line) => say(faults, line.as_str()),
            Err(_refused) => (),
        }
    }
}

/// Writes a text. A failed write changes only the sink.
fn say<E: Sink>(faults: &mut E, text: &str)
    ensures { (why : List ℕ) × (E.wrote faults.new ≡ E.wrote faults.old ++ why) × (E.faults faults.old ≤ E.faults faults.new) }
{
    let _ = faults.write_all(text.as_bytes());
}

/// Writes the line of the status. A failed write changes only the sink.
fn report<E: Sink>(faults: &mut E, status: Status)
    ensures { IsReported status (E.wrote faults.old) (E.wrote faults.new) (E.faults faults.old) (E.faults faults.new) }
{
    let text = status.line();
    let _ = faults.write_all(text.as_slice());
}
