//! Sessions whose changes are appended to a journal.
ghost use Rattle.std.specs.Prelude.{◌≡◌, ◌≢◌, ◌<◌, ◌≤◌, [], IsSome, Some};
ghost use Rattle.router_disk.specs.Faults.{Rose};
ghost use Rattle.program_lines.specs.declared.status.Status.TheVariants as statuses;
ghost use Rattle.shared_door.specs.Shown.{shown_by};
ghost use Rattle.router_history.specs.Visit.{IsVisit};
ghost use Rattle.session_workers.specs.Jobs.{did_by};
ghost use Rattle.bus_host.specs.Host.{SameGiven};
ghost use Rattle.bus_server.specs.Run.{FaultsMatch, HostMatches, around};
ghost use Rattle.bus_server.specs.Journal.{HasJournal, IsJournaledRun, disks};
ghost use Rattle.bus_server.specs.Serve.{around_door};
ghost use Rattle.bus_server.specs.ServeJournal.{HasServing, IsJournaledServe};

use crate::once::{Ended, seated};
use crate::serve::serve_book;
use book_recovery::recover_book;
use bus_host::{Clocks, Host};
use journal_check::{fault_status, opening_status};
use program_lines::Status;
use router_disk::{Clock, Disk, Sink, Source};
use std::alloc::Global;
use std::sync::Wait;
use std::thread::Threads;

/// One session over the book of the journal in the file at `path`, which the host opens. The host takes the disk back.
pub(crate) fn with_journal<Rt: Wait, S: Source, K: Sink, H: Host, C: Clock>(
    rt: &Rt,
    alloc: Global,
    path: &str,
    now: Option<u64>,
    input: &mut S,
    output: &mut K,
    host: &mut H,
    clock: &mut C,
) -> Status
    ensures journaled { IsJournaledRun H.Disk.calls H.Disk.faults H.Link.exchanges H.Link.faults (λ s. FaultsMatch s (S.faults input.old) (S.faults input.new) (K.faults output.old) (K.faults output.new)) path.now now
        (disks (H.disks_given host.old) (H.disks_back host.old) (H.disk_faults host.old))
        (disks (H.disks_given host.new) (H.disks_back host.new) (H.disk_faults host.new))
        (around (S.gave input.old) (K.wrote output.old) (C.gave clock.old) (H.links_given host.old) (H.links_back host.old))
        (around (S.gave input.new) (K.wrote output.new) (C.gave clock.new) (H.links_given host.new) (H.links_back host.new)) result }
    ensures host { HostMatches H.door_faults H.link_faults result host.old host.new }
    ensures doors { SameGiven H.doors_given H.doors_back host.old host.new }
{
    match host.disk(path) {
        Ok(disk) => {
            let (disk, status) = on_disk(rt, alloc, disk, now, input, output, host, clock);
            host.back_disk(disk);
            status
        }
        Err(fault) => opening_status(fault),
    }
}

/// One session over the book of the journal on a disk that was just opened. Returns the disk.
fn on_disk<Rt: Wait, D: Disk, S: Source, K: Sink, H: Host, C: Clock>(
    rt: &Rt,
    alloc: Global,
    disk: D,
    now: Option<u64>,
    input: &mut S,
    output: &mut K,
    host: &mut H,
    clock: &mut C,
) -> (D, Status)
    requires just_opened { D.calls disk ≡ [] }
    ensures has { HasJournal D.calls D.faults H.Link.exchanges H.Link.faults (λ s. FaultsMatch s (S.faults input.old) (S.faults input.new) (K.faults output.old) (K.faults output.new)) now
        (around (S.gave input.old) (K.wrote output.old) (C.gave clock.old) (H.links_given host.old) (H.links_back host.old))
        (around (S.gave input.new) (K.wrote output.new) (C.gave clock.new) (H.links_given host.new) (H.links_back host.new)) result.1 disk result.0 }
    ensures host { HostMatches H.door_faults H.link_faults result.1 host.old host.new }
    ensures doors { SameGiven H.doors_given H.doors_back host.old host.new }
    ensures disks { (H.disk_faults host.new ≡ H.disk_faults host.old) × SameGiven H.disks_given H.disks_back host.old host.new }
{
    match recover_book(alloc, Some(disk)) {
        Ok(opened) => {
            let ended = seated(rt, alloc, opened.book(), now, input, output, host, clock);
            let Ended { disk, status } = ended;
            (disk_in(disk), status)
        }
        Err((fault, disk)) => (disk_in(disk), fault_status(fault)),
    }
}

/// Serves connections over the book of the journal in the file at `path`, which the host opens. The host takes the disk back.
pub(crate) fn serve_with_journal<Rt: Wait + Threads + Sync, K: Sink, H: Host, C: Clocks>(
    rt: &Rt,
    alloc: Global,
    path: &str,
    port: u16,
    workers: u16,
    connections: Option<u64>,
    output: &mut K,
    host: &mut H,
    clock: &mut C,
) -> Status
    requires workers { (0 < workers) × (workers ≤ 1024) }
    ensures journaled { IsJournaledServe H.Disk.calls H.Disk.faults (shown_by H.Door.faults H.Door.ahead H.Door.given H.Door.ended H.Door.gave H.Door.took_back H.Door.closed) (IsVisit H.Door.In.gave H.Door.Out.wrote H.Door.In.faults H.Door.Out.faults)
        (did_by H.Door.In.gave H.Door.Out.wrote C.Lent.gave H.Link.exchanges H.Link.faults) path.now port workers connections
        (disks (H.disks_given host.old) (H.disks_back host.old) (H.disk_faults host.old))
        (disks (H.disks_given host.new) (H.disks_back host.new) (H.disk_faults host.new))
        (around_door (K.wrote output.old) (H.doors_given host.old) (H.doors_back host.old) (H.links_given host.old) (H.links_back host.old)
        (C.clocks_given clock.old) (C.clocks_back clock.old) (H.door_faults host.old) (H.link_faults host.old))
        (around_door (K.wrote output.new) (H.doors_given host.new) (H.doors_back host.new) (H.links_given host.new) (H.links_back host.new)
        (C.clocks_given clock.new) (C.clocks_back clock.new) (H.door_faults host.new) (H.link_faults host.new)) result }
    ensures write_fault { result ≡ statuses.WriteFault → Rose (K.faults output.old) (K.faults output.new) }
    ensures output_faultless { result ≢ statuses.WriteFault → K.faults output.new ≡ K.faults output.old }
    ensures unread { C.gave clock.new ≡ C.gave clock.old }
{
    match host.disk(path) {
        Ok(disk) => {
            let (disk, status) = serve_on_disk(
                rt,
                alloc,
                disk,
                port,
                workers,
                connections,
                output,
                host,
                clock,
            );
            host.back_disk(disk);
            status
        }
        Err(fault) => opening_status(fault),
    }
}

/// Serves connections over the book of the journal on a disk that was just opened. Returns the disk.
fn serve_on_disk<Rt: Wait + Threads + Sync, J: Disk, K: Sink, H: Host, C: Clocks>(
    rt: &Rt,
    alloc: Global,
    disk: J,
    port: u16,
    workers: u16,
    connections: Option<u64>,
    output: &mut K,
    host: &mut H,
    clock: &mut C,
) -> (J, Status)
    requires workers { (0 < workers) × (workers ≤ 1024) }
    requires just_opened { J.calls disk ≡ [] }
    ensures has { HasServing J.calls J.faults (shown_by H.Door.faults H.Door.ahead H.Door.given H.Door.ended H.Door.gave H.Door.took_back H.Door.closed) (IsVisit H.Door.In.gave H.Door.Out.wrote H.Door.In.faults H.Door.Out.faults)
        (did_by H.Door.In.gave H.Door.Out.wrote C.Lent.gave H.Link.exchanges H.Link.faults) port workers connections
        (around_door (K.wrote output.old) (H.doors_given host.old) (H.doors_back host.old) (H.links_given host.old) (H.links_back host.old)
        (C.clocks_given clock.old) (C.clocks_back clock.old) (H.door_faults host.old) (H.link_faults host.old))
        (around_door (K.wrote output.new) (H.doors_given host.new) (H.doors_back host.new) (H.links_given host.new) (H.links_back host.new)
        (C.clocks_given clock.new) (C.clocks_back clock.new) (H.door_faults host.new) (H.link_faults host.new)) result.1 disk result.0 }
    ensures write_fault { result.1 ≡ statuses.WriteFault → Rose (K.faults output.old) (K.faults output.new) }
    ensures output_faultless { result.1 ≢ statuses.WriteFault → K.faults output.new ≡ K.faults output.old }
    ensures unread { C.gave clock.new ≡ C.gave clock.old }
    ensures disks { (H.disk_faults host.new ≡ H.disk_faults host.old) × SameGiven H.disks_given H.disks_back host.old host.new }
{
    match recover_book(alloc, Some(disk)) {
        Ok(opened) => {
            let ended = serve_book(
                rt,
                alloc,
                opened.book(),
                port,
                workers,
                connections,
                output,
                host,
                clock,
            );
            let Ended { disk, status } = ended;
            (disk_in(disk), status)
        }
        Err((fault, disk)) => (disk_in(disk), fault_status(fault)),
    }
}

/// The disk, which is there.
fn disk_in<D>(disk: Option<D>) -> D
    requires { IsSome disk }
    ensures { disk ≡ Some result }
{
    match disk {
        Some(disk) => disk,
        None => unreachable!(),
    }
}
