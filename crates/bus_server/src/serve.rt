//! The program while it serves connections to a port.
ghost use Rattle.std.specs.Prelude.{◌≡◌, ◌≢◌, ◌+◌, ◌<◌, ◌≤◌, ◌++◌, ◌⊎◌, ◌∷◌, [], ℕ, IfOk, List, None, Some, true, map, option_map, vec_len, vec_capacity};
ghost use Rattle.router_disk.specs.Faults.{Rose};
ghost use Rattle.bus_host.specs.Host.{SameFaults, SameGiven};
ghost use Rattle.program_lines.specs.declared.status.Status.TheVariants as statuses;
ghost use Rattle.program_lines.specs.Printed.{listening_text};
ghost use Rattle.shared_door.specs.Shown.{shown_by};
ghost use Rattle.session_workers.specs.Jobs.{did_by};
ghost use Rattle.bus_server.specs.Serve.{around_door, links_of, clocks_of, EndsServing, IsOpened, IsServe, IsServeOn};
ghost use Rattle.bus_server.specs.Journal.{disks};
ghost use Rattle.bus_server.specs.Seated.{IsOpener, LeavesHome};
ghost use Rattle.bus_server.specs.ServeJournal.{IsJournaledServe};
ghost use Rattle.turn_book.specs.Rule.{turns_by};
ghost use Rattle.router_history.specs.History.{Turn};
ghost use Rattle.router_history.specs.Home.{IsSoundBook};
ghost use Rattle.bus_server.specs.Opened.{status_of_host, CountsHost, IsUnopened, Announces, ServesBy, IsUnservedBy};
ghost use Rattle.router_history.specs.Book.{recorded_in, turns_of};
ghost use Rattle.router_sessions.specs.Desk.{turns_seen};
ghost use Rattle.router_history.specs.Visit.{IsVisit};

use crate::journal::serve_with_journal;
use crate::once::{Ended, end_book};
use bus_host::{Clocks, Door, Host, HostFault, NoDisk, NoGate};
use json_text::{Bytes, NoMemory};
use program_lines::{Status, listening_line};
use router_core::Tables;
use router_disk::{Clock, Disk, Failed, Link, Sink, Source};
use router_history::Book;
use session_workers::{DoorEnd, Serving, serve_door};
use std::alloc::Global;
use std::sync::Wait;
use std::thread::Threads;
use tables_summary::sum_up;
use turn_book::{Hall, Pass};

/// A door, its links and their clocks once no worker is left, the disk of the book's journal, if it has one, and the status of the program.
struct Left<J, D, L, C> {
    door: D,
    owns: Vec<(L, C)>,
    disk: Option<J>,
    status: Status,
}

/// Serves connections to the port with so many workers, each with a link of the host and a clock that is lent, until the host's door gives
/// no more or gave `connections`, or the book is broken. With the path of a journal, the book is that of the journal, and its changes are
/// appended there. Memory for the tables and the first line is allocated first; then the host gives the links, and the door. Memory for the workers
/// is allocated after the first line is written, and for the summary at the end.
pub(crate) fn serve<Rt: Wait + Threads + Sync, K: Sink, H: Host, C: Clocks>(
    rt: &Rt,
    alloc: Global,
    journal: Option<&str>,
    port: u16,
    workers: u16,
    connections: Option<u64>,
    output: &mut K,
    host: &mut H,
    clock: &mut C,
) -> Status
    requires workers { (0 < workers) × (workers ≤ 1024) }
    ensures serve { option_map (λ s. s.now) journal.entry ≡ None → IsServe (shown_by H.Door.faults H.Door.ahead H.Door.given H.Door.ended H.Door.gave H.Door.took_back H.Door.closed) (IsVisit H.Door.In.gave H.Door.Out.wrote H.Door.In.faults H.Door.Out.faults)
        (did_by H.Door.In.gave H.Door.Out.wrote C.Lent.gave H.Link.exchanges H.Link.faults) port workers connections
        (around_door (K.wrote output.old) (H.doors_given host.old) (H.doors_back host.old) (H.links_given host.old) (H.links_back host.old)
        (C.clocks_given clock.old) (C.clocks_back clock.old) (H.door_faults host.old) (H.link_faults host.old))
        (around_door (K.wrote output.new) (H.doors_given host.new) (H.doors_back host.new) (H.links_given host.new) (H.links_back host.new)
        (C.clocks_given clock.new) (C.clocks_back clock.new) (H.door_faults host.new) (H.link_faults host.new)) result }
    ensures journaled { (path : List ℕ) → option_map (λ s. s.now) journal.entry ≡ Some path → IsJournaledServe H.Disk.calls H.Disk.faults (shown_by H.Door.faults H.Door.ahead H.Door.given H.Door.ended H.Door.gave H.Door.took_back H.Door.closed) (IsVisit H.Door.In.gave H.Door.Out.wrote H.Door.In.faults H.Door.Out.faults)
        (did_by H.Door.In.gave H.Door.Out.wrote C.Lent.gave H.Link.exchanges H.Link.faults) path port workers connections
        (disks (H.disks_given host.old) (H.disks_back host.old) (H.disk_faults host.old))
        (disks (H.disks_given host.new) (H.disks_back host.new) (H.disk_faults host.new))
        (around_door (K.wrote output.old) (H.doors_given host.old) (H.doors_back host.old) (H.links_given host.old) (H.links_back host.old)
        (C.clocks_given clock.old) (C.clocks_back clock.old) (H.door_faults host.old) (H.link_faults host.old))
        (around_door (K.wrote output.new) (H.doors_given host.new) (H.doors_back host.new) (H.links_given host.new) (H.links_back host.new)
        (C.clocks_given clock.new) (C.clocks_back clock.new) (H.door_faults host.new) (H.link_faults host.new)) result }
    ensures usage { (result ≢ statuses.Usage) × (result ≢ statuses.ReadFault) }
    ensures write_fault { result ≡ statuses.WriteFault → Rose (K.faults output.old) (K.faults output.new) }
    ensures output_faultless { result ≢ statuses.WriteFault → K.faults output.new ≡ K.faults output.old }
    ensures unread { C.gave clock.new ≡ C.gave clock.old }
    ensures disks { option_map (λ s. s.now) journal.entry ≡ None → (H.disk_faults host.new ≡ H.disk_faults host.old) × SameGiven H.disks_given H.disks_back host.old host.new }
{
    match journal {
        Some(path) => serve_with_journal(
            rt,
            alloc,
            path,
            port,
            workers,
            connections,
            output,
            host,
            clock,
        ),
        None => serve_in_memory(rt, alloc, port, workers, connections, output, host, clock),
    }
}

/// Serves connections over a new book without a journal.
fn serve_in_memory<Rt: Wait + Threads + Sync, K: Sink, H: Host, C: Clocks>(
    rt: &Rt,
    alloc: Global,
    port: u16,
    workers: u16,
    connections: Option<u64>,
    output: &mut K,
    host: &mut H,
    clock: &mut C,
) -> Status
    requires workers { (0 < workers) × (workers ≤ 1024) }
    ensures serve { IsServe (shown_by H.Door.faults H.Door.ahead H.Door.given H.Door.ended H.Door.gave H.Door.took_back H.Door.closed) (IsVisit H.Door.In.gave H.Door.Out.wrote H.Door.In.faults H.Door.Out.faults)
        (did_by H.Door.In.gave H.Door.Out.wrote C.Lent.gave H.Link.exchanges H.Link.faults) port workers connections
        (around_door (K.wrote output.old) (H.doors_given host.old) (H.doors_back host.old) (H.links_given host.old) (H.links_back host.old)
        (C.clocks_given clock.old) (C.clocks_back clock.old) (H.door_faults host.old) (H.link_faults host.old))
        (around_door (K.wrote output.new) (H.doors_given host.new) (H.doors_back host.new) (H.links_given host.new) (H.links_back host.new)
        (C.clocks_given clock.new) (C.clocks_back clock.new) (H.door_faults host.new) (H.link_faults host.new)) result }
    ensures write_fault { result ≡ statuses.WriteFault → Rose (K.faults output.old) (K.faults output.new) }
    ensures output_faultless { result ≢ statuses.WriteFault → K.faults output.new ≡ K.faults output.old }
    ensures unread { C.gave clock.new ≡ C.gave clock.old }
    ensures disk { (H.disk_faults host.new ≡ H.disk_faults host.old) × SameGiven H.disks_given H.disks_back host.old host.new }
{
    match Book::first(alloc) {
        Ok(book) => {
            let ended: Ended<NoDisk> = serve_book(
                rt,
                alloc,
                book,
                port,
                workers,
                connections,
                output,
                host,
                clock,
            );
            let Ended {
                disk: _none,
                status,
            } = ended;
            status
        }
        Err(NoMemory) => Status::NoMemory,
    }
}

/// Serves connections over the book, which has one turn.
pub(crate) fn serve_book<Rt: Wait + Threads + Sync, J: Disk, K: Sink, H: Host, C: Clocks>(
    rt: &Rt,
    alloc: Global,
    book: Book<J>,
    port: u16,
    workers: u16,
    connections: Option<u64>,
    output: &mut K,
    host: &mut H,
    clock: &mut C,
) -> Ended<J>
    requires workers { (0 < workers) × (workers ≤ 1024) }
    requires book { IsSoundBook J.calls J.faults book }
    requires unmade { (n : ℕ) → turns_by (λ t. t.pass) n (recorded_in book.machine.history) ≡ [] }
    ensures serve { (start : Turn) → turns_of book.machine ≡ start ∷ [] → IsServeOn (shown_by H.Door.faults H.Door.ahead H.Door.given H.Door.ended H.Door.gave H.Door.took_back H.Door.closed) (IsVisit H.Door.In.gave H.Door.Out.wrote H.Door.In.faults H.Door.Out.faults)
        (did_by H.Door.In.gave H.Door.Out.wrote C.Lent.gave H.Link.exchanges H.Link.faults) start (λ turns. LeavesHome J.calls J.faults turns result.disk) port workers connections
        (around_door (K.wrote output.old) (H.doors_given host.old) (H.doors_back host.old) (H.links_given host.old) (H.links_back host.old)
        (C.clocks_given clock.old) (C.clocks_back clock.old) (H.door_faults host.old) (H.link_faults host.old))
        (around_door (K.wrote output.new) (H.doors_given host.new) (H.doors_back host.new) (H.links_given host.new) (H.links_back host.new)
        (C.clocks_given clock.new) (C.clocks_back clock.new) (H.door_faults host.new) (H.link_faults host.new)) result.status }
    ensures write_fault { result.status ≡ statuses.WriteFault → Rose (K.faults output.old) (K.faults output.new) }
    ensures output_faultless { result.status ≢ statuses.WriteFault → K.faults output.new ≡ K.faults output.old }
    ensures unread { C.gave clock.new ≡ C.gave clock.old }
    ensures disk { (H.disk_faults host.new ≡ H.disk_faults host.old) × SameGiven H.disks_given H.disks_back host.old host.new }
{
    let count = usize::from(workers);
    let mut owns = Vec::new(alloc);
    if owns.try_reserve(count).is_err() {
        owns.destroy_empty();
        return Ended {
            disk: book.into_disk(),
            status: Status::NoMemory,
        };
    }
    match Hall::make(alloc, book, u32::from(workers) + 2) {
        Ok((hall, pass)) => match listening_line(alloc, port) {
            Ok(listening) => match take_owns(host, clock, &mut owns, count) {
                Ok(()) => at_port(
                    rt,
                    alloc,
                    hall,
                    pass,
                    owns,
                    &listening,
                    port,
                    connections,
                    output,
                    host,
                    clock,
                ),
                Err(fault) => {
                    give_owns(host, clock, owns);
                    Ended {
                        disk: end_book(alloc, hall, pass),
                        status: host_status(fault),
                    }
                }
            },
            Err(_) => {
                owns.destroy_empty();
                Ended {
                    disk: end_book(alloc, hall, pass),
                    status: Status::NoMemory,
                }
            }
        },
        Err((_, book)) => {
            owns.destroy_empty();
            Ended {
                disk: book.into_disk(),
                status: Status::NoMemory,
            }
        }
    }
}

/// Takes so many links of the host, each with a clock. After an error there are fewer.
fn take_owns<H: Host, C: Clocks>(
    host: &mut H,
    clock: &mut C,
    owns: &mut Vec<(H::Link, C::Lent)>,
    count: usize,
) -> Result<(), HostFault>
    requires room { (owns.old.items ≡ []) × (count ≤ vec_capacity owns.old) }
    ensures given { H.links_given host.new ≡ H.links_given host.old ++ links_of owns.new.items }
    ensures back { H.links_back host.new ≡ H.links_back host.old }
    ensures clocks { C.clocks_given clock.new ≡ C.clocks_given clock.old ++ clocks_of owns.new.items }
    ensures clocks_back { C.clocks_back clock.new ≡ C.clocks_back clock.old }
    ensures unread { C.gave clock.new ≡ C.gave clock.old }
    ensures few { vec_len owns.new ≤ count }
    ensures all { IfOk result (λ _. vec_len owns.new ≡ count) }
    ensures doors { SameGiven H.doors_given H.doors_back host.old host.new }
    ensures disks { SameGiven H.disks_given H.disks_back host.old host.new }
    ensures counts { CountsHost result (H.link_faults host.old) (H.link_faults host.new) }
    ensures same { (H.door_faults host.new ≡ H.door_faults host.old) × (H.disk_faults host.new ≡ H.disk_faults host.old) }
{
    while owns.len() < count {
        match host.link() {
            Ok(link) => owns.push_reserved((link, clock.lend())),
            Err(fault) => return Err(fault),
        }
    }
    Ok(())
}

/// Gives the links and their clocks back, in their order.
fn give_owns<H: Host, C: Clocks>(host: &mut H, clock: &mut C, owns: Vec<(H::Link, C::Lent)>)
    ensures back { H.links_back host.new ≡ H.links_back host.old ++ links_of owns.items }
    ensures given { H.links_given host.new ≡ H.links_given host.old }
    ensures clocks_back { C.clocks_back clock.new ≡ C.clocks_back clock.old ++ clocks_of owns.items }
    ensures clocks { C.clocks_given clock.new ≡ C.clocks_given clock.old }
    ensures unread { C.gave clock.new ≡ C.gave clock.old }
    ensures doors { SameGiven H.doors_given H.doors_back host.old host.new }
    ensures disks { SameGiven H.disks_given H.disks_back host.old host.new }
    ensures faults { SameFaults H.disk_faults H.door_faults H.link_faults host.old host.new }
{
    let mut owns = owns;
    while !owns.is_empty() {
        let (link, lent) = owns.remove(0);
        host.back_link(link);
        clock.back(lent);
    }
    owns.destroy_empty();
}

/// The status of a host that gave no link or no door.
fn host_status(fault: HostFault) -> Status
    ensures { result ≡ status_of_host fault }
{
    match fault {
        HostFault::Failed => Status::DoorFault,
        HostFault::NoMemory => Status::NoMemory,
    }
}

/// Serves a door of the host at the port. Door and links then go back to the host, and the clocks to the one that lent them.
fn at_port<Rt: Wait + Threads + Sync, J: Disk, K: Sink, H: Host, C: Clocks>(
    rt: &Rt,
    alloc: Global,
    hall: Hall<Book<J>>,
    pass: Pass<Book<J>>,
    owns: Vec<(H::Link, C::Lent)>,
    listening: &Bytes,
    port: u16,
    connections: Option<u64>,
    output: &mut K,
    host: &mut H,
    clock: &mut C,
) -> Ended<J>
    requires here { pass.seat.table_id ≡ hall.table.shared.table_id }
    requires opener { IsOpener pass.seat }
    requires seats { vec_len owns + 2 ≤ hall.seats }
    requires owns { (0 < vec_len owns) × (vec_len owns ≤ 1024) }
    requires listening { listening.now ≡ listening_text port }
    ensures served { (start : Turn) → turns_seen pass.seat ≡ start ∷ [] → ServesBy (shown_by H.Door.faults H.Door.ahead H.Door.given H.Door.ended H.Door.gave H.Door.took_back H.Door.closed) (IsVisit H.Door.In.gave H.Door.Out.wrote H.Door.In.faults H.Door.Out.faults)
        (did_by H.Door.In.gave H.Door.Out.wrote C.Lent.gave H.Link.exchanges H.Link.faults) start (λ turns. LeavesHome J.calls J.faults turns result.disk) port connections owns.items
        (around_door (K.wrote output.old) (H.doors_given host.old) (H.doors_back host.old) (H.links_given host.old) (H.links_back host.old)
        (C.clocks_given clock.old) (C.clocks_back clock.old) (H.door_faults host.old) (H.link_faults host.old))
        (around_door (K.wrote output.new) (H.doors_given host.new) (H.doors_back host.new) (H.links_given host.new) (H.links_back host.new)
        (C.clocks_given clock.new) (C.clocks_back clock.new) (H.door_faults host.new) (H.link_faults host.new)) result.status
        ⊎ (IsUnservedBy port owns.items
        (around_door (K.wrote output.old) (H.doors_given host.old) (H.doors_back host.old) (H.links_given host.old) (H.links_back host.old)
        (C.clocks_given clock.old) (C.clocks_back clock.old) (H.door_faults host.old) (H.link_faults host.old))
        (around_door (K.wrote output.new) (H.doors_given host.new) (H.doors_back host.new) (H.links_given host.new) (H.links_back host.new)
        (C.clocks_given clock.new) (C.clocks_back clock.new) (H.door_faults host.new) (H.link_faults host.new)) result.status × LeavesHome J.calls J.faults (start ∷ []) result.disk) }
    ensures write_fault { result.status ≡ statuses.WriteFault → Rose (K.faults output.old) (K.faults output.new) }
    ensures output_faultless { result.status ≢ statuses.WriteFault → K.faults output.new ≡ K.faults output.old }
    ensures unread { C.gave clock.new ≡ C.gave clock.old }
    ensures disk { (H.disk_faults host.new ≡ H.disk_faults host.old) × SameGiven H.disks_given H.disks_back host.old host.new }
{
    match host.door(port) {
        Ok(door) => {
            let left = announce(
                rt,
                alloc,
                hall,
                pass,
                owns,
                door,
                listening,
                port,
                connections,
                output,
            );
            let Left {
                door,
                owns,
                disk,
                status,
            } = left;
            host.back_door(door);
            give_owns(host, clock, owns);
            Ended { disk, status }
        }
        Err(fault) => {
            give_owns(host, clock, owns);
            Ended {
                disk: end_book(alloc, hall, pass),
                status: host_status(fault),
            }
        }
    }
}

/// Prints the port, and serves the door. If the port cannot be printed, nothing is served.
fn announce<Rt: Wait + Threads + Sync, J: Disk, K: Sink, D: Door, L: Link, C: Clock>(
    rt: &Rt,
    alloc: Global,
    hall: Hall<Book<J>>,
    pass: Pass<Book<J>>,
    owns: Vec<(L, C)>,
    door: D,
    listening: &Bytes,
    port: u16,
    connections: Option<u64>,
    output: &mut K,
) -> Left<J, D, L, C>
    requires here { pass.seat.table_id ≡ hall.table.shared.table_id }
    requires opener { IsOpener pass.seat }
    requires seats { vec_len owns + 2 ≤ hall.seats }
    requires owns { (0 < vec_len owns) × (vec_len owns ≤ 1024) }
    requires listening { listening.now ≡ listening_text port }
    ensures announced { (start : Turn) → turns_seen pass.seat ≡ start ∷ [] → Announces (shown_by D.faults D.ahead D.given D.ended D.gave D.took_back D.closed) (IsVisit ⟦<D::In as Source>⟧.gave ⟦<D::Out as Sink>⟧.wrote ⟦<D::In as Source>⟧.faults ⟦<D::Out as Sink>⟧.faults)
        (did_by ⟦<D::In as Source>⟧.gave ⟦<D::Out as Sink>⟧.wrote C.gave L.exchanges L.faults) start (λ turns. LeavesHome J.calls J.faults turns result.disk) port connections
        (record { door = door; owns = owns.items; written = K.wrote output.old }) (record { door = result.door; owns = result.owns.items; written = K.wrote output.new }) result.status }
    ensures write_fault { result.status ≡ statuses.WriteFault → Rose (K.faults output.old) (K.faults output.new) }
    ensures output_faultless { result.status ≢ statuses.WriteFault → K.faults output.new ≡ K.faults output.old }
{
    match output.write_all(listening.as_slice()) {
        Ok(()) => open(rt, alloc, hall, pass, owns, door, connections, output),
        Err(Failed) => Left {
            door,
            owns,
            disk: end_book(alloc, hall, pass),
            status: Status::WriteFault,
        },
    }
}

/// Serves the door, and sums up.
fn open<Rt: Wait + Threads + Sync, J: Disk, K: Sink, D: Door, L: Link, C: Clock>(
    rt: &Rt,
    alloc: Global,
    hall: Hall<Book<J>>,
    mut pass: Pass<Book<J>>,
    owns: Vec<(L, C)>,
    door: D,
    connections: Option<u64>,
    output: &mut K,
) -> Left<J, D, L, C>
    requires here { pass.seat.table_id ≡ hall.table.shared.table_id }
    requires opener { IsOpener pass.seat }
    requires seats { vec_len owns + 2 ≤ hall.seats }
    requires owns { (0 < vec_len owns) × (vec_len owns ≤ 1024) }
    ensures opened { (start : Turn) → turns_seen pass.seat ≡ start ∷ [] → ((vec_len result.owns ≡ vec_len owns) × IsOpened (shown_by D.faults D.ahead D.given D.ended D.gave D.took_back D.closed) (IsVisit ⟦<D::In as Source>⟧.gave ⟦<D::Out as Sink>⟧.wrote ⟦<D::In as Source>⟧.faults ⟦<D::Out as Sink>⟧.faults)
        (did_by ⟦<D::In as Source>⟧.gave ⟦<D::Out as Sink>⟧.wrote C.gave L.exchanges L.faults) start (λ turns. LeavesHome J.calls J.faults turns result.disk) connections
        (record { door = door; owns = owns.items; written = K.wrote output.old }) (record { door = result.door; owns = result.owns.items; written = K.wrote output.new }) result.status)
        ⊎ (IsUnopened (record { door = door; owns = owns.items; written = K.wrote output.old }) (record { door = result.door; owns = result.owns.items; written = K.wrote output.new }) result.status
        × LeavesHome J.calls J.faults (start ∷ []) result.disk) }
    ensures write_fault { result.status ≡ statuses.WriteFault → Rose (K.faults output.old) (K.faults output.new) }
    ensures output_faultless { result.status ≢ statuses.WriteFault → K.faults output.new ≡ K.faults output.old }
{
    let serving = serve_door(
        rt,
        alloc,
        &hall,
        &mut pass,
        owns,
        door,
        connections,
        &NoGate,
    );
    let Serving {
        door,
        owns,
        passes,
        end,
    } = serving;
    let book = hall.close(pass, passes);
    let status = end_status(alloc, book.home.is_broken(), end, book.tables(), output);
    Left {
        door,
        owns,
        disk: book.into_disk(),
        status,
    }
}

/// The status of a door that is served no longer. If it gave all that it should, and the book is not broken, the summary is printed.
fn end_status<K: Sink>(
    alloc: Global,
    broken: bool,
    end: DoorEnd,
    tables: &Tables,
    output: &mut K,
) -> Status
    requires stopped { end ≡ DoorEnd.Stopped → broken ≡ true }
    ensures ends { end ≢ DoorEnd.NoMemory → EndsServing broken end tables.now (K.wrote output.old) (K.wrote output.new) result }
    ensures no_memory { end ≡ DoorEnd.NoMemory → (result ≡ statuses.NoMemory) × (K.wrote output.new ≡ K.wrote output.old) }
    ensures write_fault { result ≡ statuses.WriteFault → Rose (K.faults output.old) (K.faults output.new) }
    ensures output_faultless { result ≢ statuses.WriteFault → K.faults output.new ≡ K.faults output.old }
{
    match end {
        DoorEnd::Done => {
            if broken {
                Status::DiskFault
            } else {
                sum_up(alloc, tables, output)
            }
        }
        DoorEnd::DoorFault => {
            if broken {
                Status::DiskFault
            } else {
                Status::DoorFault
            }
        }
        DoorEnd::Stopped => Status::DiskFault,
        DoorEnd::NoMemory => Status::NoMemory,
    }
}
