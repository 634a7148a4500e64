//! One session over the program's input and output.
ghost use Rattle.std.specs.Prelude.{◌≡◌, ◌≢◌, ◌∷◌, ℕ, List, [], All, Some, None, option_map};
ghost use Rattle.program_lines.specs.declared.status.Status.TheVariants as statuses;
ghost use Rattle.turn_book.specs.Rule.{turns_by};
ghost use Rattle.turn_book.specs.Passes.{view, IsFree};
ghost use Rattle.bus_host.specs.Host.{SameGiven};
ghost use Rattle.router_history.specs.History.{Turn};
ghost use Rattle.router_history.specs.Book.{recorded_in, turns_of};
ghost use Rattle.router_history.specs.Home.{IsSoundBook};
ghost use Rattle.router_history.specs.Acts.{world};
ghost use Rattle.router_sessions.specs.Desk.{turns_seen};
ghost use Rattle.bus_server.specs.Run.{IsRun, RunsBy, RunsOnce, FaultsMatch, HostMatches};
ghost use Rattle.bus_server.specs.Run.{around, status_of};
ghost use Rattle.bus_server.specs.Journal.{EndsJournaled, IsJournaledRun, disks, status_after};
ghost use Rattle.bus_server.specs.Seated.{IsOpener, LeavesHome, Sits};

use crate::journal::with_journal;
use bus_host::{Host, HostFault, NoDisk, NoGate};
use drill_run::{Moment, ONLY_CONNECTION, StillClock};
use json_text::NoMemory;
use program_lines::Status;
use router_disk::{Clock, Disk, Link, Sink, Source};
use router_history::Book;
use router_sessions::{SessionEnd, serve_session};
use std::alloc::Global;
use std::marker::Brand;
use std::sync::Wait;
use turn_book::{Hall, Pass};

/// What a session leaves. It is not `Drop`.
pub(crate) struct Ended<D> {
    /// The disk of the book's journal, if it has one.
    pub disk: Option<D>,
    pub status: Status,
}

/// One session over a book and a link of the host. With the path of a journal, the book is that of the journal, and its changes are appended there.
pub(crate) fn once<Rt: Wait, S: Source, K: Sink, H: Host, C: Clock>(
    rt: &Rt,
    alloc: Global,
    journal: Option<&str>,
    now: Option<u64>,
    input: &mut S,
    output: &mut K,
    host: &mut H,
    clock: &mut C,
) -> Status
    ensures run { option_map (λ s. s.now) journal.entry ≡ None → IsRun H.Link.exchanges H.Link.faults now
        (around (S.gave input.old) (K.wrote output.old) (C.gave clock.old) (H.links_given host.old) (H.links_back host.old))
        (around (S.gave input.new) (K.wrote output.new) (C.gave clock.new) (H.links_given host.new) (H.links_back host.new)) result }
    ensures journaled { (path : List ℕ) → option_map (λ s. s.now) journal.entry ≡ Some path
        → IsJournaledRun H.Disk.calls H.Disk.faults H.Link.exchanges H.Link.faults (λ s. FaultsMatch s (S.faults input.old) (S.faults input.new) (K.faults output.old) (K.faults output.new)) path now
        (disks (H.disks_given host.old) (H.disks_back host.old) (H.disk_faults host.old))
        (disks (H.disks_given host.new) (H.disks_back host.new) (H.disk_faults host.new))
        (around (S.gave input.old) (K.wrote output.old) (C.gave clock.old) (H.links_given host.old) (H.links_back host.old))
        (around (S.gave input.new) (K.wrote output.new) (C.gave clock.new) (H.links_given host.new) (H.links_back host.new)) result }
    ensures usage { result ≢ statuses.Usage }
    ensures counts { option_map (λ s. s.now) journal.entry ≡ None → FaultsMatch result (S.faults input.old) (S.faults input.new) (K.faults output.old) (K.faults output.new) }
    ensures host { HostMatches H.door_faults H.link_faults result host.old host.new }
    ensures doors { SameGiven H.doors_given H.doors_back host.old host.new }
    ensures disks { option_map (λ s. s.now) journal.entry ≡ None → (H.disk_faults host.new ≡ H.disk_faults host.old) × SameGiven H.disks_given H.disks_back host.old host.new }
{
    match journal {
        Some(path) => with_journal(rt, alloc, path, now, input, output, host, clock),
        None => in_memory(rt, alloc, now, input, output, host, clock),
    }
}

/// One session over a new book without a journal.
fn in_memory<Rt: Wait, S: Source, K: Sink, H: Host, C: Clock>(
    rt: &Rt,
    alloc: Global,
    now: Option<u64>,
    input: &mut S,
    output: &mut K,
    host: &mut H,
    clock: &mut C,
) -> Status
    ensures run { IsRun H.Link.exchanges H.Link.faults now
        (around (S.gave input.old) (K.wrote output.old) (C.gave clock.old) (H.links_given host.old) (H.links_back host.old))
        (around (S.gave input.new) (K.wrote output.new) (C.gave clock.new) (H.links_given host.new) (H.links_back host.new)) result }
    ensures counts { FaultsMatch result (S.faults input.old) (S.faults input.new) (K.faults output.old) (K.faults output.new) }
    ensures host { HostMatches H.door_faults H.link_faults result host.old host.new }
    ensures doors { SameGiven H.doors_given H.doors_back host.old host.new }
    ensures disks { (H.disk_faults host.new ≡ H.disk_faults host.old) × SameGiven H.disks_given H.disks_back host.old host.new }
{
    match Book::first(alloc) {
        Ok(book) => {
            let ended: Ended<NoDisk> = seated(rt, alloc, book, now, input, output, host, clock);
            let Ended {
                disk: _none,
                status,
            } = ended;
            status
        }
        Err(NoMemory) => Status::NoMemory,
    }
}

/// One session over the book, which has one turn, and a link of the host. The book's hall has one pass.
pub(crate) fn seated<Rt: Wait, D: Disk, S: Source, K: Sink, H: Host, C: Clock>(
    rt: &Rt,
    alloc: Global,
    book: Book<D>,
    now: Option<u64>,
    input: &mut S,
    output: &mut K,
    host: &mut H,
    clock: &mut C,
) -> Ended<D>
    requires book { IsSoundBook D.calls D.faults book }
    requires unmade { (n : ℕ) → turns_by (λ t. t.pass) n (recorded_in book.machine.history) ≡ [] }
    ensures sits { (start : Turn) → turns_of book.machine ≡ start ∷ []
        → Sits D.calls D.faults H.Link.exchanges H.Link.faults (λ s. FaultsMatch s (S.faults input.old) (S.faults input.new) (K.faults output.old) (K.faults output.new)) start now
        (around (S.gave input.old) (K.wrote output.old) (C.gave clock.old) (H.links_given host.old) (H.links_back host.old))
        (around (S.gave input.new) (K.wrote output.new) (C.gave clock.new) (H.links_given host.new) (H.links_back host.new)) result.disk result.status }
    ensures host { HostMatches H.door_faults H.link_faults result.status host.old host.new }
    ensures doors { SameGiven H.doors_given H.doors_back host.old host.new }
    ensures disks { (H.disk_faults host.new ≡ H.disk_faults host.old) × SameGiven H.disks_given H.disks_back host.old host.new }
{
    match Hall::make(alloc, book, 1) {
        Ok((hall, pass)) => linked(rt, alloc, hall, pass, now, input, output, host, clock),
        Err((_, book)) => Ended {
            disk: book.into_disk(),
            status: Status::NoMemory,
        },
    }
}

/// One session over the hall's book and a link of the host.
fn linked<Rt: Wait, D: Disk, S: Source, K: Sink, H: Host, C: Clock>(
    rt: &Rt,
    alloc: Global,
    hall: Hall<Book<D>>,
    pass: Pass<Book<D>>,
    now: Option<u64>,
    input: &mut S,
    output: &mut K,
    host: &mut H,
    clock: &mut C,
) -> Ended<D>
    requires here { pass.seat.table_id ≡ hall.table.shared.table_id }
    requires opener { IsOpener pass.seat }
    ensures sits { (start : Turn) → turns_seen pass.seat ≡ start ∷ []
        → Sits D.calls D.faults H.Link.exchanges H.Link.faults (λ s. FaultsMatch s (S.faults input.old) (S.faults input.new) (K.faults output.old) (K.faults output.new)) start now
        (around (S.gave input.old) (K.wrote output.old) (C.gave clock.old) (H.links_given host.old) (H.links_back host.old))
        (around (S.gave input.new) (K.wrote output.new) (C.gave clock.new) (H.links_given host.new) (H.links_back host.new)) result.disk result.status }
    ensures host { HostMatches H.door_faults H.link_faults result.status host.old host.new }
    ensures doors { SameGiven H.doors_given H.doors_back host.old host.new }
    ensures disks { (H.disk_faults host.new ≡ H.disk_faults host.old) × SameGiven H.disks_given H.disks_back host.old host.new }
{
    match host.link() {
        Ok(mut link) => {
            let ended = clocked(rt, alloc, hall, pass, now, input, output, &mut link, clock);
            host.back_link(link);
            ended
        }
        Err(HostFault::Failed) => Ended {
            disk: end_book(alloc, hall, pass),
            status: Status::DoorFault,
        },
        Err(HostFault::NoMemory) => Ended {
            disk: end_book(alloc, hall, pass),
            status: Status::NoMemory,
        },
    }
}

/// Ends the book of a hall with one pass, and returns the disk of its journal, if it has one.
pub(crate) fn end_book<D: Disk>(
    alloc: Global,
    hall: Hall<Book<D>>,
    pass: Pass<Book<D>>,
) -> Option<D>
    requires here { (pass.seat.table_id ≡ hall.table.shared.table_id) × IsFree pass.seat }
    requires alone { (view pass.seat).made ≡ 1 }
    ensures { (start : Turn) → IsOpener pass.seat → turns_seen pass.seat ≡ start ∷ [] → LeavesHome D.calls D.faults (start ∷ []) result }
{
    hall.close(pass, Vec::new(alloc)).into_disk()
}

/// One session over the hall's book and the link, by the clock, or with every reading the given moment.
fn clocked<Rt: Wait, D: Disk, S: Source, K: Sink, L: Link, C: Clock>(
    rt: &Rt,
    alloc: Global,
    hall: Hall<Book<D>>,
    pass: Pass<Book<D>>,
    now: Option<u64>,
    input: &mut S,
    output: &mut K,
    link: &mut L,
    clock: &mut C,
) -> Ended<D>
    requires here { pass.seat.table_id ≡ hall.table.shared.table_id }
    requires opener { IsOpener pass.seat }
    ensures runs { (start : Turn) → turns_seen pass.seat ≡ start ∷ [] → (turns : List Turn)
        × RunsBy start (EndsJournaled (λ s. FaultsMatch s (S.faults input.old) (S.faults input.new) (K.faults output.old) (K.faults output.new)) result.status) now
        (world (start ∷ []) (S.gave input.old) (K.wrote output.old) (C.gave clock.old) (L.exchanges link.old) (L.faults link.old))
        (world turns (S.gave input.new) (K.wrote output.new) (C.gave clock.new) (L.exchanges link.new) (L.faults link.new))
        × LeavesHome D.calls D.faults turns result.disk }
    ensures no_door_fault { result.status ≢ statuses.DoorFault }
{
    match now {
        Some(moment) => stand_still(rt, alloc, hall, pass, input, output, link, moment),
        None => over(rt, alloc, hall, pass, input, output, link, clock),
    }
}

/// One session with every reading the moment.
fn stand_still<Rt: Wait, D: Disk, S: Source, K: Sink, L: Link>(
    rt: &Rt,
    alloc: Global,
    hall: Hall<Book<D>>,
    pass: Pass<Book<D>>,
    input: &mut S,
    output: &mut K,
    link: &mut L,
    moment: u64,
) -> Ended<D>
    requires here { pass.seat.table_id ≡ hall.table.shared.table_id }
    requires opener { IsOpener pass.seat }
    ensures runs { (start : Turn) → turns_seen pass.seat ≡ start ∷ [] → (turns : List Turn) × (readings : List ℕ) × All (λ r. r ≡ moment) readings
        × RunsOnce start (EndsJournaled (λ s. FaultsMatch s (S.faults input.old) (S.faults input.new) (K.faults output.old) (K.faults output.new)) result.status)
        (world (start ∷ []) (S.gave input.old) (K.wrote output.old) [] (L.exchanges link.old) (L.faults link.old))
        (world turns (S.gave input.new) (K.wrote output.new) readings (L.exchanges link.new) (L.faults link.new))
        × LeavesHome D.calls D.faults turns result.disk }
    ensures no_door_fault { result.status ≢ statuses.DoorFault }
{
    still_by::<Brand, Rt, D, S, K, L>(rt, alloc, hall, pass, input, output, link, moment)
}

fn still_by<N: Moment + Send, Rt: Wait, D: Disk, S: Source, K: Sink, L: Link>(
    rt: &Rt,
    alloc: Global,
    hall: Hall<Book<D>>,
    pass: Pass<Book<D>>,
    input: &mut S,
    output: &mut K,
    link: &mut L,
    moment: u64,
) -> Ended<D>
    requires here { pass.seat.table_id ≡ hall.table.shared.table_id }
    requires opener { IsOpener pass.seat }
    requires moment { moment ≡ N.moment }
    ensures runs { (start : Turn) → turns_seen pass.seat ≡ start ∷ [] → (turns : List Turn) × (readings : List ℕ) × All (λ r. r ≡ N.moment) readings
        × RunsOnce start (EndsJournaled (λ s. FaultsMatch s (S.faults input.old) (S.faults input.new) (K.faults output.old) (K.faults output.new)) result.status)
        (world (start ∷ []) (S.gave input.old) (K.wrote output.old) [] (L.exchanges link.old) (L.faults link.old))
        (world turns (S.gave input.new) (K.wrote output.new) readings (L.exchanges link.new) (L.faults link.new))
        × LeavesHome D.calls D.faults turns result.disk }
    ensures no_door_fault { result.status ≢ statuses.DoorFault }
{
    let mut still: StillClock<N> = StillClock::new(moment);
    let ended = over(rt, alloc, hall, pass, input, output, link, &mut still);
    still.always();
    ended
}

/// One session over the hall's book, whose only pass this is.
fn over<Rt: Wait, D: Disk, S: Source, K: Sink, L: Link, C: Clock>(
    rt: &Rt,
    alloc: Global,
    hall: Hall<Book<D>>,
    mut pass: Pass<Book<D>>,
    input: &mut S,
    output: &mut K,
    link: &mut L,
    clock: &mut C,
) -> Ended<D>
    requires here { pass.seat.table_id ≡ hall.table.shared.table_id }
    requires opener { IsOpener pass.seat }
    ensures runs { (start : Turn) → turns_seen pass.seat ≡ start ∷ [] → (turns : List Turn)
        × RunsOnce start (EndsJournaled (λ s. FaultsMatch s (S.faults input.old) (S.faults input.new) (K.faults output.old) (K.faults output.new)) result.status)
        (world (start ∷ []) (S.gave input.old) (K.wrote output.old) (C.gave clock.old) (L.exchanges link.old) (L.faults link.old))
        (world turns (S.gave input.new) (K.wrote output.new) (C.gave clock.new) (L.exchanges link.new) (L.faults link.new))
        × LeavesHome D.calls D.faults turns result.disk }
    ensures no_door_fault { result.status ≢ statuses.DoorFault }
{
    let end = serve_session(
        rt,
        alloc,
        &hall,
        &mut pass,
        link,
        input,
        output,
        clock,
        ONLY_CONNECTION,
        &NoGate,
    );
    let book = hall.close(pass, Vec::new(alloc));
    let status = end_status(book.home.is_broken(), end);
    Ended {
        disk: book.into_disk(),
        status,
    }
}

/// The status of a session over a book that is broken, or is not.
fn end_status(broken: bool, end: SessionEnd) -> Status
    ensures { result ≡ status_after broken end }
{
    if broken {
        Status::DiskFault
    } else {
        session_status(end)
    }
}

/// The status of a session's end.
fn session_status(end: SessionEnd) -> Status
    ensures { result ≡ status_of end }
{
    match end {
        SessionEnd::Closed => Status::Done,
        SessionEnd::Cut => Status::Cut,
        SessionEnd::Refused => Status::Refused,
        SessionEnd::Long => Status::Long,
        SessionEnd::ReadFault => Status::ReadFault,
        SessionEnd::WriteFault => Status::WriteFault,
        SessionEnd::NoMemory => Status::NoMemory,
    }
}
