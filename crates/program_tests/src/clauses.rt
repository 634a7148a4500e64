//! What follows from the clauses of `run` alone.
ghost use Rattle.std.specs.Prelude.{◌≡◌, ◌⊎◌, ℕ, All, Option, Some, None, [], map, string_bytes};
ghost use Rattle.std.specs.List.{concat};
ghost use Rattle.command_line.specs.Command.{IsCommand};
ghost use Rattle.command_line.specs.Command as commands;
ghost use Rattle.program_lines.specs.declared.status.Status.TheVariants as statuses;
ghost use Rattle.program_tests.specs.Printed.{PrintsZeros};

use crate::runs::{ANY_FILES, words};
use bus_host::{Clocks, Host, MemClocks, MemDoor, MemHost};
use bus_server::run;
use command_line::{Command, read_command};
use program_lines::Status;
use router_disk::{LinkFault, MemLink, MemSink, MemSource, Sink, Source};
use std::alloc::Global;
use std::collections::LinkedList;
use std::process::Abort;
use std::sync::Wait;
use std::thread::Threads;
use test_exchanges::NOW;

/// Runs `once` without a journal. If its reads gave no byte, it wrote nothing, and ended as done, out of memory, or by a fault of its input or its host.
fn once_of_nothing<R: Wait + Threads + Sync, S: Source, K: Sink, E: Sink, H: Host, C: Clocks>(
    rt: &R,
    alloc: Global,
    words: &[String],
    input: &mut S,
    output: &mut K,
    faults: &mut E,
    host: &mut H,
    clock: &mut C,
) -> Status
    requires once { (now : Option ℕ) × IsCommand (map string_bytes words.now) (commands.once None now) }
    ensures silent { concat (S.gave input.new) ≡ concat (S.gave input.old) → K.wrote output.new ≡ K.wrote output.old }
    ensures ends { concat (S.gave input.new) ≡ concat (S.gave input.old)
        → (result ≡ statuses.Done) ⊎ ((result ≡ statuses.NoMemory) ⊎ ((result ≡ statuses.ReadFault) ⊎ (result ≡ statuses.DoorFault))) }
{
    run(
        rt, alloc, words, ANY_FILES, input, output, faults, host, clock,
    )
}

/// Runs `serve` without a journal. If the doors of the host have no connection to come, and it ends as done, it printed its port, and then a summary of
/// zeros.
fn serve_to_the_end<R: Wait + Threads + Sync, S: Source, K: Sink, E: Sink, H: Host, C: Clocks>(
    rt: &R,
    alloc: Global,
    words: &[String],
    port: u16,
    workers: u16,
    connections: Option<u64>,
    input: &mut S,
    output: &mut K,
    faults: &mut E,
    host: &mut H,
    clock: &mut C,
) -> Status
    requires serve { IsCommand (map string_bytes words.now) (commands.serve None port workers connections) }
    ensures unread { (S.gave input.new ≡ S.gave input.old) × (C.gave clock.new ≡ C.gave clock.old) }
    ensures printed { All (λ d. H.Door.ahead d.1 ≡ Some []) (H.doors_given host.new) → result ≡ statuses.Done
        → PrintsZeros port (K.wrote output.old) (K.wrote output.new) }
{
    run(
        rt, alloc, words, ANY_FILES, input, output, faults, host, clock,
    )
}

/// Runs the command of these words, by the two calls above.
fn done<R: Wait + Threads + Sync, H: Host>(
    rt: &R,
    alloc: Global,
    words: &[String],
    output: &mut MemSink,
    host: &mut H,
) -> Option<Status> {
    let mut input = MemSource::new(Vec::new(alloc));
    let mut faults = MemSink::new(alloc);
    let mut clock = MemClocks::new(alloc, NOW, LinkedList::new(alloc));
    match read_command(alloc, words) {
        Ok(
            Command::Once {
                journal: None,
                now: _,
            },
        ) => Some(once_of_nothing(
            rt,
            alloc,
            words,
            &mut input,
            output,
            &mut faults,
            host,
            &mut clock,
        )),
        Ok(
            Command::Serve {
                journal: None,
                port,
                workers,
                connections,
            },
        ) => Some(serve_to_the_end(
            rt,
            alloc,
            words,
            port,
            workers,
            connections,
            &mut input,
            output,
            &mut faults,
            host,
            &mut clock,
        )),
        Ok(
            Command::Once {
                journal: Some(_),
                now: _,
            },
        ) => None,
        Ok(
            Command::Serve {
                journal: Some(_),
                ..
            },
        ) => None,
        Ok(Command::Check { .. } | Command::Drill { .. }) => None,
        Err(_fault) => None,
    }
}

/// A host with one link, and one door, which closes at once.
fn host<R: Abort>(rt: &R, alloc: Global) -> MemHost<MemSource, MemSink> {
    let mut links = LinkedList::new(alloc);
    links
        .push_back(Ok(MemLink::always(alloc, Err(LinkFault::Failed))))
        .expect(rt, "links");
    let mut doors = LinkedList::new(alloc);
    doors
        .push_back(Ok(MemDoor::new(alloc, LinkedList::new(alloc))))
        .expect(rt, "doors");
    MemHost::new(alloc, LinkedList::new(alloc), doors, links)
}

/// Fails unless the command is done on empty input and a door that closes at once, and writes this.
fn meet<R: Wait + Threads + Sync + Abort>(rt: &R, alloc: Global, line: &str, want: &str) {
    let words = words(rt, alloc, line);
    let mut output = MemSink::new(alloc);
    let mut host = host(rt, alloc);
    let status = done(rt, alloc, words.as_slice(), &mut output, &mut host);
    assert!(*rt; status == Some(Status::Done), "{line}");
    let text = str::from_utf8(output.bytes()).expect(rt, "text");
    assert_eq!(*rt; text, want, "{line}");
}

#[test]
fn once_on_empty_input_writes_nothing(rt: HostRuntime) {
    meet(&rt, rt.alloc(), "ebusd once", "");
}

#[test]
fn a_door_that_closes_at_once_leaves_zeros(rt: HostRuntime) {
    let want = "listening 8080\nrecords 0 entries 0 control 0\nevents 0 archived 0 replays 0\n\
        duties 0 pending 0 delivered 0 dead-lettered 0 dropped 0\nmessages 0\n";
    meet(&rt, rt.alloc(), "ebusd serve --port 8080 --workers 1", want);
}
