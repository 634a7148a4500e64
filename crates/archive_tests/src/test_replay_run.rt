//! Tests of the crate `replay_run`.
use crate::kept::{archive_of, pair, push_number};
use replay_run::{Replay, ReplayState, TimeRange};
use std::alloc::Global;
use std::test::Fail;
use test_rows::{all_met, four};

/// The days of an archive, the events that it keeps (each the moment at which it is accepted, and its time), then `START,END;MOMENT` of a
/// replay and acts, and what comes of them. Worked by hand. The acts: `step` gives the number of the event, or `-`; `state` its first
/// letter, with `X` for cancelled; `last` the time of the last event; `cancel` gives `ok`, or `no`.
const ROWS: &str =
    "1|1000,5000 2000,5000 50000,6000 50000,6001|5000,6000;87400 state step last cancel state cancel step last|R 2 5000 ok X no - 5000 
0|1,6000 2,5000 3,6000 4,5000|0,9999;10 step step step step state step cancel|2 4 1 3 C - no 
0|1,5 2,6 3,7 4,8|6,7;10 step state step state|2 R 3 C 
0|1,5|6,7;10 state cancel last|C no none 
0|1,5 2,7 3,7|0,9;10 step step last state step last state|1 2 7 R 3 7 C 
";

/// Makes the next step, if there is one, and appends the number of its event.
fn step(alloc: Global, replay: &mut Replay, said: &mut String) -> Result<(), Fail> {
    match replay.state() {
        ReplayState::Running => {
            let event = replay.advance();
            push_number(alloc, said, event.number())
        }
        _ => Ok(said.push_str("-")?),
    }
}

fn push_last(alloc: Global, replay: &Replay, said: &mut String) -> Result<(), Fail> {
    match replay.last() {
        Some(time) => push_number(alloc, said, time),
        None => Ok(said.push_str("none")?),
    }
}

fn letter(state: ReplayState) -> &'static str {
    match state {
        ReplayState::Running => "R",
        ReplayState::Completed => "C",
        ReplayState::Cancelled => "X",
    }
}

/// Does what the act says, and appends what comes of it.
fn apply(alloc: Global, replay: &mut Replay, said: &mut String, act: &str) -> Result<(), Fail> {
    if act == "step" {
        step(alloc, replay, said)?;
    } else if act == "last" {
        push_last(alloc, replay, said)?;
    } else if act == "state" {
        said.push_str(letter(replay.state()))?;
    } else {
        said.push_str(if replay.cancel().is_ok() { "ok" } else { "no" })?;
    }
    Ok(said.push_str(" ")?)
}

/// The replay that a row asks for.
fn started(alloc: Global, days: &str, events: &str, asked: &str) -> Result<Replay, Fail> {
    let (range, moment) = asked.split_once(';').ok_or("no moment")?;
    let (start, end) = pair(range)?;
    let archive = archive_of(alloc, days, events)?;
    Ok(Replay::start(
        alloc,
        &archive,
        TimeRange { start, end },
        moment.parse::<u64>()?,
    )?)
}

fn said_of(alloc: Global, days: &str, events: &str, plan: &str) -> Result<String, Fail> {
    let (asked, acts) = plan.split_once(' ').ok_or("no act")?;
    let mut replay = started(alloc, days, events, asked)?;
    let mut said = String::new(alloc);
    for act in acts.split(' ') {
        apply(alloc, &mut replay, &mut said, act)?;
    }
    Ok(said)
}

fn is_met(alloc: Global, row: &str) -> Result<bool, Fail> {
    let (days, events, plan, wanted) = four(row);
    Ok(said_of(alloc, days, events, plan)?.as_str() == wanted)
}

#[test]
fn replays_repeat_their_selections(rt: HostRuntime) -> Result<(), Fail> {
    all_met(rt.alloc(), ROWS, 5, is_met)
}
