//! Tests of the crate `archive_keep`.
use crate::kept::{archive_of, pair, push_number, push_numbers};
use archive_keep::Archive;
use std::alloc::Global;
use std::test::Fail;
use test_rows::{all_met, four};

/// The days of an archive, the events that it keeps (each the moment at which it is accepted, and its time), acts, and what comes of them.
/// Worked by hand; one day has 86,400 seconds. The acts:
///
/// `list;MOMENT`: the numbers of the events that are retained. `count;MOMENT`: how many they are, and their bytes, of 220 each.
///
/// `purge;MOMENT`: the numbers of the events that are dropped. `update;DAYS,MOMENT`: the same; then the archive has these days.
const ROWS: &str =
    "1|1000,5000 2000,5000 50000,6000 50000,6001|list;87399 list;87400 count;87400 count;88400|1234 234 3:660 2:440 
1|1000,0|update;0,87399 count;250000000000| 1:220 
1|1000,0|update;0,87400 count;87400|1 0:0 
0|1000,0 1000,0|purge;250000000000 count;250000000000 update;1,87400 count;87399| 2:440  2:440 
1|1000,0 2000,0 3000,0|purge;88400 list;88400 update;2,88400 list;175799 list;175800|12 3  3  
";

fn small(days: u64) -> Result<u32, Fail> {
    match u32::try_from(days) {
        Ok(days) => Ok(days),
        Err(_) => Err(Fail::new("too many days")),
    }
}

/// Does what the act says, and appends what comes of it.
fn apply(alloc: Global, archive: &mut Archive, said: &mut String, act: &str) -> Result<(), Fail> {
    let (word, rest) = act.split_once(';').ok_or("no act")?;
    if word == "update" {
        let (days, moment) = pair(rest)?;
        let gone = archive.keep_for(small(days)?, moment);
        push_numbers(alloc, said, &gone)?;
    } else if word == "purge" {
        let gone = archive.purge(rest.parse::<u64>()?);
        push_numbers(alloc, said, &gone)?;
    } else if word == "list" {
        for event in archive.retained(rest.parse::<u64>()?) {
            push_number(alloc, said, event.number())?;
        }
    } else {
        let (events, bytes) = archive.counts(rest.parse::<u64>()?);
        let part = format!(in alloc; "{events}:{bytes}")?;
        said.push_str(&part)?;
    }
    Ok(said.push_str(" ")?)
}

fn said_of(alloc: Global, days: &str, events: &str, acts: &str) -> Result<String, Fail> {
    let mut archive = archive_of(alloc, days, events)?;
    let mut said = String::new(alloc);
    for act in acts.split(' ') {
        apply(alloc, &mut archive, &mut said, act)?;
    }
    Ok(said)
}

fn is_met(alloc: Global, row: &str) -> Result<bool, Fail> {
    let (days, events, acts, wanted) = four(row);
    Ok(said_of(alloc, days, events, acts)?.as_str() == wanted)
}

#[test]
fn each_archive_keeps_its_days(rt: HostRuntime) -> Result<(), Fail> {
    all_met(rt.alloc(), ROWS, 5, is_met)
}
