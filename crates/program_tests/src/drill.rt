//! Tests of the program with `drill` over a host in memory.
use crate::runs::meet;

// The form of a row is that of `left_by` in runs.rt. The input fails at its first read, and the host gives no link.

#[test]
fn a_drill_writes_its_summary_or_nothing(rt: HostRuntime) {
    let summary =
        "Done 0||records 30 entries 30 control 23\nevents 3 archived 0 replays 0\nduties 4 pending 0 delivered 4 dead-lettered 0 dropped 0\nmessages 4\n|0 0|";
    meet(
        &rt,
        rt.alloc(),
        "ebusd drill --seed 1 --events 3||closed|0 200|",
        summary,
    );
    let nothing = "WriteFault 4|ebusd: output failed\n||0 0|";
    meet(
        &rt,
        rt.alloc(),
        "ebusd drill --seed 1 --events 3||closed|0 200|0",
        nothing,
    );
}
