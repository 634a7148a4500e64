//! Tests of the program with `once` over a host in memory.
use crate::runs::meet;

// The form of a row is that of `left_by` in runs.rt.

#[test]
fn a_run_gives_its_link_back(rt: HostRuntime) {
    let row = "ebusd once|queue rule target event delivered peek|closed|1 200|";
    let want = "Done 0||=queue rule target event delivered peek|0 0|+0";
    meet(&rt, rt.alloc(), row, want);
}

#[test]
fn an_endpoint_is_sent_the_event_once(rt: HostRuntime) {
    let row = "ebusd once|rule endpoint event delivered|closed|1 204|";
    let want =
        r#"Done 0||=rule endpoint event delivered|0 0|+0 204 http://localhost:8080/orders {"version":"0","id":"00000000-0000-8000-8000-000000000001","detail-type":"Order","source":"shop.orders","account":"111122223333","time":"2023-11-14T22:13:20Z","region":"us-east-1","resources":[],"detail":{"total":12.50}}"#;
    meet(&rt, rt.alloc(), row, want);
}

#[test]
fn an_endpoint_without_an_answer_stays_pending(rt: HostRuntime) {
    let row = "ebusd once|rule endpoint event pending|closed|1 failed|";
    meet(
        &rt,
        rt.alloc(),
        row,
        "Done 0||=rule endpoint event pending|0 0|+1",
    );
}

#[test]
fn a_host_that_fails_ends_a_run(rt: HostRuntime) {
    let want = "DoorFault 8|ebusd: door failed\n||1 0|";
    meet(&rt, rt.alloc(), "ebusd once||closed|0 200|", want);
}

#[test]
fn a_host_without_memory_ends_a_run(rt: HostRuntime) {
    let want = "NoMemory 7|ebusd: out of memory\n||0 0|";
    meet(&rt, rt.alloc(), "ebusd once||closed|1 memory|", want);
}

#[test]
fn the_words_are_checked_before_a_link_is_given(rt: HostRuntime) {
    let want =
        "Usage 2|error: unrecognized subcommand 'twice'\n\nUsage: ebusd <COMMAND>\n\nFor more information, try '--help'.\nebusd: bad arguments\n||0 0|";
    meet(&rt, rt.alloc(), "ebusd twice||closed|0 200|", want);
}
