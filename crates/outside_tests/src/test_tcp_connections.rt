//! When a connection over TCP is over.
use std::alloc::Global;
use std::test::Fail;
use std::time::Duration;
use tcp_connections::Waited;
use test_rows::{all_met, four};

// How many milliseconds a connection was idle, how many passed since its message's first byte if there is one, whether another
// waits, and whether the connection is over.
const WAITS: &str = "249||true|false
250||true|true
250||false|false
19999||false|false
20000||false|true
19999|4999|true|false
0|5000|true|true
19999|19999|false|false
20000|20000|false|true
1000|59999|false|false
1000|60000|false|true
";

fn is_wait_met(alloc: Global, row: &str) -> Result<bool, Fail> {
    let (idle, message, another, want) = four(row);
    let message = if message.is_empty() {
        None
    } else {
        Some(Duration::from_millis(message.parse::<u64>()?))
    };
    let idle = Duration::from_millis(idle.parse::<u64>()?);
    let is_over = Waited { idle, message }.is_over(another == "true");
    Ok(format!(in alloc; "{is_over}")?.as_str() == want)
}

#[test]
fn a_connection_ends_when_it_waited_too_long(rt: HostRuntime) -> Result<(), Fail> {
    all_met(rt.alloc(), WAITS, 11, is_wait_met)
}
