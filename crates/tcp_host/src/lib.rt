//! The host of the program: disks over files, links to endpoints and a door for clients over TCP, and the system's clocks.
#![tactic(auto)]

mod alone;
mod listening;
mod system_clocks;
mod tcp_door;
mod tcp_host;
mod tcp_sink;
mod tcp_source;
mod waiting;

pub use system_clocks::{LentClock, SystemClocks};
pub use tcp_door::TcpDoor;
pub use tcp_host::TcpHost;
pub use tcp_sink::TcpSink;
pub use tcp_source::TcpSource;
