//! The host as traits: doors, disks, links, clocks that are lent, and a gate; a host that opens nothing; a host, a door and clocks in memory.
#![tactic(auto)]

mod clocks;
mod count;
mod door;
mod gate;
mod host;
mod mem_door;
mod mem_files;
mod mem_host;
mod no_host;
mod stock;

pub use clocks::{Clocks, MemClocks};
pub use count::raise;
pub use door::{Door, Ended, Knock};
pub use gate::{Gate, NoGate, Point};
pub use host::{Host, HostFault};
pub use mem_door::{MemDoor, Plan};
pub use mem_files::{MemFile, MemFiles};
pub use mem_host::MemHost;
pub use no_host::{NoDisk, NoDoor, NoHost, NoLink};
pub use stock::Stock;
