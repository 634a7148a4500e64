//! The outside as traits, a source of bytes, a sink, a clock, a disk and a link, with doubles in memory and adapters.
#![tactic(auto)]

mod adapter;
mod clock;
mod disk;
mod disk_call;
mod fault;
mod heard;
mod link;
mod memory;
mod sink;
mod source;

pub use adapter::{FileDisk, ReaderSource, SystemClock, WriterSink};
pub use clock::Clock;
pub use disk::Disk;
pub use disk_call::{DiskCall, DiskCalls};
pub use fault::{Failed, counted};
pub use heard::{Heard, Pieces};
pub use link::{Link, LinkFault};
pub use memory::{Answer, Failing, MemClock, MemLink, MemSink, MemSource};
pub use sink::Sink;
pub use source::Source;
