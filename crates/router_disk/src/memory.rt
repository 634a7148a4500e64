// Doubles in memory. Their contracts show what they hold.
mod clock;
mod failing;
mod link;
mod sink;
mod source;

pub use clock::MemClock;
pub use failing::Failing;
pub use link::{Answer, MemLink};
pub use sink::MemSink;
pub use source::MemSource;
