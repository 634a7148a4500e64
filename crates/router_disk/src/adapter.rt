// Adapters over the real outside, a few lines each. Their contracts show what their calls gave and wrote. What the system does is trusted:
// that a read gives what the system gave, that the bytes of a write reach the system, that a reading is the system's, and that a file
// answers as the model of a disk (`specs/Disk.antt`).
mod clock;
mod disk;
mod sink;
mod source;

pub use clock::SystemClock;
pub use disk::FileDisk;
pub use sink::WriterSink;
pub use source::ReaderSource;
