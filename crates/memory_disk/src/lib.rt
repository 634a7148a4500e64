//! A disk in memory: a file, the calls on it, and what a crash may leave.
#![tactic(auto)]

mod disk;
mod image;
mod overwrite;
mod tape;

pub use disk::MemoryDisk;
pub use image::Tear;
