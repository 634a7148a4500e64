//! JSON texts, read and written repeatedly.
use anyhow::Result;
use json_text::{Bytes, read, write};
use std::alloc::Global;
use std::rt::Clock;
use std::time::{Duration, Instant};

/// The number of bytes of the written value, and the times of all calls of `read` and of `write`.
#[derive(Clone, Copy)]
pub struct Figures {
    pub bytes: usize,
    pub read: Duration,
    pub written: Duration,
}

/// Reads the text and writes its value, the given number of times each.
pub fn measure(rt: &impl Clock, alloc: Global, text: &[u8], rounds: u32) -> Result<Figures> {
    let start = Instant::now(rt)?;
    for _ in 0..rounds {
        read(alloc, text, 100)?;
    }
    let took = start.elapsed(rt)?;
    let json = read(alloc, text, 100)?;
    let mut out = Bytes::new(alloc);
    let start = Instant::now(rt)?;
    for _ in 0..rounds {
        out.truncate(0);
        write(&json, &mut out)?;
    }
    Ok(Figures {
        bytes: out.as_slice().len(),
        read: took,
        written: start.elapsed(rt)?,
    })
}
