//! The text of a pattern, read repeatedly: as a pattern, and as JSON.
use anyhow::Result;
use json_text::read_once;
use pattern_read::read_pattern;
use std::alloc::Global;
use std::rt::Clock;
use std::time::{Duration, Instant};

/// Whether the text is a pattern, and the times of all calls of `read_pattern` and of `read_once`.
#[derive(Clone, Copy)]
pub struct Figures {
    pub is_pattern: bool,
    pub pattern: Duration,
    pub json: Duration,
}

/// Reads the text the given number of times as a pattern, and as often as JSON.
pub fn measure(rt: &impl Clock, alloc: Global, text: &[u8], rounds: u32) -> Result<Figures> {
    let mut is_pattern = false;
    let start = Instant::now(rt)?;
    for _ in 0..rounds {
        is_pattern = read_pattern(alloc, text).is_ok();
    }
    let pattern = start.elapsed(rt)?;
    let start = Instant::now(rt)?;
    for _ in 0..rounds {
        read_once(alloc, text, 100)?;
    }
    Ok(Figures {
        is_pattern,
        pattern,
        json: start.elapsed(rt)?,
    })
}
