//! The text of an event, decided and read repeatedly.
use crate::events::entry;
use anyhow::Result;
use event_shape::{Event, OWNER, check};
use event_text::is_numbered_text;
use std::alloc::Global;
use std::rt::Clock;
use std::time::{Duration, Instant};

const NOVEMBER_2023: u64 = 1_700_000_000;

/// The number of bytes of the text, whether it was decided to be one, and the times of all calls that decide and that read.
#[derive(Clone, Copy)]
pub struct Figures {
    pub bytes: usize,
    pub is_one: bool,
    pub decided: Duration,
    pub read: Duration,
}

/// Decides and reads the text of an event with this detail.
pub fn measure(rt: &impl Clock, alloc: Global, detail: &str, rounds: u32) -> Result<Figures> {
    let checked = check(alloc, &entry(alloc, detail)?)?;
    let event = Event::make(alloc, checked, 1, NOVEMBER_2023, OWNER)?;
    let text = event.text(alloc, None)?;
    let text = text.as_str().as_bytes();
    let mut is_one = true;
    let start = Instant::now(rt)?;
    for _ in 0..rounds {
        is_one &= is_numbered_text(alloc, text)?;
    }
    let decided = start.elapsed(rt)?;
    let start = Instant::now(rt)?;
    for _ in 0..rounds {
        is_one &= Event::read(alloc, text)?.is_some();
    }
    Ok(Figures {
        bytes: text.len(),
        is_one,
        decided,
        read: start.elapsed(rt)?,
    })
}
