//! One publisher's entry, checked, made into an event and written, repeatedly.
use anyhow::Result;
use event_shape::{Event, EventEntry, OWNER, check};
use json_text::Text;
use std::alloc::Global;
use std::rt::Clock;
use std::time::{Duration, Instant};

const NOVEMBER_2023: u64 = 1_700_000_000;

/// The number of bytes of the event's text, and the time that all events took from entry to text.
#[derive(Clone, Copy)]
pub struct Figures {
    pub bytes: usize,
    pub took: Duration,
}

/// Makes events with this detail.
pub fn measure(rt: &impl Clock, alloc: Global, detail: &str, rounds: u32) -> Result<Figures> {
    let mut bytes = 0;
    let start = Instant::now(rt)?;
    for number in 0..rounds {
        let checked = check(alloc, &entry(alloc, detail)?)?;
        let event = Event::make(alloc, checked, u64::from(number), NOVEMBER_2023, OWNER)?;
        bytes = event.text(alloc, None)?.as_str().len();
    }
    Ok(Figures {
        bytes,
        took: start.elapsed(rt)?,
    })
}

/// An entry with this detail.
pub(crate) fn entry(alloc: Global, detail: &str) -> Result<EventEntry> {
    Ok(EventEntry {
        time: None,
        source: Some(Text::from_str(alloc, "shop.orders")?),
        resources: Vec::new(alloc),
        detail_type: Some(Text::from_str(alloc, "Order Placed")?),
        detail: Some(Text::from_str(alloc, detail)?),
        bus: None,
    })
}
