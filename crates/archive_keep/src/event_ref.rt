//! Kept events.
ghost use Rattle.std.specs.Prelude.{◌≡◌, IfOk};
ghost use Rattle.std.specs.Arc.{arc_value};
ghost use Rattle.archive_keep.specs.Kept.{IsTextOfEvent};

use json_text::NoMemory;
use shared_text::SharedText;
use std::alloc::Global;
use std::marker::Model;
use std::sync::Arc;

/// An event as archives keep it: its number, the moment at which it was accepted, its own time, and its text. Moments and
/// times are in seconds. The text is an event's, whose own number and time may be others.
#[derive(Debug, Drop)]
pub struct KeptEvent {
    pub number: u64,
    pub accepted: u64,
    pub time: u64,
    pub text: SharedText,
}

/// A pointer to a kept event that archives and replays share, also across threads. The event never changes. It is freed
/// with its last pointer.
#[derive(Debug, Drop)]
pub struct EventRef {
    kept: Arc<KeptEvent>,
}

impl Model for EventRef {
    ghost use Rattle.std.specs.Prelude.{◌<◌, ◌^◌, length};
    ghost use Rattle.std.specs.Arc.{arc_value};
    ghost use Rattle.archive_keep.specs.declared.event_ref.KeptEvent.{KeptEvent};
    ghost use Rattle.archive_keep.specs.Kept.{IsTextOfEvent};

    ghost Value = { KeptEvent };

    ghost view = { λ e. arc_value e.kept };

    ghost invariant = { λ e. IsTextOfEvent (arc_value e.kept).text };
}

impl EventRef {
    /// The first pointer to the event. Its text is not copied.
    pub fn new(alloc: Global, kept: KeptEvent) -> Result<EventRef, NoMemory>
        requires { IsTextOfEvent kept.text }
        ensures { IfOk result (λ event. event ≡ kept) }
    {
        Ok(EventRef {
            kept: Arc::new(alloc, kept)?,
        })
    }

    /// Another pointer to the same event. Allocates nothing.
    pub fn share(&self) -> Result<EventRef, NoMemory>
        ensures { IfOk result (λ event. event ≡ self.now) }
    {
        Ok(EventRef {
            kept: Arc::try_clone(&self.kept)?,
        })
    }

    pub fn number(&self) -> u64
        ensures { result ≡ self.now.number }
    {
        self.kept.number
    }

    /// The moment of the turn in which the event was accepted.
    pub fn accepted(&self) -> u64
        ensures { result ≡ self.now.accepted }
    {
        self.kept.accepted
    }

    /// The event's own time.
    pub fn time(&self) -> u64
        ensures { result ≡ self.now.time }
    {
        self.kept.time
    }

    pub fn text(&self) -> &str
        ensures text { result.now ≡ self.now.text }
        ensures event { IsTextOfEvent result.now }
    {
        self.kept.text.as_str()
    }
}
