//! The messages of a drill, one after the other.
ghost use Rattle.std.specs.Prelude.{◌≡◌, ◌<◌, Some, IfOk, OnOk, OnErr, drop, option_map, slice_get};
ghost use Rattle.drill_requests.specs.Messages as messages;
ghost use Rattle.drill_requests.specs.Draws as draws;

use crate::operations::{create_queue, put_events, put_rule, put_targets};
use json_text::NoMemory;
use std::alloc::Global;
use std::marker::Model;

/// How many rules a drill has.
const RULES: u64 = 11;

/// How many messages come before the events.
const SET_UP: u64 = 23;

/// The messages of a drill that are still to come, each made when it is asked for. Contracts see their list.
#[derive(Debug, Drop)]
pub struct DrillMessages {
    /// How many messages were made before the events.
    place: u64,
    /// The state of the draws.
    state: u64,
    /// How many events are still to be put.
    events: u32,
}

impl Model for DrillMessages {
    ghost use Rattle.std.specs.Prelude.{ℕ, List, ◌≤◌, ◌<◌, ◌++◌, drop};
    ghost use Rattle.drill_requests.specs.Messages.{set_up_messages, event_messages};

    ghost Value = { List (List ℕ) };

    ghost view = { λ d. drop d.place set_up_messages ++ event_messages d.state d.events };

    ghost invariant = { λ d. (d.place ≤ 23) × (d.state < 4294967296) };
}

impl DrillMessages {
    /// All messages of the drill, up to its last event. After them come messages of `deliver_due_message`.
    pub fn new(seed: u32, events: u32) -> DrillMessages
        ensures { result ≡ messages.drill_messages seed events }
    {
        DrillMessages {
            place: 0,
            state: u64::from(seed),
            events,
        }
    }

    /// The bytes of the next message, or `None` after the last one. An `Err` leaves all as it was.
    pub fn next(&mut self, alloc: Global) -> Result<Option<Vec<u8>>, NoMemory>
        ensures first { IfOk result (λ message. option_map (λ bytes. bytes.items) message ≡ slice_get self.old 0) }
        ensures rest { OnOk result (self.new ≡ drop 1 self.old) }
        ensures err { OnErr result (self.new ≡ self.old) }
    {
        if self.place < SET_UP {
            let bytes = set_up_message(alloc, self.place)?;
            self.place += 1;
            Ok(Some(bytes))
        } else if self.events == 0 {
            Ok(None)
        } else {
            let first = next_state(self.state);
            let second = next_state(first);
            let bytes = put_events(alloc, drawn(first) % 10, drawn(second) % 1000)?;
            self.state = second;
            self.events -= 1;
            Ok(Some(bytes))
        }
    }
}

/// The message at a place before the events.
fn set_up_message(alloc: Global, place: u64) -> Result<Vec<u8>, NoMemory>
    requires { place < 23 }
    ensures { IfOk result (λ bytes. slice_get messages.set_up_messages place ≡ Some bytes.items) }
{
    if place == 0 {
        create_queue(alloc)
    } else if place <= RULES {
        put_rule(alloc, place - 1)
    } else {
        put_targets(alloc, place - 1 - RULES)
    }
}

/// The state of the draws after one more.
fn next_state(state: u64) -> u64
    requires { state < 4294967296 }
    ensures next { result ≡ draws.next state }
    ensures range { result < 4294967296 }
{
    (state * 1_103_515_245 + 12_345) % 2_147_483_648
}

/// What is drawn in a state.
fn drawn(state: u64) -> u64
    ensures { result ≡ draws.draw state }
{
    state / 65_536
}
