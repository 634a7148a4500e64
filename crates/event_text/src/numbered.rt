//! The one call: in one pass if it can, else by reading the event.
ghost use Rattle.std.specs.Prelude.{◌↔◌, IfOk, IsTrue};
ghost use Rattle.event_text.specs.Numbered.{IsNumberedText};

use crate::quick::is_numbered_in_one_pass;
use event_shape::{Event, is_account};
use json_text::NoMemory;
use std::alloc::Global;

/// Whether the bytes are the text of an event whose number is at least 1 and whose account has 12 digits. If
/// `is_numbered_in_one_pass` does not show it, the event is read, which takes memory.
pub fn is_numbered_text(alloc: Global, text: &[u8]) -> Result<bool, NoMemory>
    ensures { IfOk result (λ yes. IsTrue yes ↔ IsNumberedText text.now) }
{
    if is_numbered_in_one_pass(text) {
        return Ok(true);
    }
    is_read(alloc, text)
}

/// The same, by reading the event.
fn is_read(alloc: Global, text: &[u8]) -> Result<bool, NoMemory>
    ensures { IfOk result (λ yes. IsTrue yes ↔ IsNumberedText text.now) }
{
    match Event::read(alloc, text) {
        Ok(found) => match found {
            Some(event) => {
                if event.number() == 0 {
                    return Ok(false);
                }
                Ok(is_account(event.account()))
            }
            None => Ok(false),
        },
        Err(NoMemory) => Err(NoMemory),
    }
}
