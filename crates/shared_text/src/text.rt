//! Shared texts.
ghost use Rattle.std.specs.Prelude.{◌≡◌, IfOk};
ghost use Rattle.std.specs.Arc.{arc_value};

use json_text::{NoMemory, Text};
use std::alloc::Global;
use std::marker::Model;
use std::sync::Arc;

/// A pointer to a text that several values share, also across threads. The text never changes.
/// It is freed with its last pointer.
#[derive(Debug, Drop)]
pub struct SharedText {
    text: Arc<Text>,
}

impl Model for SharedText {
    ghost use Rattle.std.specs.Prelude.{ℕ, List};
    ghost use Rattle.std.specs.Arc.{arc_value};

    ghost Value = { List ℕ };

    ghost view = { λ s. arc_value s.text };
}

impl SharedText {
    /// The first pointer to the text. Its bytes are not copied.
    pub fn new(alloc: Global, text: Text) -> Result<SharedText, NoMemory>
        ensures { IfOk result (λ shared. shared ≡ text) }
    {
        Ok(SharedText {
            text: Arc::new(alloc, text)?,
        })
    }

    /// The pointer as it is. Allocates nothing.
    pub fn from_arc(text: Arc<Text>) -> SharedText
        ensures { result ≡ arc_value text }
    {
        SharedText { text }
    }

    /// Another pointer to the same text. Allocates nothing. An `Err` means that no more pointers can be counted.
    pub fn share(&self) -> Result<SharedText, NoMemory>
        ensures { IfOk result (λ shared. shared ≡ self.now) }
    {
        Ok(SharedText {
            text: Arc::try_clone(&self.text)?,
        })
    }

    pub fn as_str(&self) -> &str
        ensures { result.now ≡ self.now }
    {
        self.text.as_str()
    }
}
