// Whether a connection holds the only worker of its program.
use std::sync::atomic::{AtomicBool, Ordering};

/// What a door and its connections share: whether no worker is left to look for clients while a connection is served.
#[derive(Drop)]
pub(crate) struct Alone {
    is_alone: AtomicBool,
}

impl Alone {
    pub(crate) fn new(is_alone: bool) -> Alone {
        Alone {
            is_alone: AtomicBool::new(is_alone),
        }
    }

    pub(crate) fn get(&self) -> bool {
        self.is_alone.load(Ordering::SeqCst)
    }
}
