// Whether a call of a journal's disk has failed.
ghost use Rattle.std.specs.Prelude.{◌≡◌};

use router_disk::Failed;
use std::alloc::{AllocError, Global};
use std::sync::Arc;
use std::sync::atomic::{AtomicBool, Ordering};

/// Whether a call of a disk has failed. The disks of a host set it, and the connections of its doors look at it. It is never
/// cleared.
#[derive(Drop)]
pub struct FaultFlag {
    has_failed: Arc<AtomicBool>,
}

impl FaultFlag {
    /// No call has failed yet.
    pub fn new(alloc: Global) -> Result<FaultFlag, AllocError> {
        match Arc::new(alloc, AtomicBool::new(false)) {
            Ok(has_failed) => Ok(FaultFlag { has_failed }),
            Err(_) => Err(AllocError),
        }
    }

    /// The same flag once more. Fails only if its count of owners is full.
    pub fn try_clone(&self) -> Result<FaultFlag, AllocError> {
        Ok(FaultFlag {
            has_failed: Arc::try_clone(&self.has_failed)?,
        })
    }

    /// Whether a call has failed.
    pub fn is_set(&self) -> bool {
        self.has_failed.load(Ordering::SeqCst)
    }

    /// The answer of a call of a disk. Sets the flag if it failed.
    pub(crate) fn noted<T>(&self, answer: Result<T, Failed>) -> Result<T, Failed>
        ensures { result ≡ answer }
    {
        match answer {
            Ok(value) => Ok(value),
            Err(Failed) => {
                self.has_failed.store(true, Ordering::SeqCst);
                Err(Failed)
            }
        }
    }
}
