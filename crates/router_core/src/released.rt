//! What is left after a batch was applied.
use crate::ready::Part;
use archive_keep::{Archive, EventRef};
use delivery_queues::{DeletedMessages, RemovedQueue};
use replay_run::{Rest, Stepped};
use router_requests::Batch;
use rule_table::RuleSet;
use shared_text::{SharedRow, SharedText};
use std::collections::{LinkedList, VecDeque};

/// What applying a batch leaves over. Dropping it frees memory, so drop it where nobody waits.
#[derive(Drop)]
pub struct Released {
    pub(crate) batch: Option<Batch>,
    /// The list of the batch's parts, which is empty.
    pub(crate) parts: Option<VecDeque<Part>>,
    /// The rule set before the change, if the batch is one.
    pub(crate) set: Option<RuleSet>,
    /// The queue that the batch deletes, if it deletes one.
    pub(crate) queue: Option<RemovedQueue>,
    /// The messages that the batch deletes, if it deletes some.
    pub(crate) messages: Option<DeletedMessages>,
    /// The archive that the batch deletes, with its events, if it deletes one.
    pub(crate) archive: Option<Archive>,
    /// The events that the archives no longer retain.
    pub(crate) expired: Option<LinkedList<EventRef>>,
    /// What an update of an archive dropped.
    pub(crate) dropped: Option<LinkedList<EventRef>>,
    /// The event that a step repeated, and the memory of the replay's list if the step completed it.
    pub(crate) stepped: Option<Stepped>,
    /// What a cancelled replay had left.
    pub(crate) rest: Option<Rest>,
    /// The row that the errand shared with its duty, if the batch records an attempt.
    pub(crate) target: Option<SharedRow>,
    /// The text that the errand shared with its duty, if the batch records an attempt.
    pub(crate) text: Option<SharedText>,
}

impl Released {
    /// Nothing yet.
    pub(crate) fn nothing() -> Released {
        Released {
            batch: None,
            parts: None,
            set: None,
            queue: None,
            messages: None,
            archive: None,
            expired: None,
            dropped: None,
            stepped: None,
            rest: None,
            target: None,
            text: None,
        }
    }
}
