//! Claimed duties as the courier holds them.
ghost use Rattle.json_text.specs.Moment.{IsMoment};

use courier_run::{HeldDuty, Way};
use event_shape::queue_of;
use router_core::Errand;

/// A claimed duty, with the reading of the clock at which it was claimed. It borrows nothing of the book.
pub struct Held {
    pub(crate) errand: Errand,
    pub(crate) reading: u64,
    ghost is_moment: { IsMoment reading },
}

impl HeldDuty for Held {
    ghost use Rattle.router_history.specs.Held.{held_claim};

    ghost shows = { held_claim };

    fn way(&self) -> Way {
        match queue_of(self.errand.endpoint()) {
            Some(_) => Way::Queue,
            None => Way::Http,
        }
    }

    fn endpoint(&self) -> &str {
        self.errand.endpoint()
    }

    fn text(&self) -> &str {
        self.errand.text()
    }

    fn accepted(&self) -> u64 {
        self.errand.accepted()
    }

    fn age(&self) -> u32 {
        self.errand.age()
    }

    fn moment(&self) -> u64 {
        self.errand.moment()
    }
}
