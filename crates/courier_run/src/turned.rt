// What the attempts of a turn did.
ghost use Rattle.std.specs.Prelude.{◌≡◌, ◌+◌, ◌<◌, ◌≤◌};
ghost use Rattle.courier_run.specs.Turned.{no_attempt, with_fate};

use delivery_duties::Fate;

/// The number of attempts that were recorded, and of those that delivered, dead-lettered or dropped their duty.
#[derive(Clone, Copy, Debug, PartialEq, Eq)]
pub struct Turned {
    pub attempts: u32,
    pub delivered: u32,
    pub dead: u32,
    pub dropped: u32,
}

impl Turned {
    /// No attempt.
    pub fn none() -> Turned
        ensures { result ≡ no_attempt }
    {
        Turned {
            attempts: 0,
            delivered: 0,
            dead: 0,
            dropped: 0,
        }
    }

    /// Counts one more attempt.
    pub(crate) fn count(&mut self, fate: Fate)
        requires room { self.old.attempts < u32.MAX }
        requires parts { self.old.delivered + self.old.dead + self.old.dropped ≤ self.old.attempts }
        ensures { self.new ≡ with_fate self.old fate }
    {
        self.attempts += 1;
        match fate {
            Fate::Pending => (),
            Fate::Delivered => self.delivered += 1,
            Fate::DeadLettered => self.dead += 1,
            Fate::Dropped => self.dropped += 1,
        }
    }
}
