//! The kinds of things that a refusal names.
ghost use Rattle.std.specs.Prelude.{◌≡◌};
ghost use Rattle.api_replies.specs.Name.{kind_word, kind_limit};

/// A kind of things that a refusal names.
#[derive(Clone, Copy, Debug, PartialEq, Eq)]
pub enum Kind {
    EventBus,
    Rule,
    Target,
    Archive,
    Replay,
    Queue,
}

impl Kind {
    /// The kind's word, as a message begins with it.
    pub fn word(self) -> &'static str
        ensures { result.now ≡ kind_word self }
    {
        match self {
            Kind::EventBus => "Event bus",
            Kind::Rule => "Rule",
            Kind::Target => "Target",
            Kind::Archive => "Archive",
            Kind::Replay => "Replay",
            Kind::Queue => "Queue",
        }
    }

    /// How many there may be: event buses, rules of a bus, targets of a rule, archives, running replays, queues.
    pub fn limit(self) -> u32
        ensures { result ≡ kind_limit self }
    {
        match self {
            Kind::EventBus => 100,
            Kind::Rule => 300,
            Kind::Target => 5,
            Kind::Archive => 100,
            Kind::Replay => 10,
            Kind::Queue => 1000,
        }
    }
}
