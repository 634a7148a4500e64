//! Laws of the definitions, for every event.
ghost use Rattle.std.specs.Prelude.{◌≡◌, ◌<◌, ◌^◌, ℕ, List};
ghost use Rattle.std.specs.Str.{IsUtf8};
ghost use Rattle.json_text.specs.Moment.{IsMoment};
ghost use Rattle.event_shape.specs.Entry.{Entry};
ghost use Rattle.event_shape.specs.Id.{event_id};
ghost use Rattle.event_shape.specs.Event.{Event, Checked, HasTexts, IsCheckedOf, IsMade, IsEvent, IsEventText};

/// An event's text is no other event's, and an event's id is no other number's.
pub fn one_event()
    ensures text { (bytes : List ℕ) (e f : Event) → IsEventText bytes e → IsEventText bytes f → e ≡ f }
    ensures id { (n m : ℕ) → n < 2 ^ 64 → m < 2 ^ 64 → event_id n ≡ event_id m → n ≡ m }
{}

/// The events are exactly what entries without a fault become, with a number, a reading of the clock and an account.
pub fn events_are_made()
    ensures made { (e : Event) → IsEvent e → (entry : Entry) × (c : Checked) × (reading : ℕ)
        × HasTexts entry × IsCheckedOf entry c × IsMoment reading × IsMade c e.number reading e.account e }
    ensures event { (entry : Entry) (c : Checked) (number reading : ℕ) (account : List ℕ) (e : Event)
        → HasTexts entry → IsCheckedOf entry c → number < 2 ^ 64 → IsMoment reading → IsUtf8 account
        → IsMade c number reading account e → IsEvent e }
{}
