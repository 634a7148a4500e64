// What objects of the outside show of their calls. Only contracts see it, and it takes no memory.
ghost use Rattle.std.specs.Prelude.{◌≡◌, ◌++◌, ◌∷◌, [], List, ℕ, map};

use http_server::Log;
use std::marker::Model;

/// The bytes of all calls so far, in order.
#[derive(Drop)]
pub struct Heard {
    log: Log<u8, ()>,
}

impl Model for Heard {
    ghost use Rattle.std.specs.Prelude.{List, ℕ, map};

    ghost Value = { List ℕ };

    ghost view = { λ h. map (λ pair. pair.0) h.log.items };
}

impl Heard {
    /// No byte yet.
    pub fn new() -> Heard
        ensures { result ≡ [] }
    {
        Heard { log: Log::new() }
    }

    /// Adds the bytes of a call.
    pub fn hear(&mut self, bytes: &[u8])
        ensures { self.new ≡ self.old ++ bytes.now }
    {
        add(&mut self.log, bytes);
    }
}

// The bytes are added one by one, since a log takes each entry by a reference to it. The loop does nothing at run time.
fn add(log: &mut Log<u8, ()>, bytes: &[u8])
    ensures { map (λ pair. pair.0) log.new.items ≡ map (λ pair. pair.0) log.old.items ++ bytes.now }
{
    for byte in bytes {
        *log = log.and(byte, &());
    }
}

/// The bytes of each call so far, piece by piece.
#[derive(Drop)]
pub struct Pieces {
    log: Log<Heard, ()>,
}

impl Model for Pieces {
    ghost use Rattle.std.specs.Prelude.{List, ℕ, map};

    ghost Value = { List (List ℕ) };

    ghost view = { λ p. map (λ pair. pair.0) p.log.items };
}

impl Pieces {
    /// No piece yet.
    pub fn new() -> Pieces
        ensures { result ≡ [] }
    {
        Pieces { log: Log::new() }
    }

    /// Adds the bytes of a call as a piece.
    pub fn hear(&mut self, piece: &[u8])
        ensures { self.new ≡ self.old ++ piece.now ∷ [] }
    {
        let mut heard = Heard::new();
        heard.hear(piece);
        self.log = self.log.and(&heard, &());
    }
}
