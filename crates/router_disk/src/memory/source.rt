// A source in memory.
use crate::{Failed, Pieces, Source};
use std::marker::Model;

/// A source that gives the bytes that it holds, at once or in pieces. It never fails.
#[derive(Drop)]
pub struct MemSource {
    bytes: Vec<u8>,
    place: usize,
    most: usize,
    gave: Pieces,
}

impl Model for MemSource {
    ghost use Rattle.std.specs.Prelude.{◌≡◌, ◌<◌, ◌≤◌, [], Contains, length, take, drop};
    ghost use Rattle.std.specs.List.{concat};
    ghost use Rattle.router_disk.specs.Memory.{Supply};

    ghost Value = { Supply };

    ghost view = { λ s. record { bytes = s.bytes.items; gave = s.gave; left = drop s.place s.bytes.items; most = s.most } };

    ghost invariant = { λ s. (s.place ≤ length s.bytes.items) × (0 < s.most)
        × (concat s.gave ≡ take s.place s.bytes.items)
        × (Contains s.gave [] → length s.bytes.items ≤ s.place) };
}

impl MemSource {
    ghost use Rattle.std.specs.Prelude.{◌≡◌, ◌<◌, []};
    ghost use Rattle.router_disk.specs.Memory.{GivesItsBytes};

    /// A source of these bytes. A read gives as many as there is room for.
    pub fn new(bytes: Vec<u8>) -> Self
        ensures { result ≡ record { bytes = bytes.items; gave = []; left = bytes.items; most = usize.MAX } }
    {
        MemSource {
            bytes,
            place: 0,
            most: usize::MAX,
            gave: Pieces::new(),
        }
    }

    /// The same source, but a read gives at most `most` bytes.
    pub fn in_pieces(self, most: usize) -> Self
        requires { 0 < most }
        ensures { result ≡ record self { most = most } }
    {
        let MemSource {
            bytes,
            place,
            gave,
            ..
        } = self;
        MemSource {
            bytes,
            place,
            most,
            gave,
        }
    }

    /// What it gave, and then what is left, is what it was made of, whatever calls were made. After the empty piece nothing is left.
    pub fn gives_its_bytes(&self)
        ensures { GivesItsBytes self.now }
    {
        // The invariant is known where a field is used.
        let _ = &self.bytes;
    }
}

impl Source for MemSource {
    ghost use Rattle.std.specs.Prelude.{◌≡◌, ◌<◌, ◌++◌, ◌∷◌, [], min, length, take, drop, Some, Ok, IfOk};
    ghost use Rattle.std.specs.Io.{ReadsAtMost};
    ghost use Rattle.std.specs.Io.KnownBytes.{ReadConsumes};
    ghost use Rattle.router_disk.specs.Faults.{CountsFaults};
    ghost use Rattle.router_disk.specs.Source.{GivesPiece};

    ghost left = { λ s. Some s.left };

    ghost gave = { λ s. s.gave };

    ghost faults = { λ s. 0 };

    fn faults(&self) -> u64 {
        0
    }

    fn read(&mut self, buf: &mut [u8]) -> Result<usize, Failed>
        requires room { 0 < length buf.old }
        ensures within { ReadsAtMost result buf.new }
        ensures bytes { ReadConsumes (Some self.old.left) (Some self.new.left) result buf.new }
        ensures piece { GivesPiece self.old.gave self.new.gave result buf.new }
        ensures count { CountsFaults 0 0 result }
        ensures gives { result ≡ Ok (min self.old.most (min (length buf.old) (length self.old.left))) }
        ensures rest { IfOk result (λ n. self.new
            ≡ record self.old { gave = self.old.gave ++ take n self.old.left ∷ []; left = drop n self.old.left }) }
    {
        let left = &self.bytes[self.place..];
        let count = self.most.min(buf.len()).min(left.len());
        buf[..count].copy_from_slice(&left[..count]);
        self.gave.hear(&buf[..count]);
        self.place += count;
        Ok(count)
    }
}
