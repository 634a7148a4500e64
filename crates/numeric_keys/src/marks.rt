ghost use Rattle.std.specs.Prelude.{◌≡◌, ℕ, ◌<◌, Bool, true, false, List, length, replicate, IfOk, slice_get, slice_set, Some};

use crate::fault::NoMemory;
use std::alloc::Global;
use std::marker::Model;

const WORD_BITS: u32 = 64;

/// A fixed number of places, each marked or not. Only `of` takes memory: one bit for each place.
#[derive(Drop)]
pub struct Marks {
    words: Vec<u64>,
    places: u32,
}

impl Model for Marks {
    ghost use Rattle.std.specs.Prelude.{◌≡◌, ◌*◌, ◌≤◌, Bool, List, vec_len};
    ghost use Rattle.numeric_keys.specs.Marks.{marks_in};

    ghost Value = { List Bool };

    ghost view = { λ m. marks_in m.words.items m.places };

    ghost invariant = { λ m. m.places ≤ 64 * vec_len m.words };
}

impl Marks {
    /// `places` places, none of them marked.
    pub fn of(alloc: Global, places: u32) -> Result<Marks, NoMemory>
        ensures { IfOk result (λ marks. marks ≡ replicate places false) }
    {
        let words = vec![in alloc; 0u64; places.div_ceil(WORD_BITS) as usize]?;
        Ok(Marks { words, places })
    }

    /// How many places there are, marked or not.
    pub fn places(&self) -> u32
        ensures { result ≡ length self.now }
    {
        self.places
    }

    /// Marks this place; it may be marked already.
    pub fn set(&mut self, place: u32)
        requires { place < length self.old }
        ensures { self.new ≡ slice_set self.old place true }
    {
        let word = &mut self.words[(place / WORD_BITS) as usize];
        *word |= 1 << (place % WORD_BITS);
    }

    /// Whether this place is marked.
    pub fn has(&self, place: u32) -> bool
        requires { place < length self.now }
        ensures { slice_get self.now place ≡ Some result }
    {
        let word = self.words[(place / WORD_BITS) as usize];
        word >> (place % WORD_BITS) & 1 == 1
    }

    /// Removes every mark, and keeps the places.
    pub fn clear(&mut self)
        ensures { self.new ≡ replicate (length self.old) false }
    {
        self.words.fill(0);
    }
}
