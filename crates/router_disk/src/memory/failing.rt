// A source or a sink that fails at one call.
use crate::fault::fail;
use crate::{Failed, Sink, Source};

/// A source or a sink with one planned failure: after `sound` more calls, one call fails before it reaches `inner`.
/// `None` plans no failure. `faults` counts the planned failure and the failures of `inner`.
#[derive(Drop)]
pub struct Failing<T> {
    pub inner: T,
    pub sound: Option<u64>,
    pub faults: u64,
}

impl<T> Failing<T> {
    ghost use Rattle.std.specs.Prelude.{◌≡◌, ◌⊎◌, ◌↔◌, Some, IsTrue};
    ghost use Rattle.router_disk.specs.Faults.{last_count};
    ghost use Rattle.router_disk.specs.Memory.{sound_after};

    /// A source or a sink with no fault yet, one call of which fails after `sound` calls.
    pub fn after(sound: u64, inner: T) -> Self
        ensures { result ≡ record { inner = inner; sound = Some sound; faults = 0 } }
    {
        Failing {
            inner,
            sound: Some(sound),
            faults: 0,
        }
    }

    // Counts one call down. Returns whether the call fails before it reaches `inner`.
    fn is_due(&mut self) -> bool
        ensures due { IsTrue result ↔ ((self.old.sound ≡ Some 0) ⊎ (self.old.faults ≡ last_count)) }
        ensures next { self.new ≡ record self.old { sound = sound_after self.old.sound } }
    {
        let is_planned = self.sound == Some(0);
        self.sound = match self.sound {
            Some(calls) if calls > 0 => Some(calls - 1),
            _ => None,
        };
        is_planned || self.faults == u64::MAX
    }
}

impl<S: Source> Source for Failing<S> {
    ghost use Rattle.std.specs.Prelude.{◌≡◌, ◌<◌, ◌⊎◌, length, Some, IsErr};
    ghost use Rattle.std.specs.Io.{ReadsAtMost};
    ghost use Rattle.std.specs.Io.KnownBytes.{ReadConsumes};
    ghost use Rattle.router_disk.specs.Faults.{CountsFaults, Rose, last_count};
    ghost use Rattle.router_disk.specs.Memory.{sound_after};
    ghost use Rattle.router_disk.specs.Source.{GivesPiece};

    ghost left = { λ s. S.left s.inner };

    ghost gave = { λ s. S.gave s.inner };

    ghost faults = { λ s. s.faults };

    fn faults(&self) -> u64 {
        self.faults
    }

    fn rests(&mut self) {
        self.inner.rests();
    }

    fn read(&mut self, buf: &mut [u8]) -> Result<usize, Failed>
        requires room { 0 < length buf.old }
        ensures within { ReadsAtMost result buf.new }
        ensures bytes { ReadConsumes (S.left self.old.inner) (S.left self.new.inner) result buf.new }
        ensures piece { GivesPiece (S.gave self.old.inner) (S.gave self.new.inner) result buf.new }
        ensures count { CountsFaults self.old.faults self.new.faults result }

        ensures next { self.new.sound ≡ sound_after self.old.sound }
        ensures planned { self.old.sound ≡ Some 0 → IsErr result }
        ensures cause { IsErr result →
            (self.old.sound ≡ Some 0) ⊎ (self.old.faults ≡ last_count)
            ⊎ Rose (S.faults self.old.inner) (S.faults self.new.inner) }
    {
        if self.is_due() {
            return fail(&mut self.faults);
        }
        match self.inner.read(buf) {
            Ok(count) => Ok(count),
            Err(Failed) => fail(&mut self.faults),
        }
    }
}

impl<K: Sink> Sink for Failing<K> {
    ghost use Rattle.std.specs.Prelude.{◌≡◌, ◌⊎◌, Some, IsErr};
    ghost use Rattle.router_disk.specs.Faults.{CountsFaults, Rose, last_count};
    ghost use Rattle.router_disk.specs.Memory.{sound_after};
    ghost use Rattle.router_disk.specs.Sink.{AddsBytes, WritesAll};

    ghost written = { λ s. K.written s.inner };

    ghost wrote = { λ s. K.wrote s.inner };

    ghost faults = { λ s. s.faults };

    fn faults(&self) -> u64 {
        self.faults
    }

    fn write_all(&mut self, bytes: &[u8]) -> Result<(), Failed>
        ensures bytes { WritesAll (K.written self.old.inner) (K.written self.new.inner) result bytes.now }
        ensures wrote { AddsBytes (K.wrote self.old.inner) (K.wrote self.new.inner) result bytes.now }
        ensures count { CountsFaults self.old.faults self.new.faults result }

        ensures next { self.new.sound ≡ sound_after self.old.sound }
        ensures planned { self.old.sound ≡ Some 0 → IsErr result }
        ensures cause { IsErr result →
            (self.old.sound ≡ Some 0) ⊎ (self.old.faults ≡ last_count)
            ⊎ Rose (K.faults self.old.inner) (K.faults self.new.inner) }
    {
        if self.is_due() {
            return fail(&mut self.faults);
        }
        match self.inner.write_all(bytes) {
            Ok(()) => Ok(()),
            Err(Failed) => fail(&mut self.faults),
        }
    }
}
