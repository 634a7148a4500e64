//! A source of bytes that contracts know.
ghost use Rattle.std.specs.Prelude.{◌≡◌, [], IsTrue};
ghost use Rattle.std.specs.List.{concat};

use router_disk::{Failed, MemSource, Source};
use std::marker::{Brand, Model, PhantomData};

/// Names the bytes of a script. Each call of a program picks them.
pub(crate) trait Given {
    ghost use Rattle.std.specs.Prelude.{ℕ, List};

    ghost bytes: { List ℕ };
}

impl Given for Brand {
    ghost use Rattle.std.specs.Prelude.{[]};

    ghost bytes = { [] };
}

/// A source of the bytes. Contracts see it as what its reads gave, piece by piece.
#[derive(Drop)]
pub(crate) struct Script<N: Given> {
    source: MemSource,
    of: PhantomData<N>,
}

impl<N: Given> Model for Script<N> {
    ghost use Rattle.std.specs.Prelude.{◌≡◌, ◌<◌, ℕ, List};

    ghost Value = { List (List ℕ) };

    ghost view = { λ s. s.source.gave };

    ghost invariant = { λ s. (s.source.bytes ≡ N.bytes) × (0 < s.source.most) };
}

impl<N: Given> Script<N> {
    pub(crate) fn new(bytes: Vec<u8>) -> Script<N>
        requires { bytes.items ≡ N.bytes }
        ensures { result ≡ [] }
    {
        Script {
            source: MemSource::new(bytes),
            of: PhantomData,
        }
    }

    /// Whether all bytes were given. It reads once more.
    pub(crate) fn is_read(&mut self) -> bool
        ensures { IsTrue result → concat self.old ≡ N.bytes }
    {
        self.source.gives_its_bytes();
        let mut byte = [0u8; 1];
        matches!(self.source.read(&mut byte), Ok(0))
    }
}

impl<N: Given + Send> Source for Script<N> {
    ghost use Rattle.std.specs.Prelude.{None};

    ghost left = { λ _. None };

    ghost gave = { λ s. s };

    ghost faults = { λ _. 0 };

    fn faults(&self) -> u64 {
        0
    }

    fn read(&mut self, buf: &mut [u8]) -> Result<usize, Failed> {
        self.source.read(buf)
    }
}
