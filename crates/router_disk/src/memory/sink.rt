// A sink in memory.
use crate::fault::fail;
use crate::{Failed, Sink};
use std::alloc::Global;
use std::marker::Model;

/// A sink that holds what was written. A write fails if it is out of memory, or if the count of faults is at its last value.
#[derive(Drop)]
pub struct MemSink {
    bytes: Vec<u8>,
    faults: u64,
}

impl Model for MemSink {
    ghost use Rattle.router_disk.specs.Memory.{Store};

    ghost Value = { Store };

    ghost view = { λ s. record { bytes = s.bytes.items; faults = s.faults } };
}

impl MemSink {
    ghost use Rattle.std.specs.Prelude.{◌≡◌, []};

    /// A sink with nothing written.
    pub fn new(alloc: Global) -> Self
        ensures { result ≡ record { bytes = []; faults = 0 } }
    {
        MemSink {
            bytes: Vec::new(alloc),
            faults: 0,
        }
    }

    /// The bytes that were written.
    pub fn bytes(&self) -> &[u8]
        ensures { result.now ≡ self.now.bytes }
    {
        &self.bytes
    }
}

impl Sink for MemSink {
    ghost use Rattle.std.specs.Prelude.{Some, OnErr, ◌≡◌};
    ghost use Rattle.router_disk.specs.Faults.{CountsFaults};
    ghost use Rattle.router_disk.specs.Sink.{AddsBytes, WritesAll};

    ghost written = { λ s. Some s.bytes };

    ghost wrote = { λ s. s.bytes };

    ghost faults = { λ s. s.faults };

    fn faults(&self) -> u64 {
        self.faults
    }

    fn write_all(&mut self, bytes: &[u8]) -> Result<(), Failed>
        ensures bytes { WritesAll (Some self.old.bytes) (Some self.new.bytes) result bytes.now }
        ensures wrote { AddsBytes self.old.bytes self.new.bytes result bytes.now }
        ensures count { CountsFaults self.old.faults self.new.faults result }
        ensures none { OnErr result (self.new.bytes ≡ self.old.bytes) }
    {
        if self.faults == u64::MAX {
            return Err(Failed);
        }
        match self.bytes.extend_from_slice(bytes) {
            Ok(()) => Ok(()),
            Err(_) => fail(&mut self.faults),
        }
    }
}
