//! A sink in memory, whose bytes are known.
ghost use Rattle.std.specs.Prelude.{◌≡◌, false, [], Some, IfOk, IsOk, length};
ghost use Rattle.std.specs.Io.{WritesAtMost};
ghost use Rattle.std.specs.Io.KnownBytes.{Keeps, WriteAppends};
ghost use Rattle.epx_devices.specs.Devices.{AcceptsSome, failed_after};
ghost use Rattle.epx_devices.specs.MemoryDevices.{memory_sink};

use crate::device::{DeviceFault, Sink};
use std::alloc::Global;
use std::marker::Model;

/// Keeps the bytes that it accepts. If an allocation fails, the call fails and accepts nothing.
#[derive(Drop)]
pub struct MemorySink {
    bytes: Vec<u8>,
    failed: bool,
}

impl Model for MemorySink {
    ghost use Rattle.epx_devices.specs.MemoryDevices.{SinkState};

    ghost Value = { SinkState };

    ghost view = { λ s. record { bytes = s.bytes.items; failed = s.failed } };
}

impl MemorySink {
    /// A sink that has accepted nothing.
    pub fn new(alloc: Global) -> MemorySink
        ensures { result ≡ record { bytes = []; failed = false } }
    {
        MemorySink {
            bytes: Vec::new(alloc),
            failed: false,
        }
    }

    /// The bytes that it has accepted.
    pub fn bytes(&self) -> &[u8]
        ensures { result.now ≡ self.now.bytes }
    {
        &self.bytes
    }
}

impl Sink for MemorySink {
    ghost model = { memory_sink };

    fn write_some(&mut self, part: &[u8]) -> Result<usize, DeviceFault>
        ensures bound { WritesAtMost result part.now }
        ensures some { AcceptsSome result part.now }
        ensures bytes { WriteAppends (Some self.old.bytes) (Some self.new.bytes) result part.now }
        ensures whole { IfOk result (λ n. n ≡ length part.now) }
        ensures failures { self.new.failed ≡ failed_after self.old.failed result }
    {
        if self.bytes.extend_from_slice(part).is_err() {
            self.failed = true;
            return Err(DeviceFault);
        }
        Ok(part.len())
    }

    fn flush(&mut self) -> Result<(), DeviceFault>
        ensures ok { IsOk result }
        ensures unchanged { self.new ≡ self.old }
        ensures bytes { Keeps (Some self.old.bytes) (Some self.new.bytes) }
        ensures failures { self.new.failed ≡ failed_after self.old.failed result }
    {
        Ok(())
    }

    fn failed(&self) -> bool {
        self.failed
    }
}
