//! A source over memory, whose bytes are known.
ghost use Rattle.std.specs.Prelude.{◌≡◌, List, ℕ, Some, Ok, IfOk, OnErr, length, min};
ghost use Rattle.std.specs.Prelude.{take};
ghost use Rattle.std.specs.Io.{ReadsAtMost};
ghost use Rattle.std.specs.Io.KnownBytes.{ReadConsumes};
ghost use Rattle.epx_devices.specs.MemoryDevices.{memory_source};
ghost use Rattle.epx_devices.specs.Reads.{IsOneRead};

use crate::device::{DeviceFault, Source};
use std::marker::Model;

/// Returns the bytes of a slice. Each read fills the part or ends the source. No read fails.
#[derive(Drop)]
pub struct MemorySource<'a> {
    bytes: &'a [u8],
}

impl<'a> Model for MemorySource<'a> {
    ghost Value = { List ℕ };

    ghost view = { λ s. s.bytes.now };
}

impl<'a> MemorySource<'a> {
    /// A source of these bytes.
    pub fn new(bytes: &'a [u8]) -> MemorySource<'a>
        ensures { result ≡ bytes.now }
    {
        MemorySource { bytes }
    }
}

impl Source for MemorySource<'_> {
    ghost model = { memory_source };

    ghost is_one_read = { λ s room bytes t read. read };

    fn read_some(&mut self, part: &mut [u8]) -> Result<usize, DeviceFault>
        ensures bound { ReadsAtMost result part.new }
        ensures bytes { ReadConsumes (Some self.old) (Some self.new) result part.new }
        ensures delivered { IfOk result (λ n.
            IsOneRead (Some self.old) (Some self.new) (length part.new) (take n part.new)) }
        ensures failing { OnErr result ⊥ }
        ensures whole { result ≡ Ok (min (length part.new) (length self.old)) }
    {
        let count = part.len().min(self.bytes.len());
        part[..count].copy_from_slice(&self.bytes[..count]);
        self.bytes = &self.bytes[count..];
        Ok(count)
    }

    fn failed(&self) -> bool {
        false
    }
}
