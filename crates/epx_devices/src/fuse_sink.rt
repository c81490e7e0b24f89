//! A sink in memory that fails after a set number of bytes.
ghost use Rattle.std.specs.Prelude.{◌≡◌, ◌≤◌, ◌↔◌, false, [], ◌++◌, Some, IfOk, OnOk, OnErr};
ghost use Rattle.std.specs.Prelude.{IsErr, length, take};
ghost use Rattle.std.specs.Io.{WritesAtMost};
ghost use Rattle.std.specs.Io.KnownBytes.{Keeps, WriteAppends};
ghost use Rattle.epx_devices.specs.Devices.{AcceptsSome, failed_after};
ghost use Rattle.epx_devices.specs.Fuses.{IsSpent, allowed, after_failure, after_transfer};
ghost use Rattle.epx_devices.specs.Fuses.{fuse_sink};

use crate::device::{DeviceFault, Sink};
use crate::fuse::{allowed, remaining_after};
use std::alloc::Global;
use std::marker::Model;

/// Keeps the bytes that it accepts. Once its fuse is spent, each call fails. If an allocation
/// fails, the call fails and accepts nothing.
#[derive(Drop)]
pub struct FuseSink {
    bytes: Vec<u8>,
    at_once: usize,
    fuse: Option<usize>,
    failed: bool,
}

impl Model for FuseSink {
    ghost use Rattle.std.specs.Prelude.{◌≤◌};
    ghost use Rattle.epx_devices.specs.Fuses.{FuseState};

    ghost Value = { FuseState };

    ghost view = { λ s. record {
      bytes = s.bytes.items;
      at_once = s.at_once;
      fuse = s.fuse;
      failed = s.failed;
    } };

    ghost invariant = { λ s. 1 ≤ s.at_once };
}

impl FuseSink {
    /// A call accepts at most `at_once` bytes, and all calls together at most `fuse`. `None` means
    /// any number.
    pub fn new(alloc: Global, at_once: usize, fuse: Option<usize>) -> FuseSink
        requires { 1 ≤ at_once }
        ensures { result ≡ record { bytes = []; at_once = at_once; fuse = fuse; failed = false } }
    {
        FuseSink {
            bytes: Vec::new(alloc),
            at_once,
            fuse,
            failed: false,
        }
    }

    /// The bytes that it has accepted.
    pub fn bytes(&self) -> &[u8]
        ensures { result.now ≡ self.now.bytes }
    {
        &self.bytes
    }
}

impl Sink for FuseSink {
    ghost model = { fuse_sink };

    fn write_some(&mut self, part: &[u8]) -> Result<usize, DeviceFault>
        ensures bound { WritesAtMost result part.now }
        ensures some { AcceptsSome result part.now }
        ensures bytes { WriteAppends (Some self.old.bytes) (Some self.new.bytes) result part.now }
        ensures failures { self.new.failed ≡ failed_after self.old.failed result }

        ensures fuse_spent { IsSpent self.old → IsErr result }
        ensures err { OnErr result (self.new ≡ after_failure self.old) }
        ensures count { IfOk result (λ n. n ≡ allowed self.old (length part.now)) }
        ensures ok { IfOk result
            (λ n. self.new ≡ after_transfer self.old n (self.old.bytes ++ take n part.now)) }
    {
        let count = allowed(part.len(), self.at_once, self.fuse);
        if self.fuse == Some(0) || self.bytes.extend_from_slice(&part[..count]).is_err() {
            self.failed = true;
            return Err(DeviceFault);
        }
        self.fuse = remaining_after(self.fuse, count);
        Ok(count)
    }

    fn flush(&mut self) -> Result<(), DeviceFault>
        ensures bytes { Keeps (Some self.old.bytes) (Some self.new.bytes) }
        ensures failures { self.new.failed ≡ failed_after self.old.failed result }

        ensures fuse_spent { IsErr result ↔ IsSpent self.old }
        ensures err { OnErr result (self.new ≡ after_failure self.old) }
        ensures ok { OnOk result (self.new ≡ self.old) }
    {
        if self.fuse == Some(0) {
            self.failed = true;
            return Err(DeviceFault);
        }
        Ok(())
    }

    fn failed(&self) -> bool {
        self.failed
    }
}
