//! A source over memory that fails after a set number of bytes.
ghost use Rattle.std.specs.Prelude.{◌≡◌, ◌≤◌, ◌↔◌, false, Some, IfOk, OnErr, IsErr, length};
ghost use Rattle.std.specs.Prelude.{min, take, drop};
ghost use Rattle.std.specs.Io.{ReadsAtMost};
ghost use Rattle.std.specs.Io.KnownBytes.{ReadConsumes};
ghost use Rattle.epx_devices.specs.Devices.{failed_after};
ghost use Rattle.epx_devices.specs.Reads.{IsOneRead};
ghost use Rattle.epx_devices.specs.Fuses.{IsSpent, allowed, after_failure, after_transfer};
ghost use Rattle.epx_devices.specs.Fuses.{fuse_source};

use crate::device::{DeviceFault, Source};
use crate::fuse::{allowed, remaining_after};
use std::marker::Model;

/// Returns the bytes of a slice. Once its fuse is spent, each call fails, also at the end of the
/// bytes.
#[derive(Drop)]
pub struct FuseSource<'a> {
    bytes: &'a [u8],
    at_once: usize,
    fuse: Option<usize>,
    failed: bool,
}

impl<'a> Model for FuseSource<'a> {
    ghost use Rattle.std.specs.Prelude.{◌≤◌};
    ghost use Rattle.epx_devices.specs.Fuses.{FuseState};

    ghost Value = { FuseState };

    ghost view = { λ s. record {
      bytes = s.bytes.now;
      at_once = s.at_once;
      fuse = s.fuse;
      failed = s.failed;
    } };

    ghost invariant = { λ s. 1 ≤ s.at_once };
}

impl<'a> FuseSource<'a> {
    /// A call returns at most `at_once` bytes, and all calls together at most `fuse`. `None` means
    /// any number.
    pub fn new(bytes: &'a [u8], at_once: usize, fuse: Option<usize>) -> FuseSource<'a>
        requires { 1 ≤ at_once }
        ensures { result ≡ record {
          bytes = bytes.now;
          at_once = at_once;
          fuse = fuse;
          failed = false;
        } }
    {
        FuseSource {
            bytes,
            at_once,
            fuse,
            failed: false,
        }
    }
}

impl Source for FuseSource<'_> {
    ghost model = { fuse_source };

    ghost is_one_read = { λ s room bytes t read. read };

    fn read_some(&mut self, part: &mut [u8]) -> Result<usize, DeviceFault>
        ensures bound { ReadsAtMost result part.new }
        ensures bytes { ReadConsumes (Some self.old.bytes) (Some self.new.bytes) result part.new }
        ensures delivered { IfOk result (λ n. IsOneRead (Some self.old.bytes)
            (Some self.new.bytes) (length part.new) (take n part.new)) }
        ensures failing { OnErr result (IsSpent self.old × (self.new ≡ after_failure self.old)) }
        ensures failures { self.new.failed ≡ failed_after self.old.failed result }

        ensures fuse_spent { IsErr result ↔ IsSpent self.old }
        ensures err { OnErr result (self.new ≡ after_failure self.old) }
        ensures count { IfOk result
            (λ n. n ≡ min (allowed self.old (length part.new)) (length self.old.bytes)) }
        ensures ok { IfOk result
            (λ n. self.new ≡ after_transfer self.old n (drop n self.old.bytes)) }
    {
        if self.fuse == Some(0) {
            self.failed = true;
            return Err(DeviceFault);
        }
        let count = allowed(part.len().min(self.bytes.len()), self.at_once, self.fuse);
        part[..count].copy_from_slice(&self.bytes[..count]);
        self.bytes = &self.bytes[count..];
        self.fuse = remaining_after(self.fuse, count);
        Ok(count)
    }

    fn failed(&self) -> bool {
        self.failed
    }
}
