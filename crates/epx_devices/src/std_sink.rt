//! A sink over std's writers.
ghost use Rattle.std.specs.Prelude.{◌≡◌, true, false, Some, [], OnOk};
ghost use Rattle.std.specs.Io.{WritesAtMost};
ghost use Rattle.std.specs.Io.KnownBytes.{Keeps, WriteAppends};
ghost use Rattle.epx_devices.specs.Devices.{AcceptsSome, failed_after};
ghost use Rattle.epx_devices.specs.DeviceStates.{writer_sink};

use crate::device::{DeviceFault, Sink};
use crate::retry::{retry_flush, retry_write};
use crate::transferred::Transferred;
use std::io::Write;
use std::marker::Model;

/// Writes to any writer. A write that accepts no byte of a part that is not empty counts as an
/// error. An interrupted call is repeated, up to `MAX_RETRIES` times.
#[derive(Drop)]
pub struct StdSink<W> {
    writer: W,
    taken: Transferred,
    flushed: bool,
    failed: bool,
}

impl<W> Model for StdSink<W> {
    ghost use Rattle.epx_devices.specs.DeviceStates.{WriterState};

    ghost Value = { WriterState W };

    ghost view = { λ s. record {
      writer = s.writer;
      taken = s.taken.bytes;
      flushed = s.flushed;
      failed = s.failed;
    } };
}

impl<W: Write> StdSink<W> {
    /// A sink over the writer. Its contents are what it accepts from now on.
    pub fn new(writer: W) -> StdSink<W>
        ensures { result
            ≡ record { writer = writer; taken = []; flushed = false; failed = false } }
    {
        StdSink {
            writer,
            taken: Transferred::new(),
            flushed: false,
            failed: false,
        }
    }

    /// The writer.
    pub fn writer(&self) -> &W
        ensures { result.now ≡ self.now.writer }
    {
        &self.writer
    }
}

impl<W: Write> Sink for StdSink<W> {
    ghost model = { writer_sink };

    fn write_some(&mut self, part: &[u8]) -> Result<usize, DeviceFault>
        ensures bound { WritesAtMost result part.now }
        ensures some { AcceptsSome result part.now }
        ensures bytes { WriteAppends (Some self.old.taken) (Some self.new.taken) result part.now }
        ensures failures { self.new.failed ≡ failed_after self.old.failed result }

        ensures written { WriteAppends (W.contents self.old.writer) (W.contents self.new.writer)
            result part.now }
    {
        self.flushed = false;
        match retry_write(&mut self.writer, part) {
            Ok(count) if count > 0 || part.is_empty() => {
                self.taken.note(&part[..count]);
                Ok(count)
            }
            _ => {
                self.failed = true;
                Err(DeviceFault)
            }
        }
    }

    fn flush(&mut self) -> Result<(), DeviceFault>
        ensures flushed { OnOk result (self.new.flushed ≡ true) }
        ensures bytes { Keeps (Some self.old.taken) (Some self.new.taken) }
        ensures failures { self.new.failed ≡ failed_after self.old.failed result }

        ensures kept { Keeps (W.contents self.old.writer) (W.contents self.new.writer) }
    {
        match retry_flush(&mut self.writer) {
            Ok(()) => {
                self.flushed = true;
                Ok(())
            }
            Err(_) => {
                self.failed = true;
                Err(DeviceFault)
            }
        }
    }

    fn failed(&self) -> bool {
        self.failed
    }
}
