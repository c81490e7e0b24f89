//! Sources, from which logs are read, and sinks, to which reports are written.
ghost use Rattle.std.specs.Prelude.{◌≡◌, true, IfOk, OnOk, OnErr, length, take};
ghost use Rattle.std.specs.Io.{ReadsAtMost, WritesAtMost};
ghost use Rattle.std.specs.Io.KnownBytes.{Keeps, ReadConsumes, WriteAppends};
ghost use Rattle.epx_devices.specs.Devices.{AcceptsSome, failed_after};
ghost use Rattle.epx_devices.specs.Models.{SinkModel, SourceModel};
ghost use Rattle.epx_devices.specs.Reads.{AreOneReads};

/// A call on a device failed.
#[derive(Clone, Copy, Debug, PartialEq, Eq)]
pub struct DeviceFault;

/// A device from which bytes are read.
pub trait Source {
    // What is known of the source. Generic code can get the facts `reads` and `fails` only from a
    // call of `read_some`. So they relate an answer to the bytes that were read, also for files,
    // whose bytes are not known before.
    ghost model: { SourceModel Self };

    /// Writes the next bytes to the front of `part` and returns how many. If `part` is not empty,
    /// the number is 0 only at the end of the source. Fails if the device fails.
    fn read_some(&mut self, part: &mut [u8]) -> Result<usize, DeviceFault>
        ensures bound { ReadsAtMost result part.new }
        ensures bytes { ReadConsumes (model.remaining self.old) (model.remaining self.new) result
            part.new }
        ensures delivered { IfOk result (λ n.
            model.reads self.old (length part.new) (take n part.new) self.new) }
        ensures failing { OnErr result (model.fails self.old self.new) }
        ensures failures { model.has_failed self.new
            ≡ failed_after (model.has_failed self.old) result };

    /// Whether a call has returned an error.
    fn failed(&self) -> bool
        ensures { result ≡ model.has_failed self.now };

    // No source says less of a read than this.
    ghost is_one_read: { AreOneReads model };
}

/// A device to which bytes are written.
pub trait Sink {
    // What is known of the sink.
    ghost model: { SinkModel Self };

    /// Accepts the first bytes of `part` and returns how many: at least 1 if `part` is not empty.
    /// Fails if the device fails.
    fn write_some(&mut self, part: &[u8]) -> Result<usize, DeviceFault>
        ensures bound { WritesAtMost result part.now }
        ensures some { AcceptsSome result part.now }
        ensures bytes { WriteAppends (model.contents self.old) (model.contents self.new) result
            part.now }
        ensures failures { model.has_failed self.new
            ≡ failed_after (model.has_failed self.old) result };

    /// Writes out the bytes that the sink buffers. Fails if the device fails.
    fn flush(&mut self) -> Result<(), DeviceFault>
        ensures flushed { OnOk result (model.is_flushed self.new ≡ true) }
        ensures bytes { Keeps (model.contents self.old) (model.contents self.new) }
        ensures failures { model.has_failed self.new
            ≡ failed_after (model.has_failed self.old) result };

    /// Whether a call has returned an error.
    fn failed(&self) -> bool
        ensures { result ≡ model.has_failed self.now };
}
