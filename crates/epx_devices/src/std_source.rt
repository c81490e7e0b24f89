//! A source over std's readers.
ghost use Rattle.std.specs.Prelude.{◌≡◌, false, []};
ghost use Rattle.epx_devices.specs.DeviceStates.{reader_source};

use crate::device::{DeviceFault, Source};
use crate::retry::retry_read;
use crate::transferred::Transferred;
use std::io::Read;
use std::marker::Model;

/// Reads from any reader. An interrupted read is repeated, up to `MAX_RETRIES` times.
#[derive(Drop)]
pub struct StdSource<R> {
    reader: R,
    returned: Transferred,
    failed: bool,
}

impl<R> Model for StdSource<R> {
    ghost use Rattle.epx_devices.specs.DeviceStates.{ReaderState};

    ghost Value = { ReaderState R };

    ghost view = { λ s. record {
      reader = s.reader;
      returned = s.returned.bytes;
      failed = s.failed;
    } };
}

impl<R: Read> StdSource<R> {
    /// A source over the reader, from where the reader is now.
    pub fn new(reader: R) -> StdSource<R>
        ensures { result ≡ record { reader = reader; returned = []; failed = false } }
    {
        StdSource {
            reader,
            returned: Transferred::new(),
            failed: false,
        }
    }
}

impl<R: Read> Source for StdSource<R> {
    ghost model = { reader_source R.remaining };

    ghost is_one_read = { λ s room bytes t read. read.0 };

    fn read_some(&mut self, part: &mut [u8]) -> Result<usize, DeviceFault> {
        match retry_read(&mut self.reader, part) {
            Ok(count) => {
                self.returned.note(&part[..count]);
                Ok(count)
            }
            Err(_) => {
                self.failed = true;
                Err(DeviceFault)
            }
        }
    }

    fn failed(&self) -> bool {
        self.failed
    }
}
