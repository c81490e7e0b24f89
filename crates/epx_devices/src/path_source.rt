//! A source over the file at a path.
ghost use Rattle.std.specs.Prelude.{◌≡◌, true, false, take, length, None, IfOk, OnErr};
ghost use Rattle.std.specs.Prelude.{option_and_then};
ghost use Rattle.std.specs.Io.{ReadsAtMost};
ghost use Rattle.std.specs.Io.KnownBytes.{ReadConsumes};
ghost use Rattle.epx_devices.specs.Devices.{failed_after};
ghost use Rattle.epx_devices.specs.DeviceStates.{FailsPath, FailsPathYet, IsSamePath, ReadsPath};
ghost use Rattle.epx_devices.specs.DeviceStates.{path_source};
ghost use Rattle.epx_devices.specs.inner.PathReads.{path_is_one_read};

use crate::device::{DeviceFault, Source};
use crate::opener::Opener;
use std::marker::Model;

/// Reads the file at a path. The first read opens the file. So if the file cannot be opened, that
/// read fails, and a source that is never read opens nothing.
#[derive(Drop)]
pub struct PathSource<'a, O: Opener> {
    opener: &'a O,
    path: &'a str,
    file: Option<O::Opened>,
    failed: bool,
}

impl<'a, O: Opener> Model for PathSource<'a, O> {
    ghost use Rattle.epx_devices.specs.DeviceStates.{PathState};

    ghost Value = { PathState O O.Opened };

    ghost view = { λ s. record {
      opener = s.opener.now;
      path = s.path.now;
      file = s.file;
      failed = s.failed;
    } };
}

impl<'a, O: Opener> PathSource<'a, O> {
    /// Opens nothing: the first read opens the file.
    pub fn new(opener: &'a O, path: &'a str) -> PathSource<'a, O>
        ensures { result ≡ record {
          opener = opener.now;
          path = path.now;
          file = None;
          failed = false;
        } }
    {
        PathSource {
            opener,
            path,
            file: None,
            failed: false,
        }
    }

    /// Reads the next bytes of the file, and opens it first if it is not open.
    fn next_bytes(&mut self, part: &mut [u8]) -> Result<usize, DeviceFault>
        ensures bound { ReadsAtMost result part.new }
        ensures bytes { let left = option_and_then O.Opened.model.remaining self.new.file in
            ReadConsumes (option_and_then O.Opened.model.remaining self.old.file) left result
            part.new }
        ensures given { IfOk result (λ count. ReadsPath O.model O.Opened.model
            self.old (length part.new) (take count part.new) self.new) }
        ensures failing { OnErr result
            (FailsPathYet O.model O.Opened.model self.old self.new) }
        ensures failed { self.new.failed ≡ self.old.failed }
    {
        let mut file = match self.file.take() {
            Some(file) => file,
            None => self.opener.open(self.path)?,
        };
        let count = file.read_some(part);
        self.file = Some(file);
        count
    }
}

impl<'a, O: Opener> Source for PathSource<'a, O> {
    ghost model = { path_source O.model O.Opened.model };

    ghost is_one_read = { path_is_one_read O.model O.Opened.model O.Opened.is_one_read };

    fn read_some(&mut self, part: &mut [u8]) -> Result<usize, DeviceFault>
        ensures bound { ReadsAtMost result part.new }
        ensures bytes { let left = option_and_then O.Opened.model.remaining self.new.file in
            ReadConsumes (option_and_then O.Opened.model.remaining self.old.file) left result
            part.new }
        ensures delivered { IfOk result (λ n. ReadsPath O.model O.Opened.model
            self.old (length part.new) (take n part.new) self.new) }
        ensures failing { OnErr result
            (FailsPath O.model O.Opened.model self.old self.new) }
        ensures failures { self.new.failed ≡ failed_after self.old.failed result }

        ensures path { IsSamePath self.old self.new }
    {
        match self.next_bytes(part) {
            Ok(count) => Ok(count),
            Err(_) => {
                self.failed = true;
                Err(DeviceFault)
            }
        }
    }

    fn failed(&self) -> bool {
        self.failed
    }
}
