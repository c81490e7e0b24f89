//! What opens the files at paths.
ghost use Rattle.std.specs.Prelude.{IfOk, OnErr};
ghost use Rattle.epx_devices.specs.DeviceStates.{file_opener};
ghost use Rattle.epx_devices.specs.Models.{OpenerModel};

use crate::device::{DeviceFault, Source};
use crate::std_source::StdSource;
use std::fs;
use std::rt::Files;

/// Opens the file at a path as a source.
pub trait Opener {
    type Opened: Source + Drop;

    // What is known of the opener. Generic code can get the fact `opens` only from a call of
    // `open`. So it is what a source is as it was opened, and not one that has been read.
    ghost model: { OpenerModel Self Self.Opened };

    /// Opens the file at the path, and reads nothing.
    fn open(&self, path: &str) -> Result<Self::Opened, DeviceFault>
        ensures opened { IfOk result (λ file. model.opens self.now path.now file) }
        ensures refused { OnErr result (model.refuses self.now path.now) };
}

/// Files of the system. No contract of the system says which file is at a path.
impl<R: Files> Opener for R {
    type Opened = StdSource<R::File>;

    ghost model = { file_opener };

    fn open(&self, path: &str) -> Result<StdSource<R::File>, DeviceFault> {
        match fs::open(self, path) {
            Ok(file) => Ok(StdSource::new(file)),
            Err(_) => Err(DeviceFault),
        }
    }
}
