//! An opener of files whose bytes are counted.
ghost use Rattle.std.specs.Prelude.{◌≡◌};

use crate::counted_source::CountedSource;
use crate::progress::Progress;
use epx_devices::{DeviceFault, Opener};
use std::io::Eprint;
use std::marker::Model;
use std::rt::Clock;

/// Opens files by another opener.
#[derive(Drop)]
pub struct CountedOpener<'a, R, O> {
    opener: &'a O,
    progress: &'a Progress<'a, R>,
}

impl<'a, R, O> Model for CountedOpener<'a, R, O> {
    ghost Value = { O };

    ghost view = { λ s. s.opener.now };
}

impl<'a, R, O> CountedOpener<'a, R, O> {
    /// Opens files by `opener`. What is read of them is counted in `progress`.
    pub fn new(opener: &'a O, progress: &'a Progress<'a, R>) -> CountedOpener<'a, R, O>
        ensures { result ≡ opener.now }
    {
        CountedOpener { opener, progress }
    }
}

impl<'a, R: Clock + Eprint, O: Opener> Opener for CountedOpener<'a, R, O> {
    type Opened = CountedSource<'a, R, O::Opened>;

    ghost model = { O.model };

    fn open(&self, path: &str) -> Result<CountedSource<'a, R, O::Opened>, DeviceFault> {
        match self.opener.open(path) {
            Ok(file) => Ok(CountedSource::new(file, self.progress)),
            Err(fault) => Err(fault),
        }
    }
}
