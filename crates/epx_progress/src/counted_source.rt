//! A source whose bytes are counted.
ghost use Rattle.std.specs.Prelude.{◌≡◌};

use crate::progress::Progress;
use epx_devices::{DeviceFault, Source};
use std::io::Eprint;
use std::marker::Model;
use std::rt::Clock;

/// Reads another source, and counts what it returns.
#[derive(Drop)]
pub struct CountedSource<'a, R, S> {
    source: S,
    progress: &'a Progress<'a, R>,
    has_begun: bool,
    has_ended: bool,
}

impl<'a, R, S> Model for CountedSource<'a, R, S> {
    ghost Value = { S };

    ghost view = { λ s. s.source };
}

impl<'a, R: Clock + Eprint, S: Source> CountedSource<'a, R, S> {
    /// Reads `source`. What is read of it from now on is counted in `progress`.
    pub fn new(source: S, progress: &'a Progress<'a, R>) -> CountedSource<'a, R, S>
        ensures { result ≡ source }
    {
        CountedSource {
            source,
            progress,
            has_begun: false,
            has_ended: false,
        }
    }

    /// Counts a read that had this much room and returned so many bytes.
    fn count(&mut self, room: usize, bytes: usize)
        ensures { self.new ≡ self.old }
    {
        if bytes > 0 {
            self.progress.add_bytes(bytes);
        } else if room > 0 && !self.has_ended {
            self.has_ended = true;
            self.progress.end_source();
        }
    }

    /// Counts the first read.
    fn begin(&mut self)
        ensures { self.new ≡ self.old }
    {
        if !self.has_begun {
            self.has_begun = true;
            self.progress.begin_source();
        }
    }
}

impl<'a, R: Clock + Eprint, S: Source> Source for CountedSource<'a, R, S> {
    ghost model = { S.model };

    ghost is_one_read = { S.is_one_read };

    fn read_some(&mut self, part: &mut [u8]) -> Result<usize, DeviceFault> {
        self.begin();
        match self.source.read_some(part) {
            Ok(count) => {
                self.count(part.len(), count);
                Ok(count)
            }
            Err(fault) => Err(fault),
        }
    }

    fn failed(&self) -> bool {
        self.source.failed()
    }
}
