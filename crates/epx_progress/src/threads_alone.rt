//! A runtime that shows nothing.

use std::fmt::Display;
use std::io::{self, Eprint, ErrorKind};
use std::rt::Clock;
use std::thread::Threads;
use std::time::Duration;

/// The threads of another runtime, without a clock and without standard error.
#[derive(Clone, Copy)]
pub struct ThreadsAlone<'a, R> {
    rt: &'a R,
}

impl<'a, R> ThreadsAlone<'a, R> {
    /// The threads of `rt`, without its clock and its standard error.
    pub fn new(rt: &'a R) -> ThreadsAlone<'a, R> {
        ThreadsAlone { rt }
    }
}

impl<R: Threads> Threads for ThreadsAlone<'_, R> {}

impl<R> Clock for ThreadsAlone<'_, R> {
    fn monotonic(&self) -> io::Result<Duration> {
        Err(io::Error::from(ErrorKind::Unsupported))
    }

    fn since_1970(&self) -> io::Result<Duration> {
        Err(io::Error::from(ErrorKind::Unsupported))
    }
}

impl<R> Eprint for ThreadsAlone<'_, R> {
    fn eprint<D: Display + Drop>(&self, _value: D) -> io::Result<()> {
        Ok(())
    }

    fn eprintln<D: Display + Drop>(&self, _value: D) -> io::Result<()> {
        Ok(())
    }
}
