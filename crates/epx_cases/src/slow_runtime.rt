//! A runtime whose clock goes on by itself.

use std::alloc::Alloc;
use std::cell::Cell;
use std::fmt::Display;
use std::io::{self, Eprint, Print};
use std::rt::Clock;
use std::time::Duration;

/// Each look at the clock takes so many milliseconds.
const LOOK: u64 = 300;

/// The given runtime with a slow clock. Its standard error goes to standard output, with the
/// characters that move the cursor as escapes.
#[derive(Drop)]
pub(crate) struct SlowRuntime<'a, R> {
    rt: &'a R,
    looks: Cell<u64>,
}

impl<'a, R> SlowRuntime<'a, R> {
    pub(crate) fn new(rt: &'a R) -> SlowRuntime<'a, R> {
        SlowRuntime {
            rt,
            looks: Cell::new(0),
        }
    }
}

impl<R> Clock for SlowRuntime<'_, R> {
    fn monotonic(&self) -> io::Result<Duration> {
        let looks = self.looks.get();
        self.looks.set(looks.saturating_add(1));
        Ok(Duration::from_millis(looks.saturating_mul(LOOK)))
    }

    fn since_1970(&self) -> io::Result<Duration> {
        self.monotonic()
    }
}

impl<R: Alloc + Print> Eprint for SlowRuntime<'_, R> {
    fn eprint<D: Display + Drop>(&self, value: D) -> io::Result<()> {
        let text = format!(in self.rt.alloc(); "{value}")?;
        println!(self.rt; "{text:?}")
    }

    fn eprintln<D: Display + Drop>(&self, value: D) -> io::Result<()> {
        self.eprint(value)
    }
}
