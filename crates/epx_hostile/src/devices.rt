//! Runs over logs of the greatest size, and over readers and writers that are interrupted.
use crate::expected_runs::{EMPTY_REPORT, ONE_LINE, ONE_LINE_REPORT, Wanted, is_right, plans};
use epx_tool::{MemorySink, MemorySource, StdSink, StdSource, run};
use epx_types::Fault;
use std::alloc::{AllocGlobal, Global};
use std::io::{self, Error, ErrorKind, Read, Write};
use std::process::Abort;
use std::random::RandomSource;
use std::test::Fail;
use std::thread::Threads;

/// Whether runs over a reader of `count` spaces have the expected result, for every plan.
fn run_over_spaces<R: AllocGlobal + Threads + RandomSource + Sync>(
    rt: &R,
    count: u64,
    wanted: Wanted,
) -> Result<bool, Fail> {
    for plan in plans()? {
        let mut sources = [StdSource::new(io::repeat(b' ').take(count))];
        let mut sink = MemorySink::new(rt.alloc());
        let outcome = run(rt, rt.alloc(), &mut sources, plan, &mut sink);
        if !is_right(outcome, sink.bytes(), wanted)? {
            return Ok(false);
        }
    }
    Ok(true)
}

#[test]
fn a_log_has_at_most_67108864_bytes(rt: HostRuntime) -> Result<(), Fail> {
    let too_long: Wanted = Err(Fault::LogTooLong { log: 0 });
    assert!(rt; run_over_spaces(&rt, 67_108_864, Ok(EMPTY_REPORT))?);
    assert!(rt; run_over_spaces(&rt, 67_108_865, too_long)?);
    assert!(rt; run_over_spaces(&rt, u64::MAX, too_long)?);
    Ok(())
}

/// A reader and writer of one byte a call, with `times` interruptions before each call that
/// succeeds.
#[derive(Drop)]
struct Interrupted<'a> {
    left: &'a [u8],
    taken: Vec<u8>,
    times: usize,
    interruptions_left: usize,
}

impl<'a> Interrupted<'a> {
    fn new(alloc: Global, left: &'a [u8], times: usize) -> Interrupted<'a> {
        Interrupted {
            left,
            taken: Vec::new(alloc),
            times,
            interruptions_left: times,
        }
    }

    /// Returns an error while interruptions are left before the next call.
    fn interrupt(&mut self) -> io::Result<()> {
        if self.interruptions_left > 0 {
            self.interruptions_left -= 1;
            return Err(Error::from(ErrorKind::Interrupted));
        }
        self.interruptions_left = self.times;
        Ok(())
    }
}

impl Read for Interrupted<'_> {
    fn read(&mut self, part: &mut [u8]) -> io::Result<usize> {
        self.interrupt()?;
        let count = self.left.len().min(part.len()).min(1);
        if count == 1 {
            part[0] = self.left[0];
            self.left = &self.left[1..];
        }
        Ok(count)
    }
}

impl Write for Interrupted<'_> {
    fn write(&mut self, part: &[u8]) -> io::Result<usize> {
        self.interrupt()?;
        if part.is_empty() || self.taken.push(part[0]).is_err() {
            return Ok(0);
        }
        Ok(1)
    }

    fn flush(&mut self) -> io::Result<()> {
        self.interrupt()
    }
}

/// Whether runs over a reader with `times` interruptions before each byte have the expected
/// result, for every plan.
fn run_over_interrupted<R: AllocGlobal + Threads + RandomSource + Sync>(
    rt: &R,
    times: usize,
    wanted: Wanted,
) -> Result<bool, Fail> {
    for plan in plans()? {
        let reader = Interrupted::new(rt.alloc(), ONE_LINE.as_bytes(), times);
        let mut sources = [StdSource::new(reader)];
        let mut sink = MemorySink::new(rt.alloc());
        let outcome = run(rt, rt.alloc(), &mut sources, plan, &mut sink);
        if !is_right(outcome, sink.bytes(), wanted)? {
            return Ok(false);
        }
    }
    Ok(true)
}

#[test]
fn interrupted_reads_are_made_again(rt: HostRuntime) -> Result<(), Fail> {
    assert!(rt; run_over_interrupted(&rt, 3, Ok(ONE_LINE_REPORT))?);
    Ok(())
}

#[test]
fn a_reader_that_is_always_interrupted(rt: HostRuntime) -> Result<(), Fail> {
    assert!(rt; run_over_interrupted(&rt, usize::MAX, Err(Fault::Read { log: 0 }))?);
    Ok(())
}

/// Whether runs with `times` interruptions before each byte written have the expected result, for
/// every plan.
fn run_to_interrupted<R: AllocGlobal + Threads + RandomSource + Sync>(
    rt: &R,
    times: usize,
    wanted: Wanted,
) -> Result<bool, Fail> {
    for plan in plans()? {
        let mut writer = Interrupted::new(rt.alloc(), &[], times);
        let mut sources = [MemorySource::new(ONE_LINE.as_bytes())];
        let mut sink = StdSink::new(&mut writer);
        let outcome = run(rt, rt.alloc(), &mut sources, plan, &mut sink);
        if !is_right(outcome, &writer.taken, wanted)? {
            return Ok(false);
        }
    }
    Ok(true)
}

#[test]
fn interrupted_writes_are_made_again(rt: HostRuntime) -> Result<(), Fail> {
    assert!(rt; run_to_interrupted(&rt, 3, Ok(ONE_LINE_REPORT))?);
    Ok(())
}

#[test]
fn a_writer_that_is_always_interrupted(rt: HostRuntime) -> Result<(), Fail> {
    assert!(rt; run_to_interrupted(&rt, usize::MAX, Err(Fault::Write))?);
    Ok(())
}
