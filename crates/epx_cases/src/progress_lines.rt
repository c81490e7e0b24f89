//! The lines that say how far a run is.

use crate::slow_runtime::SlowRuntime;
use epx_devices::{MemorySource, Source};
use epx_progress::{CountedSource, Job, Progress};
use epx_tool::Task;
use std::alloc::Alloc;
use std::io::{self, Print};

/// Reads a source in parts of this many bytes.
const PART: usize = 5;

/// Reads a source up to its end.
fn read_all(source: &mut impl Source) {
    let mut part = [0; PART];
    for _ in 0..=u8::MAX {
        match source.read_some(&mut part) {
            Ok(0) | Err(_) => return,
            Ok(_) => {}
        }
    }
}

/// Prints the lines of a task over two sources, where each look at the clock takes 300
/// milliseconds.
pub(crate) fn print_progress<R: Alloc + Print>(
    rt: &R,
    task: Task,
    total: Option<u64>,
) -> io::Result<()> {
    println!(rt; "== {task:?} over two sources, with {total:?} bytes")?;
    let slow = SlowRuntime::new(rt);
    let progress = Progress::new(&slow, Some(Job::new(task, 2, total)));
    read_all(&mut CountedSource::new(MemorySource::new(&[0; 10]), &progress));
    read_all(&mut CountedSource::new(MemorySource::new(&[0; 10]), &progress));
    progress.end();
    progress.end();
    Ok(())
}
