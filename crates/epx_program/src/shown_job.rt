//! Of which work a line says how far it is.

use crate::streams::{StreamKind, Streams};
use epx_progress::Job;
use epx_tool::{Flags, Task};
use std::fs;
use std::rt::Files;

/// The path that means the input.
const INPUT: &str = "-";

/// How many bytes the files at the paths have, if each leads to a file. The input may be a pipe.
fn bytes_at<R: Files>(rt: &R, paths: &[String]) -> Option<u64> {
    let mut total: u64 = 0;
    for path in paths {
        match fs::metadata(rt, path.as_str()) {
            Ok(data) if data.is_file() && path.as_str() != INPUT => {
                total = total.saturating_add(data.len());
            }
            _ => return None,
        }
    }
    Some(total)
}

/// Whether the input is read.
fn reads_input(paths: &Option<Vec<String>>) -> bool {
    match paths {
        Some(paths) => paths.iter().any(|path| path.as_str() == INPUT),
        None => true,
    }
}

/// The work of which a line says how far it is: none without a terminal to write it to, with
/// `--quiet`, and where a person types a log.
pub(crate) fn job_of<R: Files>(
    rt: &R,
    streams: Streams,
    flags: Flags,
    task: Task,
    paths: &Option<Vec<String>>,
) -> Option<Job> {
    let typed = streams.input == StreamKind::Terminal && reads_input(paths);
    if flags.quiet || typed || streams.errors != StreamKind::Terminal {
        return None;
    }
    match paths {
        Some(paths) => Some(Job::new(task, paths.len() as u64, bytes_at(rt, paths))),
        None => Some(Job::new(task, 1, None)),
    }
}
