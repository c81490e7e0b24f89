//! Which streams are terminals, and what is read, where a person may expect something else.

use epx_tool::{Task, Words};
use std::io::Eprint;

/// What a stream is.
#[derive(Clone, Copy, Debug, PartialEq, Eq)]
pub enum StreamKind {
    Terminal,
    /// A pipe, a file, a device, or closed.
    Other,
}

/// What standard input and standard error are.
#[derive(Clone, Copy, Debug, PartialEq, Eq)]
pub struct Streams {
    pub input: StreamKind,
    pub errors: StreamKind,
}

const FROM_TERMINAL: &str =
    "epx: reading one log from this terminal, up to Ctrl-D; epx --help has the subcommands";

const FOLLOWED: &str =
    "epx: following one log from this terminal, up to Ctrl-D; a blank line ends a batch";

const NOTHING: &str = "epx: no LOG is named, so no log is read; the LOG - is standard input";

/// The line about what a task reads, if there is one.
fn reading_line(
    input: StreamKind,
    task: Task,
    paths: &Option<Vec<String>>,
) -> Option<&'static str> {
    match (input, paths) {
        (StreamKind::Terminal, None) => Some(FROM_TERMINAL),
        (_, Some(paths)) if paths.len() <= usize::from(task.has_input()) => Some(NOTHING),
        _ => None,
    }
}

/// The line about what is followed, if there is one.
fn following_line(input: StreamKind, paths: &Option<Vec<String>>) -> Option<&'static str> {
    match (input, paths) {
        (StreamKind::Terminal, None) => Some(FOLLOWED),
        _ => None,
    }
}

/// Writes a line to standard error where the words ask for one log from a terminal, or for no log.
pub(crate) fn warn_about_input(rt: &impl Eprint, input: StreamKind, words: &Words) {
    let line = match words {
        Words::Work { task, paths, .. } | Words::WorkWith { task, paths, .. } => {
            reading_line(input, *task, paths)
        }
        Words::Follow { paths, .. } => following_line(input, paths),
        Words::Text { .. } => None,
    };
    if let Some(line) = line {
        let _printed = eprintln!(rt; "{line}");
    }
}
