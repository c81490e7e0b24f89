//! What the words of a command line ask for.
use epx_tool::{Flags, Task, Words, read_words};
use epx_types::{Memory, Plan};
use std::alloc::Global;
use std::fmt::Debug;
use std::io::{self, ErrorKind};

/// What is done, with its plan, and the paths, one a line.
fn work_text<T: Debug + Drop>(
    alloc: Global,
    work: T,
    plan: Plan,
    ending: &str,
    paths: Option<Vec<String>>,
) -> io::Result<String> {
    let (workers, cut) = (plan.workers(), plan.cut());
    let mut text = format!(in alloc; "{work:?} with {workers} workers and cut {cut}{ending}\n")?;
    let Some(paths) = paths else {
        text.push_str("standard input\n")?;
        return Ok(text);
    };
    for path in &paths {
        text.push_str(path.as_str())?;
        text.push('\n')?;
    }
    Ok(text)
}

/// What the flags ask for.
fn flags_text(flags: Flags) -> &'static str {
    match (flags.exit_code, flags.explain, flags.quiet) {
        (false, false, false) => "",
        (true, false, false) => ", and a status of its own",
        (false, true, false) => ", and an explanation of a fault",
        (true, true, false) => ", a status of its own, and an explanation of a fault",
        (false, false, true) => ", and no progress",
        (true, false, true) => ", a status of its own, and no progress",
        (false, true, true) => ", an explanation of a fault, and no progress",
        (true, true, true) => ", a status of its own, an explanation of a fault, and no progress",
    }
}

/// The work that the words ask for. For a text, its status and its first line.
fn text_of(alloc: Global, words: Words) -> io::Result<String> {
    match words {
        Words::Text { text, status } => {
            let first = text.as_str().lines().next().unwrap_or("");
            Ok(format!(in alloc; "status {status}: {first}\n")?)
        }
        Words::Work { task, plan, paths } => work_text(alloc, task, plan, "", paths),
        Words::WorkWith {
            task,
            plan,
            paths,
            flags,
        } => work_text(alloc, task, plan, flags_text(flags), paths),
        Words::Follow {
            plan,
            paths,
            options,
        } => work_text(alloc, options, plan, "", paths),
    }
}

/// What these words ask for. Spaces separate the words.
pub(crate) fn words_text(alloc: Global, line: &str) -> io::Result<Vec<u8>> {
    let mut words = Vec::new(alloc);
    for word in line.split_whitespace() {
        words.push(word)?;
    }
    match read_words(alloc, &words) {
        Ok(words) => Ok(text_of(alloc, words)?.into_bytes()),
        Err(Memory) => Err(io::Error::from(ErrorKind::OutOfMemory)),
    }
}
