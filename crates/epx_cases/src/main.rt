//! Runs the cases of the scripts that its words name, and then `epx` with several lists of words.
//! It prints what `epx` writes to standard output and to standard error, its exit status, and the
//! states that it saves.
#![tactic(auto)]

mod asked_task;
mod case;
mod case_input;
mod directive;
mod flow;
mod line;
mod meaning;
mod outcome;
mod progress_lines;
mod script;
mod slow_runtime;
mod state;
mod test_runtime;
mod word_lists;
mod words;

use crate::progress_lines::print_progress;
use crate::script::run_scripts;
use crate::test_runtime::TestRuntime;
use crate::word_lists::{calls_of, lists_with_input, words_of};
use epx_devices::{MemorySaver, StdSink, StdSource};
use epx_program::{StreamKind, Streams, start};
use epx_tool::Task;
use std::alloc::Alloc;
use std::io::{self, ErrorKind, Print};
use std::process::ExitCode;
use std::{env, fs};

/// The log that `epx` has as its input.
const INPUT: &str =
    "{\"r\":9,\"i\":0,\"seq\":1,\"deps\":[],\"ops\":[[\"put\",\"a\",5],[\"get\",\"a\"]]}\n";

/// A call has room for so many bytes of a state, where nothing else is said.
const ROOM: usize = 1 << 20;

/// Prints the status of a call, and what it saved.
fn print_end<R: Alloc + Print>(rt: &R, status: ExitCode, saver: &MemorySaver) -> io::Result<()> {
    println!(rt; "== {status:?}")?;
    for (path, bytes) in saver.files() {
        let text = String::from_utf8_lossy(rt.alloc(), bytes)?;
        println!(rt; "== saved as {path}\n{text}")?;
    }
    Ok(())
}

fn main(rt: HostRuntime) -> io::Result<ExitCode> {
    if run_scripts(&rt)? {
        return Ok(ExitCode::SUCCESS);
    }

    let other = StreamKind::Other;
    let streams = Streams {
        input: other,
        errors: other,
    };
    let calls = calls_of(rt.alloc(), fs::read_to_string(&rt, "calls.txt")?.as_str())?;
    for call in calls.as_str().lines() {
        let words = &words_of(rt.alloc(), call)?;
        println!(rt; "== {words:?}")?;
        let host = TestRuntime { rt: &rt, words };
        let args = env::args(&host);
        let input = StdSource::new(rt.stdin());
        let mut output = StdSink::new(rt.stdout());
        let mut saver = MemorySaver::new(rt.alloc(), ROOM);
        let status = start(&host, &host, &mut saver, args, streams, input, &mut output);
        print_end(&rt, status, &saver)?;
    }

    println!(rt; "== with a log as input")?;
    for (words, kind) in lists_with_input() {
        println!(rt; "== {kind:?}\n== {words:?}")?;
        let streams = Streams {
            input: kind,
            errors: other,
        };
        let host = TestRuntime { rt: &rt, words };
        let args = env::args(&host);
        let input = StdSource::new(INPUT.as_bytes());
        let mut output = StdSink::new(rt.stdout());
        let mut saver = MemorySaver::new(rt.alloc(), ROOM);
        let status = start(&host, &host, &mut saver, args, streams, input, &mut output);
        print_end(&rt, status, &saver)?;
    }

    println!(rt; "== how far a run is, where each look at the clock takes 300 milliseconds")?;
    print_progress(&rt, Task::Run, Some(20))?;
    print_progress(&rt, Task::Check, None)?;
    print_progress(&rt, Task::Audit, Some(0))?;

    let line = "epx follow --explain --save full.state follow/begun.jsonl";
    let words = &words_of(rt.alloc(), line)?;
    println!(rt; "== room for ten bytes of a state\n== {words:?}")?;
    let host = TestRuntime { rt: &rt, words };
    let args = env::args(&host);
    let input = StdSource::new(rt.stdin());
    let mut output = StdSink::new(rt.stdout());
    let mut saver = MemorySaver::new(rt.alloc(), 10);
    let status = start(&host, &host, &mut saver, args, streams, input, &mut output);
    print_end(&rt, status, &saver)?;

    println!(rt; "== words that could not be had as memory ran out")?;
    let words: &[&str] = &["epx", "run", "--explain"];
    let host = TestRuntime { rt: &rt, words };
    let failed = Err(io::Error::from(ErrorKind::OutOfMemory));
    let input = StdSource::new(rt.stdin());
    let mut output = StdSink::new(rt.stdout());
    let status = start(
        &host,
        &host,
        &mut saver,
        failed,
        streams,
        input,
        &mut output,
    );
    println!(rt; "== {status:?}")?;

    println!(rt; "== room for ten bytes of output\n== {words:?}")?;
    let args = env::args(&host);
    let input = StdSource::new(rt.stdin());
    let mut room = [0; 10];
    let mut output = StdSink::new(room.as_mut_slice());
    let status = start(&host, &host, &mut saver, args, streams, input, &mut output);
    println!(rt; "== {status:?}\n== taken: {room:?}")?;
    Ok(status)
}
