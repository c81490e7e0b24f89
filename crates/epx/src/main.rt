//! The program `epx`: it does what its words ask for, over the logs that they name or standard
//! input.
#![tactic(auto)]

use epx_devices::{FileSaver, StdSink, StdSource};
use epx_program::{StreamKind, Streams, start};
use std::io::IsTerminal;
use std::process::ExitCode;
use std::{env, fs};

/// What a stream is.
fn kind_of(stream: &impl IsTerminal) -> StreamKind {
    if stream.is_terminal() {
        StreamKind::Terminal
    } else {
        StreamKind::Other
    }
}

/// Does what the words of the process ask for. Ends with the status of the answer or the fault.
fn main(rt: HostRuntime) -> ExitCode {
    // If standard input is closed, the first file that is opened gets its descriptor, and `-`
    // would read that file. So a folder is opened first: reading a folder always fails.
    let held = fs::open(&rt, "/");
    let streams = Streams {
        input: kind_of(&rt.stdin()),
        errors: kind_of(&rt.stderr()),
    };
    let mut output = StdSink::new(rt.stdout());
    let words = env::args(&rt);
    let mut saver = FileSaver::new(&rt);
    let status = start(
        &rt,
        &rt,
        &mut saver,
        words,
        streams,
        StdSource::new(rt.stdin()),
        &mut output,
    );
    drop(held);
    status
}
