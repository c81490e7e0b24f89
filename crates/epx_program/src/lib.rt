//! What the program `epx` does, as a library, so that other programs can call it too.
#![tactic(auto)]

mod do_follow;
mod do_task;
mod exit_report;
mod explain;
mod inputs;
mod program;
mod read_args;
mod read_state;
mod shown_job;
pub mod streams;

pub use program::{execute_words, start};
pub use streams::{StreamKind, Streams};
