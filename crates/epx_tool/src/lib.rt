//! From the bytes of logs to the text of a report or a view, runs over devices, and the program's
//! words. Devices and words have crates of their own. This crate re-exports them.
#![tactic(auto)]

mod answer_task;
mod answers;
mod ask;
mod checked_runs;
mod client_calls;
mod findings;
pub mod laws;
mod map_texts;
mod question;
mod read_both;
mod resumed_runs;
mod runs;
mod task_runs;
mod verdict;

pub use answers::{answer, answer_texts, check, resume, view};
pub use ask::Ask;
pub use checked_runs::run_check;
pub use epx_devices::{
    DeviceFault, FuseSink, FuseSource, MemorySink, MemorySource, PathSource, Sink, Source, StdSink,
    StdSource, read_log, write_out,
};
pub use epx_names::{KeyName, Task, read_id};
pub use epx_words::{Flags, Words, read_words};
pub use findings::Answer;
pub use resumed_runs::run_resume;
pub use runs::{run, show};
pub use task_runs::{run_shown, run_task};
