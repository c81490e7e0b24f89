//! The command line of the program: the task, the plan and the paths that it asks for, or a text
//! to print if it asks for help or is refused.
#![tactic(auto)]

mod commands;
mod read;
mod task_of;
mod words;

pub use epx_names::Task;
pub use read::read_words;
pub use words::{Flags, FollowOptions, Words};
