//! Traces of a key: which executed commands write it, and which only read it, with its values.
#![tactic(auto)]

mod command_keys;
mod execution;
pub mod laws;
mod touch;
mod trace;
mod trace_lines;

pub use execution::trace_of;
pub use touch::Touch;
pub use trace::trace_text;
