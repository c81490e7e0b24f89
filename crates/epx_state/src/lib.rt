//! The state of an executor as a text: what it executed, what waits, and its store. `specs/`
//! defines the lines of a state.
#![tactic(auto)]

mod forms;
pub mod laws;
mod progress;
mod read;
mod restore;
mod start;
mod write;

pub use read::read_state;
pub use start::read_start;
pub use write::state_text;
