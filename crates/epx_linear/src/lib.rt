//! Reads histories of client calls, and says where one does not fit an execution order. `specs/`
//! defines the lines of a history, those of the answer, and what linear means.
#![tactic(auto)]

mod answer;
pub mod call_answers;
mod call_line;
mod call_places;
mod call_reader;
mod call_table;
mod call_tokens;
mod calls;
pub mod client_call;
mod history;
mod history_parts;
pub mod late_calls;
pub mod laws;
mod linear_lines;
mod lost_calls;
mod skew;
mod spans;

pub use answer::linear_text;
pub use calls::History;
pub use client_call::ClientCall;
pub use history::read_history;
