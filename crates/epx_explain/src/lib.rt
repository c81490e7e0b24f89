//! Explains faults and comparisons to a person: which file it is, where in it, and what was
//! expected. No clause says what the texts are: each function returns for every input, and breaks
//! no rule on the way.
#![tactic(auto)]

mod answer;
mod base_line;
mod comparison;
mod contents;
mod differences;
mod explain;
mod input_kind;
mod inputs;
mod log_line;
mod reading;

pub use comparison::explain_comparison;
pub use contents::{Contents, read_first_again};
pub use explain::explain_fault;
pub use inputs::Inputs;
