//! Explains answers to a person: why a list is not lawful, what a resumed run does not know, and
//! why a trace has no line. No clause says what the texts are: each function returns for every
//! input, and breaks no rule on the way.
#![tactic(auto)]

mod base_waiters;
mod early;
mod explain;
mod key_users;
mod left_out;
mod list_nodes;
mod listed;
mod missing;
mod path;
mod resume;
mod search;
mod sequence;
mod stranger;
mod trace;
mod verdict;
mod verdict_line;

pub use explain::explain_answer;
pub use resume::explain_resume;
pub use trace::explain_trace;
pub use verdict::explain_verdict;
