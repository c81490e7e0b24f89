//! Which missing instances to recover first: how many instances wait for each one alone, how many
//! depend on it, and how many wait for several.
#![tactic(auto)]

mod blocker;
mod blocker_lines;
mod blockers;
pub mod laws;
mod named;
mod reached;
mod waiting;

pub use blocker::Blocker;
pub use blockers::blockers_text;
