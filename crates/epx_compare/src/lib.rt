//! What logs say against each other: the lines of each, its bad lines, the instances that lines
//! commit differently, those that a log lacks, and the dependencies that no log commits.
#![tactic(auto)]

mod bad_lines;
mod catalog;
mod committed_ids;
mod comparison;
mod comparison_lines;
mod counts;
mod differences;
mod gap_lines;
mod gaps;
pub mod laws;
mod log_set;
mod members;
mod missing;

pub use comparison::{Comparison, compare, compare_sources};
