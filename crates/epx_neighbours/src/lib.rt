//! All pairs of executed instances that are neighbours on a key and of which neither reaches the
//! other: what to mend so that a map is covered.
#![tactic(auto)]

mod key_numbers;
mod key_touch;
pub mod laws;
mod neighbours;
mod uncovered;
mod uncovered_lines;
mod uncovered_row;

pub use uncovered::uncovered_text;
