//! Executes the lines of logs as they come. A blank line ends a batch: then what is ready is
//! executed, and the replies are written.
#![tactic(auto)]

mod batch_text;
mod first_places;
mod follow_logs;
mod follower;
mod held_lines;
pub mod laws;
mod line_places;
mod lines_ahead;
mod take_lines;

pub use follow_logs::follow;
pub use follower::Follower;
