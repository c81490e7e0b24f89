//! Executes the instances of a list, and says where the replies and the store of a replica are
//! wrong. `specs/` defines what a replica says, and which lines its differences have.
#![tactic(auto)]

mod difference_lines;
mod differences;
mod execution;
pub mod laws;
mod said;
mod said_line;

pub use difference_lines::is_same_reply;
pub use differences::differences_text;
pub use execution::replay_text;
pub use said::{Said, read_said};
pub use said_line::read_reply;
