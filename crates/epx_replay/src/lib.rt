//! Executes the commands of instances in order, and writes their reply lines, and the lines of the
//! store. With several workers the reply lines of one batch are written while the next batch is
//! executed.
#![tactic(auto)]

mod batches;
mod commands;
mod reply_parts;
mod store_lines;

pub use batches::replay;
pub use commands::all_commands;
pub use store_lines::append_store_lines;
