//! Why an instance is executed where it is, or why it is not executed; and by which path of
//! dependencies one instance reaches another.
#![tactic(auto)]

pub mod laws;
mod need;
mod node_needs;
mod path;
mod walk;
mod why;
mod why_lines;

pub use need::Need;
pub use path::path_text;
pub use why::{ready_text, unready_text, why_text};
