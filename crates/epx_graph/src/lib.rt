//! The dependency graph of a committed map, or of what is left of one, the instances that wait, and
//! distances in the graph.
#![tactic(auto)]

mod build_graph;
mod dependency_rows;
mod distances;
mod graph;
mod instance_pieces;
pub mod laws;
mod neighbours;
mod remainder;
mod search;
mod waiters;

pub use build_graph::{build, build_after};
pub use distances::{distances_from, distances_to};
pub use graph::Graph;
pub use waiters::{Waiter, waiting};
