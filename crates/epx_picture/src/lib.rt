//! Pictures of committed maps, and of what lies around an instance: dependency graphs in DOT, the
//! language of Graphviz.
#![tactic(auto)]

mod cluster;
mod drawing;
pub mod laws;
mod marked;
mod neighbourhood;
mod node_box;
mod picture_parts;
mod picture_writer;

pub use drawing::{picture, picture_around};
pub use node_box::NodeBox;
