//! The store, and the writes of commands put into it.
//!
//! Contracts see a store as one finite map. It has sixteen shards, which several threads can write.
#![tactic(auto)]

pub mod effect;
mod few_writes;
mod key_map;
pub mod merge;
mod ranges;
mod routes;
mod shards;
pub mod store;
mod tournament;

pub use effect::{Effect, Writes};
pub use few_writes::FewWrites;
pub use key_map::KeyMap;
pub use merge::merge_effects;
pub use store::Store;
