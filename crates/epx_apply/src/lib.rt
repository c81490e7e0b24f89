//! Applies commands in order, with several threads, and computes their conflict levels.
#![tactic(auto)]

mod key_seed;
pub mod key_table;
pub mod level_map;
mod one_by_one;
pub mod run;

pub use key_table::KeyTable;
pub use level_map::{LevelMap, levels};
pub use run::{run_from, run_order};
