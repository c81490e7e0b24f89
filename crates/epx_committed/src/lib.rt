//! The committed map of entries: lists of lines are noted, and give the map that they commit, or
//! the fault for which they commit none.
#![tactic(auto)]

mod commands;
mod entries;
mod ledger;
mod line_index;
mod merged;
mod number_marks;
mod number_ranges;
mod placed;
mod position_hints;
mod rows;
pub mod same_entry;

pub use commands::commands_of;
pub use entries::from_entries;
pub use epx_types::limits::MAX_INSTANCES;
pub use ledger::Ledger;
pub use merged::Merged;
pub use placed::PlacedEntry;
pub use position_hints::PositionHints;
