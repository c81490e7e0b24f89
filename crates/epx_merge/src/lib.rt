//! Reading logs: the map that they commit, or the first refusal.
#![tactic(auto)]

mod batch_lens;
mod fresh_line;
mod gathered_lines;
pub mod laws;
mod ledger_notes;
mod limits;
mod line;
mod line_batch;
mod line_cache;
mod log_reader;
mod logs_in_memory;
mod merged_sources;
mod noted_sources;
mod notes;
mod pieces;
mod split_lines;

pub use batch_lens::batch_len;
pub use epx_committed::{Merged, PositionHints, from_entries};
pub use epx_types::limits::{MAX_INSTANCES, MAX_LOG_BYTES, MAX_LOGS};
pub use ledger_notes::empty_ledger;
pub use limits::first_too_long;
pub use line::PlacedLine;
pub use line_batch::LineBatch;
pub use line_cache::LineCache;
pub use log_reader::LogReader;
pub use logs_in_memory::memory_sources;
pub use merged_sources::{merge_noted, merge_sources, read_logs};
pub use noted_sources::note_sources;
pub use notes::Notes;
pub use split_lines::lines_end;
