//! Audits of committed maps: whether any two ready instances that conflict are related.
//!
//! If they are, all orders that the protocol allows have the same replies and the same store.
#![tactic(auto)]

mod audits;
mod batch;
mod conflicts;
mod doubtful_touches;
pub mod laws;
mod pair_marks;
mod path_cover;
mod quick_audit;
mod reach_index;
mod related;
mod search;
mod sharing_marks;
mod source_marks;
mod touches;
mod unsettled_nodes;

pub use audits::audit;
pub use pair_marks::related_pairs;
