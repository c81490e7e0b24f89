//! The rank of an instance, by which the execution order is sorted.
use epx_types::Id;

/// A ready instance and its sort key. Ranks are ordered by their fields, the first field first,
/// and the instances are executed in the order of their ranks.
#[derive(Clone, Copy, Debug, PartialEq, Eq, PartialOrd, Ord)]
pub struct Rank {
    pub depth: usize,
    pub leader: Id,
    pub seq: u64,
    pub id: Id,
}
