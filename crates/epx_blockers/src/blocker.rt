//! A missing instance that blocks others.
use epx_types::Id;

/// A missing instance, the number of instances that it alone blocks, and the number of instances
/// that depend on it.
#[derive(Clone, Copy, Debug, PartialEq, Eq)]
pub struct Blocker {
    pub id: Id,
    pub alone: usize,
    pub named: usize,
}
