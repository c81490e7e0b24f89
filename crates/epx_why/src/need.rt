//! An instance at the other end of a path.
use epx_types::Id;

/// An instance, and the number of steps of a shortest path to it or from it.
#[derive(Clone, Copy, Debug, PartialEq, Eq)]
pub struct Need {
    pub id: Id,
    pub steps: usize,
}
