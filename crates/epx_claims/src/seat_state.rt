//! The state of a seat, and the terms of a table of claims. Only the terms exist when the program
//! runs; the other types are used by specifications.
use std::collections::LinkedList;

/// The pieces that a seat has drawn, in order; its share, in workers; and whether it has ended.
pub struct SeatState {
    pub drawn: LinkedList<u64>,
    pub share: usize,
    pub ended: bool,
}

/// The number of pieces, and the number of workers: at most so many seats exist at once.
#[derive(Clone, Copy)]
pub struct Terms {
    pub pieces: u64,
    pub workers: usize,
}

/// The terms, and the states that a seat holds: one; two during a split or a join; none once it is
/// spent.
pub struct View {
    pub terms: Terms,
    pub seat_states: LinkedList<SeatState>,
}
