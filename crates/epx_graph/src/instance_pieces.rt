//! Pieces of the remaining instances, which workers gather.
ghost use Rattle.std.specs.Prelude.{◌≡◌, ◌≤◌, ◌+◌, ◌*◌, ◌^◌, [], IfOk};
ghost use Rattle.epx_graph.specs.inner.Nodes.{first_of_piece};

use epx_rows::Rows;
use epx_types::{Memory, Plan};
use std::alloc::Global;

/// A smaller piece would cost more time than it saves.
const FEWEST_IN_PIECE: usize = 2_048;

/// The number of pieces for each worker. If one starts late, the others gather its pieces.
const PIECES_PER_WORKER: usize = 4;

/// How the remaining instances are cut into pieces. All pieces have the same size, but the last
/// ones may be shorter or empty.
#[derive(Clone, Copy, Debug)]
pub(crate) struct InstancePieces {
    /// The number of remaining instances.
    pub(crate) instances: usize,
    /// The number of pieces.
    pub(crate) count: usize,
    /// The number of instances in a piece.
    pub(crate) size: usize,
    /// How many numbers to reserve room for in each row, on average.
    each: usize,
}

impl InstancePieces {
    /// One piece if the plan has one worker or if there are few instances. Room for `each` numbers
    /// is reserved in each row.
    pub(crate) fn new(plan: Plan, instances: usize, each: usize) -> InstancePieces
        ensures instances { result.instances ≡ instances }
        ensures few { result.count ≤ 2 ^ 40 }
        ensures all { instances ≤ result.count * result.size }
    {
        let workers = plan.workers();
        let most = if workers == 1 {
            1
        } else {
            workers * PIECES_PER_WORKER
        };
        let count = (instances / FEWEST_IN_PIECE).min(most).max(1);
        InstancePieces {
            instances,
            count,
            size: instances.div_ceil(count),
            each,
        }
    }

    /// The first instance of a piece, and the instance after its last one.
    pub(crate) fn range(&self, piece: usize) -> (usize, usize)
        ensures start { result.0 ≡ first_of_piece self.now.size self.now.instances piece }
        ensures end { result.1 ≡ first_of_piece self.now.size self.now.instances (piece + 1) }
    {
        let start = piece.saturating_mul(self.size).min(self.instances);
        let end = start + self.size.min(self.instances - start);
        (start, end)
    }

    /// No rows, with room for those of a piece. The first piece has room for all rows, so that it
    /// does not move when the others are appended.
    pub(crate) fn rows_for_piece(&self, alloc: Global, piece: usize) -> Result<Rows, Memory>
        ensures { IfOk result (λ rows. rows ≡ []) }
    {
        let rows = if piece == 0 {
            self.instances
        } else {
            self.size
        };
        Rows::with_capacity(alloc, rows, rows.saturating_mul(self.each))
    }
}
