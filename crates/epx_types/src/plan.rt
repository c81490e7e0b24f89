//! Plans: how many workers share the work, and into which pieces it is cut.
ghost use Rattle.std.specs.Prelude.{◌≡◌, ◌<◌, ◌↔◌, IsSome, IfSome};
ghost use Rattle.epx_types.specs.Pieces.{IsWithinLimits, piece_count, piece_start, piece_end};

use std::marker::Model;

/// A plan has at most this many workers.
pub const MAX_WORKERS: usize = 64;

/// A piece of work has at most this many items.
pub const MAX_CUT: usize = 65_536;

/// The number of workers, 1 to 64, and the number of items in a piece of work, 1 to 65,536.
#[derive(Clone, Copy, Debug, PartialEq, Eq)]
pub struct Plan {
    workers: usize,
    cut: usize,
}

impl Model for Plan {
    ghost use Rattle.epx_types.specs.Pieces.{PlanNumbers, IsWithinLimits};

    ghost Value = { PlanNumbers };

    ghost view = { λ p. record { workers = p.workers; cut = p.cut } };

    ghost invariant = { λ p. IsWithinLimits (record { workers = p.workers; cut = p.cut }) };

    ghost inverse = { λ v. record { workers = v.workers; cut = v.cut } };
}

impl Plan {
    /// None if a number is outside its limits.
    pub fn new(workers: usize, cut: usize) -> Option<Plan>
        ensures fits { IsSome result ↔ IsWithinLimits (record { workers = workers; cut = cut }) }
        ensures plan { IfSome result (λ p. p ≡ record { workers = workers; cut = cut }) }
    {
        if workers == 0 || workers > MAX_WORKERS || cut == 0 || cut > MAX_CUT {
            return None;
        }
        Some(Plan { workers, cut })
    }

    /// The number of workers. The caller's thread is one of them.
    pub fn workers(&self) -> usize
        ensures workers { result ≡ self.now.workers }
        ensures fits { IsWithinLimits self.now }
    {
        self.workers
    }

    /// The number of items in a piece. The last piece may have fewer.
    pub fn cut(&self) -> usize
        ensures cut { result ≡ self.now.cut }
        ensures fits { IsWithinLimits self.now }
    {
        self.cut
    }

    /// The number of pieces into which `items` items are cut.
    pub fn pieces(&self, items: usize) -> usize
        ensures pieces { result ≡ piece_count self.now.cut items }
        ensures fits { IsWithinLimits self.now }
    {
        let Plan { cut, .. } = *self;
        items.div_ceil(cut)
    }

    /// The first item of a piece, and the item after its last one.
    pub fn range(&self, piece: usize, items: usize) -> (usize, usize)
        requires { piece < piece_count self.now.cut items }
        ensures start { result.0 ≡ piece_start self.now.cut piece }
        ensures end { result.1 ≡ piece_end self.now.cut items piece }
    {
        let Plan { cut, .. } = *self;
        let start = piece * cut;
        let end = if items - start > cut {
            start + cut
        } else {
            items
        };
        (start, end)
    }
}
