//! What notes the lines of logs.
ghost use Rattle.std.specs.Prelude.{◌≡◌, ◌++◌, Bool, List, [], Result, IfOk, MatchResult};
ghost use Rattle.epx_types.specs.declared.fault.Why.{Why};
ghost use Rattle.epx_lines.specs.declared.Line.{Line};
ghost use Rattle.epx_merge.specs.between.LinePieces.{ArePiecesOf};
ghost use Rattle.epx_merge.specs.LogLines.{MeaningAt};
ghost use Rattle.epx_merge.specs.between.ReadFaults.{IsReadFault, refused_among};
ghost use Rattle.epx_merge.specs.between.RedundantLines.{DropsCached};

use crate::line::PlacedLine;
use crate::line_batch::LineBatch;
use crate::line_cache::LineCache;
use bumpalo::Bump;
use epx_types::{Fault, Memory};
use std::alloc::Global;

/// Notes the lines of logs, batch by batch. Workers read the pieces of a batch beside a cache of
/// earlier lines. Then one thread notes the pieces in order.
pub trait Notes {
    /// What a worker reads of a piece.
    type Piece: Send + Drop;

    /// What the workers share while they read.
    type Shared: Copy + Sync;

    // Whether bad lines are refused, so that the first of them ends reading. Where they are not,
    // they are noted as other lines are.
    ghost refuses_bad_lines: { Bool };

    // What the workers share, by what is noted.
    ghost shared_of: { Self → Self.Shared };

    // The piece is what is read of these lines beside this cache.
    ghost is_read: { Self.Shared → List (Result Line Why) → List MeaningAt → Self.Piece
        → Type 0 };

    // These lines are read. They are noted, except for those of these last pieces, and the cache
    // recognizes no others.
    ghost has_read: { List MeaningAt → Self → List (Result Line Why) → List Self.Piece
        → Type 0 };

    /// Whether a batch ends with each log. Otherwise only the first log ends its batch.
    // No clause: where batches end changes no answer.
    fn ends_batches_with_logs() -> bool;

    /// What the workers share.
    fn shared(&self) -> Self::Shared
        ensures { result ≡ shared_of self.now };

    /// Reads lines that the cache lacks. The first of the lines has this index in its batch.
    fn read(
        alloc: Global,
        shared: Self::Shared,
        cache: &LineCache<'_>,
        lines: &[PlacedLine<'_>],
        start: usize,
    ) -> Result<Self::Piece, Memory>
        ensures { IfOk result (is_read shared cache.now lines.now) };

    /// Notes the pieces in order.
    fn note(&mut self, pieces: Vec<Self::Piece>) -> Result<(), Fault>
        ensures shared { shared_of self.new ≡ shared_of self.old }
        ensures noted { (lines : List MeaningAt) (cache : List (Result Line Why))
            → has_read lines self.old cache pieces.items → MatchResult result
            (λ _. has_read lines self.new cache [])
            (IsReadFault (refused_among refuses_bad_lines lines)) };

    /// Puts lines of the batch, whose pieces these are, into the cache. Without room for copies it
    /// puts none there. It may note the pieces at once, and then leaves none.
    fn keep<'a>(
        &mut self,
        pieces: &mut Vec<Self::Piece>,
        batch: &LineBatch,
        cache: &mut LineCache<'a>,
        copies: Option<&'a Bump>,
    ) -> Result<(), Fault>
        ensures { (lines cut : List MeaningAt) → has_read lines self.old cache.old []
            → DropsCached [] cut batch.now
            → ArePiecesOf (is_read (shared_of self.old) cache.old) batch.now pieces.old.items
            → MatchResult result
            (λ _. has_read (lines ++ cut) self.new cache.new pieces.new.items)
            (IsReadFault (refused_among refuses_bad_lines (lines ++ cut))) };
}
