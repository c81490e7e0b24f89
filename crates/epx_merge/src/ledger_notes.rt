//! The ledger of the committed map notes the lines of logs.
ghost use Rattle.std.specs.Prelude.{◌++◌, true, List, [], Result, MatchResult};
ghost use Rattle.epx_types.specs.declared.fault.Why.{Why};
ghost use Rattle.epx_lines.specs.declared.Line.{Line};
ghost use Rattle.epx_merge.specs.between.LedgerNotes.{AreReadUpTo};
ghost use Rattle.epx_merge.specs.LogLines.{MeaningAt, bad_lines_among};
ghost use Rattle.epx_merge.specs.between.ReadFaults.{IsReadFault};
ghost use Rattle.epx_merge.specs.between.ReadPieces.{AreReadBeside, IsReadBeside, HasEntries};
ghost use Rattle.epx_merge.specs.between.RedundantLines.{DropsCached};

use crate::fresh_line::cache_batch_copy;
use crate::line::PlacedLine;
use crate::line_batch::LineBatch;
use crate::line_cache::LineCache;
use crate::notes::Notes;
use crate::pieces::{BadLine, Pieces, ReadPiece, note_pieces, read_lines};
use bumpalo::Bump;
use epx_committed::Ledger;
use epx_seed::Seed;
use epx_types::{Fault, Memory};
use std::alloc::Global;
use std::random::RandomSource;

/// A ledger of no lines.
pub fn empty_ledger<R: RandomSource>(rt: &R, alloc: Global) -> Ledger
    ensures { AreReadUpTo [] result [] [] }
{
    Ledger::new(alloc, Seed::draw(rt))
}

/// The entries of a batch stay pending, so that they are noted while the next batch is read.
impl Notes for Ledger {
    type Piece = Result<ReadPiece, BadLine>;

    type Shared = ();

    ghost refuses_bad_lines = { true };

    ghost shared_of = { λ _. tt };

    ghost is_read = { λ _ cache lines piece. IsReadBeside HasEntries cache lines piece };

    ghost has_read = { AreReadUpTo };

    fn ends_batches_with_logs() -> bool {
        false
    }

    fn shared(&self) {}

    fn read(
        alloc: Global,
        _shared: (),
        cache: &LineCache<'_>,
        lines: &[PlacedLine<'_>],
        start: usize,
    ) -> Result<Result<ReadPiece, BadLine>, Memory> {
        read_lines(alloc, cache, lines, start)
    }

    fn note(&mut self, pieces: Pieces) -> Result<(), Fault>
        ensures noted { (lines : List MeaningAt) (cache : List (Result Line Why))
            → AreReadUpTo lines self.old cache pieces.items → MatchResult result
            (λ _. AreReadUpTo lines self.new cache []) (IsReadFault (bad_lines_among lines)) }
    {
        note_pieces(pieces, self)
    }

    fn keep<'a>(
        &mut self,
        pieces: &mut Pieces,
        batch: &LineBatch,
        cache: &mut LineCache<'a>,
        copies: Option<&'a Bump>,
    ) -> Result<(), Fault>
        ensures { (lines cut : List MeaningAt) → AreReadUpTo lines self.old cache.old []
            → DropsCached [] cut batch.now
            → AreReadBeside HasEntries cache.old batch.now pieces.old.items
            → MatchResult result
            (λ _. AreReadUpTo (lines ++ cut) self.new cache.new pieces.new.items)
            (IsReadFault (bad_lines_among (lines ++ cut))) }
    {
        cache_batch_copy(pieces, batch, cache, copies);
        Ok(())
    }
}
