//! The fresh lines of a batch, which go into the cache once the batch is read.
ghost use Rattle.epx_merge.specs.between.RedundantLines.{CachesSomeOf};

use crate::line_batch::LineBatch;
use crate::line_cache::LineCache;
use crate::pieces::{BadLine, Pieces, ReadPiece};
use bumpalo::Bump;

/// A line that the cache lacks: its index in the batch, and its hash. Both are only hints: a wrong
/// one can cost time, and changes no result.
#[derive(Clone, Copy, Debug)]
pub(crate) struct FreshLine {
    pub(crate) index: usize,
    pub(crate) hash: u64,
}

/// Puts a copy of a fresh line of the batch into the cache.
fn cache_copy<'a>(fresh: FreshLine, batch: &LineBatch, cache: &mut LineCache<'a>, copies: &'a Bump)
    ensures { CachesSomeOf batch.now cache.old cache.new }
{
    let Some(line) = batch.line(fresh.index) else {
        return;
    };
    let _kept = cache.insert_copy(fresh.hash, line.bytes(), copies);
}

/// Puts copies of the fresh lines of a piece into the cache.
fn cache_piece_copy<'a>(
    piece: &Result<ReadPiece, BadLine>,
    batch: &LineBatch,
    cache: &mut LineCache<'a>,
    copies: &'a Bump,
)
    ensures { CachesSomeOf batch.now cache.old cache.new }
{
    let Ok(piece) = piece else {
        return;
    };
    cache.make_room(&piece.fresh);
    for line in &piece.fresh {
        cache_copy(*line, batch, cache, copies);
    }
}

/// Puts copies of the fresh lines of all pieces of a batch into the cache. Without room for copies
/// it puts none there.
pub(crate) fn cache_batch_copy<'a>(
    pieces: &Pieces,
    batch: &LineBatch,
    cache: &mut LineCache<'a>,
    copies: Option<&'a Bump>,
)
    ensures { CachesSomeOf batch.now cache.old cache.new }
{
    let Some(copies) = copies else {
        return;
    };
    for piece in pieces {
        cache_piece_copy(piece, batch, cache, copies);
    }
}
