//! Pieces of a batch, which workers read.
ghost use Rattle.std.specs.Prelude.{◌≡◌, ◌++◌, ◌∷◌, List, [], IfOk, MatchOption};
ghost use Rattle.std.specs.Prelude.{MatchResult};
ghost use Rattle.epx_merge.specs.LogLines.{MeaningAt, placed_at, placed_among, bad_lines_at};
ghost use Rattle.epx_merge.specs.LogLines.{bad_lines_among};
ghost use Rattle.epx_merge.specs.between.ReadPieces.{AreRead, HasEntries, IsReadBeside};
ghost use Rattle.epx_merge.specs.between.ReadPieces.{SkipsOrReads};
ghost use Rattle.epx_committed.specs.between.Ledgers.{NotesLines};
ghost use Rattle.epx_merge.specs.between.ReadFaults.{IsReadFault};

use crate::fresh_line::FreshLine;
use crate::line::PlacedLine;
use crate::line_cache::LineCache;
use epx_committed::{Ledger, PlacedEntry};
use epx_lines::{Line, LineFault, LineReader};
use epx_types::{Fault, Memory, Place, Why};
use std::alloc::Global;

/// A line with a fault, and its reason.
#[derive(Clone, Copy, Debug)]
pub struct BadLine {
    pub(crate) place: Place,
    pub(crate) why: Why,
}

/// What a worker read of a piece: the entries, and which lines the cache lacks.
#[derive(Debug, Drop)]
pub struct ReadPiece {
    pub(crate) entries: Vec<PlacedEntry>,
    pub(crate) fresh: Vec<FreshLine>,
}

/// The result of each piece, in order.
pub(crate) type Pieces = Vec<Result<ReadPiece, BadLine>>;

/// Reads one line, and appends its entry if it has one. Returns the line if it is bad.
fn read_line_into(
    alloc: Global,
    reader: &mut LineReader,
    line: &PlacedLine<'_>,
    entries: &mut Vec<PlacedEntry>,
) -> Result<Option<BadLine>, Memory>
    ensures { let at = line.now.place in let meaning = line.now.meaning in
        IfOk result (λ o. MatchOption o
        ((bad_lines_at at meaning ≡ [])
        × (entries.new.items ≡ entries.old.items ++ placed_at at meaning))
        (λ bad. bad_lines_at at meaning ≡ record { place = bad.place; why = bad.why } ∷ [])) }
{
    let place = line.place();
    match line.read(alloc, reader) {
        Ok(Line::Blank) => Ok(None),
        Ok(Line::Entry(entry)) => {
            entries.push(PlacedEntry::new(place, entry))?;
            Ok(None)
        }
        Err(LineFault::Memory) => Err(Memory),
        Err(LineFault::Bad(why)) => Ok(Some(BadLine { place, why })),
    }
}

/// Reads one line as `read_line_into` does, but skips it if the cache has it. Otherwise notes it as
/// fresh, so that the cache has it for later batches. The numbers are its index and its hash.
fn read_if_fresh(
    alloc: Global,
    reader: &mut LineReader,
    cache: &LineCache<'_>,
    line: &PlacedLine<'_>,
    fresh: FreshLine,
    piece: &mut ReadPiece,
) -> Result<Option<BadLine>, Memory>
    ensures { let at = line.now.place in let meaning = line.now.meaning in
        IfOk result (λ o. MatchOption o
        (SkipsOrReads cache.now line.now piece.old.entries.items piece.new.entries.items)
        (λ bad. bad_lines_at at meaning ≡ record { place = bad.place; why = bad.why } ∷ [])) }
{
    if cache.contains(fresh.hash, line.bytes()) {
        return Ok(None);
    }
    if cache.has_slots() {
        piece.fresh.push(fresh)?;
    }
    read_line_into(alloc, reader, line, &mut piece.entries)
}

/// The hashes of lines.
fn hashes_of(
    alloc: Global,
    cache: &LineCache<'_>,
    lines: &[PlacedLine<'_>],
) -> Result<Vec<u64>, Memory> {
    let mut hashes = Vec::with_capacity(alloc, lines.len())?;
    for line in lines {
        hashes.push(cache.hash_of(line.bytes()))?;
    }
    Ok(hashes)
}

/// The entries of the lines that the cache lacks, or the first bad line. The first line has this
/// index in the batch.
pub(crate) fn read_lines(
    alloc: Global,
    cache: &LineCache<'_>,
    lines: &[PlacedLine<'_>],
    start: usize,
) -> Result<Result<ReadPiece, BadLine>, Memory>
    ensures { IfOk result (IsReadBeside HasEntries cache.now lines.now) }
{
    let mut reader = LineReader::new(alloc);
    let hashes = hashes_of(alloc, cache, lines)?;
    let unseen = cache.count_unseen(&hashes);
    let mut piece = ReadPiece {
        entries: Vec::with_capacity(alloc, unseen)?,
        fresh: Vec::new(alloc),
    };
    for (at, line) in lines.iter().enumerate() {
        let fresh = FreshLine {
            index: start.wrapping_add(at),
            hash: hashes.get(at).copied().unwrap_or(0),
        };
        if let Some(bad) = read_if_fresh(alloc, &mut reader, cache, line, fresh, &mut piece)? {
            return Ok(Err(bad));
        }
    }
    Ok(Ok(piece))
}

/// Records the entries of pieces in order, up to the first bad line.
pub(crate) fn note_pieces(pieces: Pieces, ledger: &mut Ledger) -> Result<(), Fault>
    ensures { (lines : List MeaningAt)
        → AreRead HasEntries lines pieces.items → MatchResult result
        (λ _. (bad_lines_among lines ≡ []) × NotesLines (placed_among lines) ledger.old ledger.new)
        (IsReadFault (bad_lines_among lines)) }
{
    for piece in pieces {
        match piece {
            Ok(piece) => ledger.note(piece.entries)?,
            Err(BadLine { place, why }) => return Err(Fault::BadLine { place, why }),
        }
    }
    Ok(())
}
