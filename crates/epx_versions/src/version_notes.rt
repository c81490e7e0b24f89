//! Notes the versions of the instances that lines commit.
ghost use Rattle.std.specs.Prelude.{◌≡◌, ◌++◌, ◌∷◌, ◌+◌, [], List, Result, IfOk, OnOk};
ghost use Rattle.std.specs.Prelude.{MatchOption, MatchResult, None, Ok, Some, false, slice_get};
ghost use Rattle.epx_types.specs.declared.fault.Why.{Why};
ghost use Rattle.epx_types.specs.Instances.{Instance};
ghost use Rattle.epx_seed.specs.declared.Seed.{Seed};
ghost use Rattle.epx_lines.specs.declared.Line.{Line};
ghost use Rattle.epx_lines.specs.declared.Line.TheVariants.{Entry};
ghost use Rattle.epx_merge.specs.between.LinePieces.{ArePiecesOf};
ghost use Rattle.epx_merge.specs.LogLines.{MeaningAt, bad_lines_among, placed_among};
ghost use Rattle.epx_merge.specs.between.ReadFaults.{IsReadFault};
ghost use Rattle.epx_versions.specs.between.KnownLines.{AreKnown, meaning_of_version};
ghost use Rattle.epx_versions.specs.between.NotedLines.{AreNotedLines};
ghost use Rattle.epx_versions.specs.between.NotedRows.{AreNoted};
ghost use Rattle.epx_versions.specs.between.ReadMeanings.{AreReadSo, meaning_in};
ghost use Rattle.epx_versions.specs.inner.HashedVersions.{IsHashed};
ghost use Rattle.epx_versions.specs.inner.BatchNotes.{IsNotedUpTo, KeepsNumbers};

use crate::hashed_version::HashedVersion;
use crate::noted::Noted;
use crate::read_line::{ReadLine, read_lines};
use bumpalo::Bump;
use epx_merge::{LineBatch, LineCache, Notes, PlacedLine};
use epx_seed::Seed;
use epx_types::{Fault, Memory};
use std::alloc::Global;
use std::mem;

/// Notes lines: each different instance that they commit, the lines that commit it, and the bad
/// lines.
#[derive(Drop)]
pub struct VersionNotes {
    noted: Noted,
    /// The number of the version that each line of the cache commits.
    numbers: Vec<usize>,
    /// Versions are hashed with it.
    seed: Seed,
}

/// Puts a copy of a line into the cache if there is room, and keeps the number of the version that
/// it commits.
fn cache_line<'a>(
    numbers: &mut Vec<usize>,
    line: &PlacedLine<'_>,
    hash: u64,
    number: usize,
    cache: &mut LineCache<'a>,
    copies: Option<&'a Bump>,
) -> Result<(), Memory>
    ensures known { OnOk result ((versions : List Instance)
        → meaning_of_version versions number ≡ Some line.now.meaning
        → AreKnown versions cache.old numbers.old.items
        → AreKnown versions cache.new numbers.new.items) }
    ensures grows { KeepsNumbers cache.old cache.new }
{
    let Some(copies) = copies else {
        return Ok(());
    };
    if cache.insert_copy(hash, line.bytes(), copies) {
        numbers.push(number)?;
    }
    Ok(())
}

/// The line of the batch with this index, and the index after it.
fn line_at(batch: &LineBatch, at: usize) -> Option<(PlacedLine<'_>, usize)>
    ensures { MatchOption result (slice_get batch.now at ≡ None)
        (λ v. (slice_get batch.now at ≡ Some v.0) × (v.1 ≡ at + 1)) }
{
    if at >= batch.len() {
        return None;
    }
    let line = batch.line(at)?;
    Some((line, at + 1))
}

impl VersionNotes {
    /// No line is noted. Versions will be hashed with the seed.
    pub fn new(alloc: Global, seed: Seed) -> VersionNotes
        ensures { AreNotedLines [] result [] [] }
    {
        VersionNotes {
            noted: Noted::new(alloc),
            numbers: Vec::new(alloc),
            seed,
        }
    }

    /// What is noted of the lines.
    pub fn into_noted(self) -> Noted
        ensures { (lines : List MeaningAt) (cache : List (Result Line Why))
            → AreNotedLines lines self cache []
            → AreNoted (placed_among lines) (bad_lines_among lines) result }
    {
        self.noted
    }

    /// Notes a line that the cache lacked.
    fn note_fresh<'a>(
        &mut self,
        line: &PlacedLine<'_>,
        version: HashedVersion,
        hash: u64,
        cache: &mut LineCache<'a>,
        copies: Option<&'a Bump>,
    ) -> Result<(), Memory>
        ensures noted { OnOk result ((lines : List MeaningAt)
            → AreNotedLines lines self.old cache.old [] → IsHashed self.old.seed version
            → line.now.meaning ≡ Ok (Entry version.version)
            → AreNotedLines (lines ++ line.now ∷ []) self.new cache.new []) }
        ensures seed { self.new.seed ≡ self.old.seed }
        ensures grows { KeepsNumbers cache.old cache.new }
    {
        let number = self.noted.note_entry(line.place(), version)?;
        cache_line(&mut self.numbers, line, hash, number, cache, copies)
    }

    /// Notes what was read of a line.
    fn note_line<'a>(
        &mut self,
        line: &PlacedLine<'_>,
        read: ReadLine,
        cache: &mut LineCache<'a>,
        copies: Option<&'a Bump>,
    ) -> Result<(), Memory>
        ensures noted { OnOk result ((lines : List MeaningAt)
            → AreNotedLines lines self.old cache.old []
            → meaning_in self.old.seed cache.old read ≡ Some line.now.meaning
            → AreNotedLines (lines ++ line.now ∷ []) self.new cache.new []) }
        ensures seed { self.new.seed ≡ self.old.seed }
        ensures grows { KeepsNumbers cache.old cache.new }
    {
        match read {
            ReadLine::Blank => {}
            ReadLine::Fresh(version, hash) => {
                self.note_fresh(line, version, hash, cache, copies)?;
            }
            // Each line of the cache has a number.
            ReadLine::Repeat(number) => {
                if let Some(version) = self.numbers.get(number) {
                    self.noted.note_version(line.place(), *version)?;
                }
            }
            ReadLine::Bad(why) => self.noted.note_bad(line.place(), why)?,
        }
        Ok(())
    }

    /// Notes what was read of the lines of a batch from an index on. Returns the index after them.
    fn note_piece<'a>(
        &mut self,
        piece: Vec<ReadLine>,
        batch: &LineBatch,
        start: usize,
        cache: &mut LineCache<'a>,
        copies: Option<&'a Bump>,
    ) -> Result<usize, Memory>
        ensures { IfOk result (λ at. (seed : Seed) (known : List (Result Line Why))
            (lines : List MeaningAt) (pieces : _)
            → IsNotedUpTo seed known lines batch.now start piece.items pieces self.old cache.old
            → IsNotedUpTo seed known lines batch.now at [] pieces self.new cache.new) }
    {
        let mut at = start;
        for read in piece {
            // Each line of the batch was read.
            let Some((line, next)) = line_at(batch, at) else {
                return Ok(at);
            };
            self.note_line(&line, read, cache, copies)?;
            at = next;
        }
        Ok(at)
    }

    /// Notes what was read of the lines of a batch.
    fn note_batch<'a>(
        &mut self,
        pieces: Vec<Vec<ReadLine>>,
        batch: &LineBatch,
        cache: &mut LineCache<'a>,
        copies: Option<&'a Bump>,
    ) -> Result<(), Memory>
        ensures { OnOk result ((lines : List MeaningAt) → AreNotedLines lines self.old cache.old []
            → ArePiecesOf (λ lines piece. AreReadSo self.old.seed cache.old lines piece.items)
            batch.now pieces.items
            → AreNotedLines (lines ++ batch.now) self.new cache.new []) }
    {
        let mut at = 0;
        for piece in pieces {
            at = self.note_piece(piece, batch, at, cache, copies)?;
        }
        Ok(())
    }
}

/// A batch is noted as soon as it is read, so that lines which repeat one of it have its number.
impl Notes for VersionNotes {
    type Piece = Vec<ReadLine>;

    type Shared = Seed;

    ghost shared_of = { λ notes. notes.seed };

    ghost is_read = { λ seed cache lines piece. AreReadSo seed cache lines piece.items };

    ghost has_read = { AreNotedLines };

    ghost refuses_bad_lines = { false };

    fn shared(&self) -> Seed {
        self.seed
    }

    fn ends_batches_with_logs() -> bool {
        true
    }

    fn read(
        alloc: Global,
        shared: Seed,
        cache: &LineCache<'_>,
        lines: &[PlacedLine<'_>],
        _start: usize,
    ) -> Result<Vec<ReadLine>, Memory> {
        read_lines(alloc, shared, cache, lines)
    }

    // `keep` leaves no piece.
    fn note(&mut self, pieces: Vec<Vec<ReadLine>>) -> Result<(), Fault>
        ensures shared { self.new.seed ≡ self.old.seed }
        ensures noted { (lines : List MeaningAt) (cache : List (Result Line Why))
            → AreNotedLines lines self.old cache pieces.items → MatchResult result
            (λ _. AreNotedLines lines self.new cache []) (IsReadFault []) }
    {
        Ok(())
    }

    fn keep<'a>(
        &mut self,
        pieces: &mut Vec<Vec<ReadLine>>,
        batch: &LineBatch,
        cache: &mut LineCache<'a>,
        copies: Option<&'a Bump>,
    ) -> Result<(), Fault> {
        let none = Vec::new(*pieces.allocator());
        let read = mem::replace(pieces, none);
        self.note_batch(read, batch, cache, copies)?;
        Ok(())
    }
}
