//! Reads lines batch by batch, and has them noted. A batch can be noted while the next one is read.
ghost use Rattle.std.specs.Prelude.{◌≡◌, ◌≤◌, ◌<◌, ◌^◌, ◌++◌, List, [], Result, IfOk, length};
ghost use Rattle.std.specs.Prelude.{MatchResult};
ghost use Rattle.epx_types.specs.Pieces.{piece_count};
ghost use Rattle.epx_types.specs.declared.fault.Why.{Why};
ghost use Rattle.epx_lines.specs.declared.Line.{Line};
ghost use Rattle.epx_merge.specs.between.LinePieces.{ArePiecesOf, lines_of_piece};
ghost use Rattle.epx_merge.specs.LogLines.{MeaningAt};
ghost use Rattle.epx_merge.specs.between.LogReaders.{HasRead, IsNoting, IsReading};
ghost use Rattle.epx_merge.specs.between.ReadFaults.{IsReadFault, refused_among};
ghost use Rattle.epx_merge.specs.between.RedundantLines.{DropsCached};

use crate::line_batch::LineBatch;
use crate::line_cache::LineCache;
use crate::notes::Notes;
use bumpalo::Bump;
use epx_claims::{Gate, claimed_map_after};
use epx_types::{Fault, Memory, Plan};
use std::alloc::Global;
use std::mem;
use std::thread::Threads;

/// What is read of logs whose lines come batch by batch. After a fault no more lines are read.
#[derive(Drop)]
pub struct LogReader<'a, N: Notes + Drop> {
    read: Result<ReadLines<'a, N>, Fault>,
}

/// Lines that are read.
#[derive(Drop)]
pub(crate) struct ReadLines<'a, N: Notes + Drop> {
    /// What notes them.
    notes: N,
    cache: LineCache<'a>,
    /// The pieces of the last batch that are not noted yet.
    pending: Vec<N::Piece>,
}

/// Reads a piece of the batch.
fn read_piece<N: Notes>(
    alloc: Global,
    shared: N::Shared,
    plan: Plan,
    cache: &LineCache<'_>,
    batch: &LineBatch,
    piece: usize,
) -> Result<N::Piece, Memory>
    requires { piece < piece_count plan.cut (length batch.now) }
    ensures { IfOk result (N.is_read shared cache.now
        (lines_of_piece plan.cut piece batch.now)) }
{
    let (start, end) = plan.range(piece, batch.len());
    let lines = batch.lines(alloc, start, end)?;
    N::read(alloc, shared, cache, &lines, start)
}

/// What is read once the pieces before a batch are noted and those of the batch are read.
fn after_batch<'a, N: Notes + Drop>(
    noted: Result<(), Fault>,
    read: Result<Vec<N::Piece>, Memory>,
    mut notes: N,
    mut cache: LineCache<'a>,
    batch: &LineBatch,
    copies: Option<&'a Bump>,
) -> Result<ReadLines<'a, N>, Fault>
    ensures { (lines cut : List MeaningAt) → DropsCached [] cut batch.now
        → MatchResult noted (λ _. N.has_read lines notes cache.entry [])
        (IsReadFault (refused_among N.refuses_bad_lines lines))
        → IfOk read (λ v.
        ArePiecesOf (N.is_read (N.shared_of notes) cache.entry) batch.now v.items)
        → IsReading N.has_read N.refuses_bad_lines (lines ++ cut) result }
{
    noted?;
    let mut pending = read?;
    notes.keep(&mut pending, batch, &mut cache, copies)?;
    Ok(ReadLines {
        notes,
        cache,
        pending,
    })
}

/// Reads the lines of a batch. This thread first notes what was read before and calls `more`, and
/// then reads lines as the other workers do.
fn read_on<'a, N: Notes + Sync + Drop, R: Threads + Sync, G: Gate + Sync, T, M: FnMut() -> T>(
    rt: &R,
    alloc: Global,
    copies: Option<&'a Bump>,
    before: ReadLines<'a, N>,
    batch: &LineBatch,
    more: &mut M,
    plan: Plan,
    gate: &G,
) -> (Result<ReadLines<'a, N>, Fault>, T)
    requires few { length batch.now ≤ 2 ^ 40 }
    requires more { M.pre more.old }
    ensures more { M.step more.old result.1 more.new }
    ensures lines { (lines cut : List MeaningAt)
        → N.has_read lines before.entry.notes before.entry.cache before.entry.pending.items
        → DropsCached [] cut batch.now
        → IsReading N.has_read N.refuses_bad_lines (lines ++ cut) result.0 }
{
    let ReadLines {
        mut notes,
        cache,
        mut pending,
    } = before;
    let shared = notes.shared();
    let mut first = || -> (Result<(), Fault>, T)
        requires { M.pre more.now }
        ensures noted { (lines : List MeaningAt) (known : List (Result Line Why))
            → N.has_read lines notes.entry known pending.entry.items → MatchResult result.0
            (λ _. N.has_read lines notes.exit known [])
            (IsReadFault (refused_among N.refuses_bad_lines lines)) }
        ensures shared { N.shared_of notes.exit ≡ N.shared_of notes.entry }
        ensures more { M.step more.entry.now result.1 more.exit.now }
    {
        let pieces = mem::replace(&mut pending, Vec::new(alloc));
        (notes.note(pieces), more())
    };
    let pieces = plan.pieces(batch.len());
    let ((noted, given), read) = claimed_map_after(
        rt,
        alloc,
        pieces,
        plan,
        gate,
        &mut first,
        |piece: usize| -> Result<N::Piece, Memory>
            requires { piece < piece_count plan.cut (length batch.now) }
            ensures { IfOk result
                (N.is_read shared cache.entry (lines_of_piece plan.cut piece batch.entry.now)) }
        { read_piece::<N>(alloc, shared, plan, &cache, batch, piece) },
    );
    (after_batch(noted, read, notes, cache, batch, copies), given)
}

impl<'a, N: Notes + Sync + Drop> LogReader<'a, N> {
    /// No line is read yet. The number of logs is a hint.
    pub fn new(alloc: Global, notes: N, logs: usize) -> Result<LogReader<'a, N>, Memory>
        requires { N.has_read [] notes [] [] }
        ensures { IfOk result (HasRead N.has_read N.refuses_bad_lines []) }
    {
        let cache = LineCache::new(alloc, logs)?;
        Ok(LogReader {
            read: Ok(ReadLines {
                notes,
                cache,
                pending: Vec::new(alloc),
            }),
        })
    }

    /// The workers read the lines of a batch. One of them is this thread, which first notes what
    /// was read before, and calls `more` once. Lines that may come again are copied, so that they
    /// are read only once; after the last batch none come, and it needs no copies.
    pub fn read_during<R: Threads + Sync, G: Gate + Sync, T, M: FnMut() -> T>(
        self,
        rt: &R,
        alloc: Global,
        copies: Option<&'a Bump>,
        batch: &LineBatch,
        more: &mut M,
        plan: Plan,
        gate: &G,
    ) -> (LogReader<'a, N>, T)
        requires few { length batch.now ≤ 2 ^ 40 }
        requires more { M.pre more.old }
        ensures more { M.step more.old result.1 more.new }
        ensures lines { (lines cut : List MeaningAt)
            → HasRead N.has_read N.refuses_bad_lines lines self.entry
            → DropsCached [] cut batch.now
            → HasRead N.has_read N.refuses_bad_lines (lines ++ cut) result.0 }
    {
        let before = match self.read {
            Ok(before) => before,
            Err(fault) => return (LogReader { read: Err(fault) }, more()),
        };
        let (read, given) = read_on(rt, alloc, copies, before, batch, more, plan, gate);
        (LogReader { read }, given)
    }

    /// Has what is read noted.
    pub fn finish(self) -> Result<N, Fault>
        ensures { (lines : List MeaningAt) → HasRead N.has_read N.refuses_bad_lines lines self.entry
            → IsNoting N.has_read N.refuses_bad_lines lines result }
    {
        let ReadLines {
            mut notes,
            pending,
            ..
        } = self.read?;
        notes.note(pending)?;
        Ok(notes)
    }
}
