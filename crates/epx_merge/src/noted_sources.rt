//! Reads sources and has the lines of their logs noted. Lines are read while the next ones are
//! gathered.
ghost use Rattle.std.specs.Prelude.{◌≡◌, ◌≤◌, ◌<◌, ◌++◌, ◌^◌, [], false, length, All, List};
ghost use Rattle.std.specs.Prelude.{OnOk, Err, IfOk, MatchResult};
ghost use Rattle.epx_types.specs.Limits.{max_logs};
ghost use Rattle.epx_merge.specs.LogLines.{MeaningAt};
ghost use Rattle.epx_merge.specs.between.LogReaders.{HasRead};
ghost use Rattle.epx_merge.specs.between.RedundantLines.{DropsCached};
ghost use Rattle.epx_merge.specs.inner.Gathered.{AreGathered, most_unread};
ghost use Rattle.epx_merge.specs.between.SourceReadings.{EndsNoting, EndsReading};

use crate::batch_lens::batch_len;
use crate::gathered_lines::{ReadPosition, gather};
use crate::line_batch::LineBatch;
use crate::log_reader::LogReader;
use crate::notes::Notes;
use bumpalo::Bump;
use epx_claims::Gate;
use epx_devices::Source;
use epx_types::limits::MAX_LOGS;
use epx_types::{Fault, Plan};
use std::alloc::Global;
use std::mem;
use std::thread::Threads;

/// The first batch for several workers has this many lines, so that they begin soon.
const FIRST_LINES: usize = 4_096;

/// The number of lines that are gathered next. One worker reads each part at once, while its lines
/// are in the processor's cache.
fn lines_wanted(plan: Plan, here: usize, logs: usize) -> usize
    ensures { result ≤ 2 ^ 32 }
{
    if plan.workers() == 1 {
        return 1;
    }
    if here == 0 {
        return FIRST_LINES;
    }
    batch_len(plan, logs == 0)
}

/// The workers read the lines of a batch, while this thread gathers those of the next one.
fn read_and_gather<'a, R: Threads + Sync, S: Source, N: Notes + Sync + Drop, G: Gate + Sync>(
    rt: &R,
    alloc: Global,
    copies: &'a Bump,
    reader: LogReader<'a, N>,
    here: &LineBatch,
    sources: &mut [S],
    at: &mut ReadPosition,
    next: &mut LineBatch,
    plan: Plan,
    gate: &G,
) -> (LogReader<'a, N>, Result<(), Fault>)
    requires within { at.old.log < length sources.old }
    requires few { length sources.old ≤ max_logs }
    requires here { length here.now ≤ 2 ^ 40 }
    requires next { next.old ≡ [] }
    requires begun { (first : _) × (lines : _)
        × AreGathered S.model first sources.old at.old lines }
    ensures read { (lines cut : List MeaningAt)
        → HasRead N.has_read N.refuses_bad_lines lines reader.entry
        → DropsCached [] cut here.now
        → HasRead N.has_read N.refuses_bad_lines (lines ++ cut) result.0 }
    ensures lines { (first : _) (lines : List MeaningAt)
        → AreGathered S.model first sources.old at.old lines
        → MatchResult result.1
        (λ _. (cut : List MeaningAt) × DropsCached [] cut next.new
        × AreGathered S.model first sources.new at.new (lines ++ cut))
        (λ fault. EndsReading S.model first sources.new
        (Err fault)) }
    ensures fewer { OnOk result.1
        (most_unread (length sources.new) at.new < most_unread (length sources.old) at.old) }
    ensures few { OnOk result.1 (length next.new ≤ 2 ^ 40) }
{
    let most = lines_wanted(plan, here.len(), at.logs());
    let each = N::ends_batches_with_logs();
    let mut more = || -> Result<(), Fault>
        requires { (at.now.log < length sources.now) × (length sources.now ≤ max_logs)
            × (next.now ≡ []) × (most ≤ 2 ^ 32) × ((first : _) × (lines : _)
            × AreGathered S.model first sources.now at.now lines) }
        ensures lines { (first : _) (lines : List MeaningAt)
            → AreGathered S.model first sources.entry.now at.entry.now
            lines → MatchResult result
            (λ _. (cut : List MeaningAt) × DropsCached [] cut next.exit.now
            × AreGathered S.model first sources.exit.now at.exit.now
            (lines ++ cut))
            (λ fault. EndsReading S.model first
            sources.exit.now (Err fault)) }
        ensures fewer { OnOk result (most_unread (length sources.exit.now) at.exit.now
            < most_unread (length sources.entry.now) at.entry.now) }
        ensures few { OnOk result (length next.exit.now ≤ 2 ^ 40) }
    { gather(alloc, sources, at, next, most, each) };
    reader.read_during(rt, alloc, Some(copies), here, &mut more, plan, gate)
}

/// Reads the sources in order, and has the lines of their logs noted. `last` is called once all
/// sources are read, while the last lines are. It is not called where a source cannot be read.
pub fn note_sources<
    R: Threads + Sync,
    S: Source,
    N: Notes + Sync + Drop,
    G: Gate + Sync,
    T,
    M: FnMut() -> T,
>(
    rt: &R,
    alloc: Global,
    sources: &mut [S],
    notes: N,
    last: &mut M,
    plan: Plan,
    gate: &G,
) -> Result<(Result<N, Fault>, T), Fault>
    requires well { All (λ s. S.model.has_failed s ≡ false) sources.old }
    requires none { N.has_read [] notes [] [] }
    requires last { M.pre last.old }
    ensures noted { EndsNoting S.model N.has_read N.refuses_bad_lines sources.old sources.new
        result }
    ensures last { IfOk result (λ v. M.step last.old v.1 last.new) }
{
    if sources.len() > MAX_LOGS {
        return Err(Fault::TooManyLogs);
    }
    let copies = Bump::new(alloc);
    let Ok(mut reader) = LogReader::new(alloc, notes, sources.len()) else {
        return Err(Fault::Memory);
    };
    let mut at = ReadPosition::new(alloc);
    let mut here = LineBatch::new(alloc);
    let mut next = LineBatch::new(alloc);
    while at.logs() < sources.len() {
        next.clear();
        let (read, gathered) = read_and_gather(
            rt, alloc, &copies, reader, &here, sources, &mut at, &mut next, plan, gate,
        );
        reader = read;
        if let Err(fault) = gathered {
            return Err(fault);
        }
        mem::swap(&mut here, &mut next);
    }
    let (reader, given) = reader.read_during(rt, alloc, None, &here, last, plan, gate);
    Ok((reader.finish(), given))
}
