//! The map that the lines of a call commit.
ghost use Rattle.std.specs.Prelude.{◌≡◌, ◌≤◌, ◌∷◌, [], ◌++◌, List, length, map, not, IfOk, OnOk};
ghost use Rattle.std.specs.Prelude.{MatchResult};
ghost use Rattle.epx_types.specs.CommittedMap.{ids_of};
ghost use Rattle.epx_types.specs.Done.{is_among};
ghost use Rattle.epx_types.specs.Ids.{IsRising};
ghost use Rattle.epx_types.specs.Instances.{Instance};
ghost use Rattle.epx_types.specs.Limits.{max_instances};
ghost use Rattle.epx_committed.specs.MergedLines.{IsMerged, IsMergeFault};
ghost use Rattle.epx_executor.specs.CallLines.{call_lines, lines_from, lines_not_done};

use crate::done_runs::DoneRuns;
use epx_committed::{Ledger, Merged, PlacedEntry};
use epx_seed::Seed;
use epx_types::{Entry, Fault, Id, Memory, Place};
use std::alloc::Global;
use std::random::RandomSource;

/// Whether an instance is not done.
pub(crate) fn is_left(done: &DoneRuns, id: Id) -> bool
    ensures { result ≡ not (is_among done.now id) }
{
    !done.contains(id)
}

/// Copies of pending entries, on the lines of log 0.
pub(crate) fn pending_lines(alloc: Global, entries: &[&Entry]) -> Result<Vec<PlacedEntry>, Memory>
    ensures { IfOk result
        (λ lines. lines.items ≡ lines_from 0 1 (map (λ e. e.now) entries.now)) }
{
    let mut line = 0;
    let mut lines = Vec::with_capacity(alloc, entries.len())?;
    for entry in entries {
        line += 1;
        let copy = entry.copy(alloc)?;
        lines.push(PlacedEntry::new(Place { log: 0, line }, copy))?;
    }
    Ok(lines)
}

/// Appends an entry on a line of log 1, unless its instance is done.
fn push_if_left(
    done: &DoneRuns,
    line: usize,
    entry: Entry,
    lines: &mut Vec<PlacedEntry>,
) -> Result<(), Memory>
    ensures { OnOk result (lines.new.items ≡ lines.old.items
        ++ lines_not_done done.now (lines_from 1 line (entry ∷ []))) }
{
    if is_left(done, entry.id()) {
        lines.push(PlacedEntry::new(Place { log: 1, line }, entry))?;
    }
    Ok(())
}

/// The entries that came, on the lines of log 1, without those of done instances.
fn lines_left(alloc: Global, done: &DoneRuns, came: Vec<Entry>) -> Result<Vec<PlacedEntry>, Memory>
    ensures { IfOk result
        (λ lines. lines.items ≡ lines_not_done done.now (lines_from 1 1 came.items)) }
{
    let mut line = 0;
    let mut lines = Vec::with_capacity(alloc, came.len())?;
    for entry in came {
        line += 1;
        push_if_left(done, line, entry, &mut lines)?;
    }
    Ok(lines)
}

/// The map that lines of pending entries and those that came commit, or why they commit none.
pub(crate) fn merge_call<R: RandomSource>(
    rt: &R,
    alloc: Global,
    done: &DoneRuns,
    old: Vec<PlacedEntry>,
    came: Vec<Entry>,
) -> Result<Merged, Fault>
    ensures { (part : List Instance) → old.items ≡ lines_from 0 1 part →
        let lines = call_lines done.now part came.items in
        MatchResult result (IsMerged lines) (IsMergeFault lines) }
{
    let new = lines_left(alloc, done, came)?;
    let count = old.len().saturating_add(new.len());
    let mut ledger = Ledger::for_lines(alloc, Seed::draw(rt), count);
    ledger.note(old)?;
    ledger.note(new)?;
    ledger.close()
}

/// The map of pending entries, which come by rising Id. A map of so few is never refused.
pub(crate) fn merge_pending<R: RandomSource>(
    rt: &R,
    alloc: Global,
    entries: &[&Entry],
) -> Result<Merged, Memory>
    requires rising { IsRising (ids_of (map (λ e. e.now) entries.now)) }
    requires few { length entries.now ≤ max_instances }
    ensures { IfOk result (λ merged. merged ≡ map (λ e. e.now) entries.now) }
{
    let lines = pending_lines(alloc, entries)?;
    match merge_call(rt, alloc, &DoneRuns::new(alloc), lines, Vec::new(alloc)) {
        Ok(merged) => Ok(merged),
        Err(fault) => match fault {
            Fault::Memory => Err(Memory),
            _ => unreachable!(),
        },
    }
}
