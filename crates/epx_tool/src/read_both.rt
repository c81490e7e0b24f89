//! Reads the logs of sources and an extra input.
ghost use Rattle.std.specs.Prelude.{◌≡◌, ℕ, true, false, All, List, MatchResult};
ghost use Rattle.std.specs.Thread.{IsSync};
ghost use Rattle.epx_merge.specs.Acceptance.{IsAccepted};
ghost use Rattle.epx_merge.specs.between.LedgerNotes.{AreReadUpTo};
ghost use Rattle.epx_merge.specs.LogLines.{meanings_of};
ghost use Rattle.epx_merge.specs.between.LogReaders.{IsNoting};
ghost use Rattle.epx_merge.specs.Refusals.{FitLimits, IsRefusal};
ghost use Rattle.epx_names.specs.Tasks.{HasInput};
ghost use Rattle.epx_tool.specs.WithInput.{IsShort};
ghost use Rattle.epx_tool.specs.inner.MapQuestions.{TaskAsks, IsInputFault, IsTaskReading};
ghost use Rattle.epx_tool.specs.inner.TaskReadings.{EndsMakingBoth};

use crate::question::{MapQuestion, read_question};
use epx_claims::FreeGate;
use epx_committed::Ledger;
use epx_devices::{Source, read_log};
use epx_merge::{Merged, empty_ledger, merge_noted, note_sources};
use epx_names::Task;
use epx_report::BaseFault;
use epx_types::{Fault, Plan};
use std::alloc::Global;
use std::random::RandomSource;
use std::thread::{Threads, join};

/// The committed map of logs whose lines are noted, and what the task asks by its input, each by
/// itself. With several workers one more thread makes the map, while they read the input.
fn read_each<R: Threads + RandomSource + Sync>(
    rt: &R,
    alloc: Global,
    task: Task,
    input: &[u8],
    noted: Result<Ledger, Fault>,
    plan: Plan,
) -> (Result<Merged, Fault>, Result<MapQuestion, BaseFault>)
    requires { HasInput task }
    ensures logs { (logs : List (List ℕ)) → FitLimits logs
        → IsNoting AreReadUpTo true (meanings_of logs) noted
        → MatchResult result.0 (IsAccepted logs) (IsRefusal logs) }
    ensures input { MatchResult result.1 (TaskAsks task input.now)
        (IsInputFault task input.now) }
{
    if plan.workers() == 1 {
        let merged = merge_noted(noted);
        return (merged, read_question(rt, alloc, task, input, plan));
    }
    join(
        rt,
        move || -> Result<Merged, Fault>
            ensures { (logs : List (List ℕ)) → FitLimits logs
                → IsNoting AreReadUpTo true (meanings_of logs) noted
                → MatchResult result (IsAccepted logs) (IsRefusal logs) }
        { merge_noted(noted) },
        || -> Result<MapQuestion, BaseFault>
            requires sync { IsSync R.row }
            requires task { HasInput task }
            ensures { MatchResult result (TaskAsks task input.entry.now)
                (IsInputFault task input.entry.now) }
        { read_question(rt, alloc, task, input, plan) },
    )
}

/// The committed map of logs whose lines are noted, and what the task asks of it by its input, or
/// the first refusal.
fn read_noted<R: Threads + RandomSource + Sync>(
    rt: &R,
    alloc: Global,
    task: Task,
    input: &[u8],
    noted: Result<Ledger, Fault>,
    plan: Plan,
) -> Result<(Merged, MapQuestion), Fault>
    requires task { HasInput task }
    requires short { IsShort input.now }
    ensures { (logs : List (List ℕ)) → FitLimits logs
        → IsNoting AreReadUpTo true (meanings_of logs) noted
        → IsTaskReading task input.now logs result }
{
    let (merged, question) = read_each(rt, alloc, task, input, noted, plan);
    let merged = match merged {
        Ok(merged) => merged,
        Err(fault) => return Err(fault),
    };
    match question {
        Ok(question) => Ok((merged, question)),
        Err(fault) => Err(Fault::from(fault)),
    }
}

/// The committed map of the logs of all sources, and what the task asks of it by its input, or the
/// first refusal. The sources are read in order, then the input.
pub(crate) fn read_both<R: Threads + RandomSource + Sync, I: Source, S: Source>(
    rt: &R,
    alloc: Global,
    task: Task,
    input: &mut I,
    sources: &mut [S],
    plan: Plan,
) -> Result<(Merged, MapQuestion), Fault>
    requires task { HasInput task }
    requires input { I.model.has_failed input.old ≡ false }
    requires sources { All (λ s. S.model.has_failed s ≡ false) sources.old }
    ensures { EndsMakingBoth I.model S.model (IsTaskReading task) input.old input.new sources.old
        sources.new result }
{
    let ledger = empty_ledger(rt, alloc);
    let noted = match note_sources(rt, alloc, sources, ledger, &mut || (), plan, &FreeGate) {
        Ok((noted, ())) => noted,
        Err(fault) => return Err(fault),
    };
    let text = match read_log(alloc, sources.len(), input) {
        Ok(text) => text,
        Err(fault) => return Err(fault),
    };
    read_noted(rt, alloc, task, &text, noted, plan)
}
