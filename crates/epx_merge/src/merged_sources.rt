//! Reads logs, and returns their committed map or the first refusal.
ghost use Rattle.std.specs.Prelude.{◌≡◌, ℕ, true, false, All, List, MatchResult};
ghost use Rattle.epx_merge.specs.Acceptance.{IsAccepted};
ghost use Rattle.epx_merge.specs.between.LedgerNotes.{AreReadUpTo};
ghost use Rattle.epx_merge.specs.LogLines.{meanings_of, bytes_of};
ghost use Rattle.epx_merge.specs.between.LogReaders.{IsNoting};
ghost use Rattle.epx_merge.specs.Refusals.{FitLimits, IsRefusal};
ghost use Rattle.epx_merge.specs.between.SourceReadings.{EndsMerging};

use crate::ledger_notes::empty_ledger;
use crate::logs_in_memory::memory_sources;
use crate::noted_sources::note_sources;
use epx_claims::Gate;
use epx_committed::{Ledger, Merged};
use epx_devices::Source;
use epx_types::{Fault, Plan};
use std::alloc::Global;
use std::random::RandomSource;
use std::thread::Threads;

/// The committed map of logs whose lines are noted, or their first refusal. The logs are neither
/// too many nor too long.
pub fn merge_noted(noted: Result<Ledger, Fault>) -> Result<Merged, Fault>
    ensures { (logs : List (List ℕ)) → FitLimits logs
        → IsNoting AreReadUpTo true (meanings_of logs) noted
        → MatchResult result (IsAccepted logs) (IsRefusal logs) }
{
    noted?.close()
}

/// The committed map of the logs of all sources, which are read in order, or the first refusal.
///
/// The lines of all logs are cut into the plan's pieces, which its workers claim. The result is
/// the same for every plan, gate and random source. `Memory` can come instead of any result.
pub fn merge_sources<R: Threads + RandomSource + Sync, S: Source, G: Gate + Sync>(
    rt: &R,
    alloc: Global,
    sources: &mut [S],
    plan: Plan,
    gate: &G,
) -> Result<Merged, Fault>
    requires { All (λ s. S.model.has_failed s ≡ false) sources.old }
    ensures { EndsMerging S.model sources.old sources.new result }
{
    let ledger = empty_ledger(rt, alloc);
    let (noted, ()) = note_sources(rt, alloc, sources, ledger, &mut || (), plan, gate)?;
    merge_noted(noted)
}

/// The committed map of logs in memory, or their first refusal.
///
/// The lines of all logs are cut into the plan's pieces, which its workers claim. The result is
/// the same for every plan, gate and random source. `Memory` can come instead of any result.
pub fn read_logs<R: Threads + RandomSource + Sync, G: Gate + Sync>(
    rt: &R,
    alloc: Global,
    logs: &[Vec<u8>],
    plan: Plan,
    gate: &G,
) -> Result<Merged, Fault>
    ensures { let bytes = bytes_of logs.now in
        MatchResult result (IsAccepted bytes) (IsRefusal bytes) }
{
    let mut sources = memory_sources(alloc, logs)?;
    merge_sources(rt, alloc, &mut sources, plan, gate)
}
