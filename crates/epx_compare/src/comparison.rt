//! What logs say against each other, as text.
ghost use Rattle.std.specs.Prelude.{◌≡◌, ◌↔◌, ◌≤◌, ◌++◌, ℕ, All, List, true, false};
ghost use Rattle.std.specs.Prelude.{IfOk, OnOk, MatchResult, Ok, Err};
ghost use Rattle.epx_types.specs.PlacedLines.{Placed};
ghost use Rattle.epx_types.specs.Limits.{max_logs};
ghost use Rattle.epx_merge.specs.LogLines.{BadLineAt, bytes_of};
ghost use Rattle.epx_merge.specs.between.SourceReadings.{EndsMaking};
ghost use Rattle.epx_compare.specs.ComparisonAnswers.{Compares, IsComparisonResult};
ghost use Rattle.epx_compare.specs.Comparisons.{HasFindings, findings_text};
ghost use Rattle.epx_compare.specs.inner.Catalogs.{IsCatalogOf, IsCatalogComparison};
ghost use Rattle.epx_compare.specs.inner.NotedLogs.{AreNotedLogs};

use crate::bad_lines::append_bad_lines;
use crate::catalog::Catalog;
use crate::counts::append_counts;
use crate::differences::append_differences;
use crate::gap_lines::append_gaps;
use crate::missing::append_all_missing;
use epx_claims::FreeGate;
use epx_devices::Source;
use epx_merge::{memory_sources, note_sources};
use epx_seed::Seed;
use epx_types::limits::MAX_INSTANCES;
use epx_types::{Fault, Memory, Plan};
use epx_versions::{Noted, VersionNotes};
use std::alloc::Global;
use std::random::RandomSource;
use std::thread::Threads;

/// What logs say against each other.
#[derive(Drop)]
pub struct Comparison {
    /// Lines of JSON.
    pub text: Vec<u8>,
    /// Whether there is a bad line, a difference or a gap.
    pub has_findings: bool,
}

/// Appends the lines of what is wrong with the logs.
fn append_findings(
    alloc: Global,
    text: &mut Vec<u8>,
    logs: usize,
    catalog: &Catalog,
) -> Result<(), Memory>
    requires logs { logs ≤ max_logs }
    requires catalog { (lines : List Placed) × (bad : List BadLineAt)
        × IsCatalogOf lines bad catalog.now }
    ensures { OnOk result ((lines : List Placed) (bad : List BadLineAt)
        → IsCatalogOf lines bad catalog.now
        → text.new.items ≡ text.old.items ++ findings_text logs lines bad catalog.now.ids) }
{
    append_bad_lines(alloc, text, &catalog.noted.bad)?;
    append_differences(alloc, text, catalog)?;
    append_gaps(alloc, text, logs, catalog)
}

/// The comparison of logs by the catalog of their lines.
fn comparison_of(
    alloc: Global,
    logs: usize,
    catalog: &Catalog,
    seed: Seed,
) -> Result<Comparison, Memory>
    requires logs { logs ≤ max_logs }
    requires catalog { (lines : List Placed) × (bad : List BadLineAt)
        × IsCatalogOf lines bad catalog.now }
    ensures { IfOk result (λ c. (lines : List Placed) (bad : List BadLineAt)
        → IsCatalogOf lines bad catalog.now
        → IsCatalogComparison logs lines bad catalog.now.ids c) }
{
    let mut text = Vec::new(alloc);
    append_counts(alloc, &mut text, logs, &catalog.noted)?;
    let start = text.len();
    append_findings(alloc, &mut text, logs, catalog)?;
    let has_findings = text.len() != start;
    append_all_missing(alloc, &mut text, catalog, seed)?;
    Ok(Comparison { text, has_findings })
}

/// The comparison of logs whose lines are noted, unless they commit too many instances.
fn compare_noted(alloc: Global, count: usize, noted: Noted, seed: Seed) -> Result<Comparison, Fault>
    requires { (logs : List (List ℕ)) × AreNotedLogs logs count noted }
    ensures { (logs : List (List ℕ)) → AreNotedLogs logs count noted
        → IsComparisonResult logs result }
{
    let catalog = Catalog::of(alloc, noted)?;
    if catalog.ids.ids().len() > MAX_INSTANCES {
        return Err(Fault::TooManyInstances);
    }
    let comparison = comparison_of(alloc, count, &catalog, seed)?;
    Ok(comparison)
}

/// What logs say against each other, as lines of JSON, in this order:
///
/// - `["log",L,lines,bad]` for each log: how many of its lines commit an instance, and how many are
///   bad
/// - `["bad",L,N,"WHY"]` for each bad line
/// - `["differs",r,i,[MEMBER,..],[[[L,N],..],..]]` for each instance that two lines commit
///   differently: the members in which they differ, and the places of its lines, those that commit
///   the same together
/// - `["lacks",L,r,from,to]` for each run of instances of a replica that log L lacks
/// - `["missing",r,i,count]` for each dependency that no log commits, with the number of instances
///   that depend on it
///
/// Bad lines and lines that differ are no faults here. The faults are `TooManyLogs`, `LogTooLong`
/// and `TooManyInstances`, and `Memory`, which says nothing about the logs. Takes n log n time in
/// the lines.
///
/// The plan's workers read the lines. The result is the same for every plan.
pub fn compare<R: Threads + RandomSource + Sync>(
    rt: &R,
    alloc: Global,
    logs: &[Vec<u8>],
    plan: Plan,
) -> Result<Comparison, Fault>
    ensures answer { let bytes = bytes_of logs.now in
        MatchResult result (λ c. Compares bytes (Ok c.text.items))
        (λ fault. Compares bytes (Err fault)) }
    ensures found { IfOk result (λ c. (c.has_findings ≡ true) ↔ HasFindings (bytes_of logs.now)) }
{
    let mut sources = memory_sources(alloc, logs)?;
    compare_sources(rt, alloc, &mut sources, plan)
}

/// What the logs of sources say against each other, in the lines that `compare` describes. The
/// sources are read in order. The faults are those of `compare`, and `Fault::Read`.
pub fn compare_sources<R: Threads + RandomSource + Sync, S: Source>(
    rt: &R,
    alloc: Global,
    sources: &mut [S],
    plan: Plan,
) -> Result<Comparison, Fault>
    requires { All (λ s. S.model.has_failed s ≡ false) sources.old }
    ensures { EndsMaking S.model IsComparisonResult sources.old sources.new result }
{
    let seed = Seed::draw(rt);
    let count = sources.len();
    let none = VersionNotes::new(alloc, seed);
    let (noted, ()) = note_sources(rt, alloc, sources, none, &mut || (), plan, &FreeGate)?;
    let notes = noted?;
    compare_noted(alloc, count, notes.into_noted(), seed)
}
