//! Dependencies that no log commits.
ghost use Rattle.std.specs.Prelude.{◌≡◌, ℕ, ◌+◌, ◌<◌, ◌^◌, ◌++◌, List, All, IfOk, OnOk, length};
ghost use Rattle.std.specs.Prelude.{flat_map};
ghost use Rattle.epx_types.specs.declared.id.Id.{Id};
ghost use Rattle.epx_types.specs.Ids.{IsRising};
ghost use Rattle.epx_types.specs.PlacedLines.{Placed};
ghost use Rattle.epx_merge.specs.LogLines.{BadLineAt};
ghost use Rattle.epx_report.specs.ReportLines.{line_of};
ghost use Rattle.epx_compare.specs.ComparisonLines.{missing_count_data};
ghost use Rattle.epx_compare.specs.Comparisons.{missing_counts_text};
ghost use Rattle.epx_versions.specs.SameInstances.{same_id};
ghost use Rattle.epx_compare.specs.MissingDeps.{AreMissingDeps};
ghost use Rattle.epx_compare.specs.inner.Catalogs.{IsCatalogOf};
ghost use Rattle.epx_compare.specs.inner.MissingCounts.{AreCounts, with_one, is_missing};
ghost use Rattle.epx_compare.specs.inner.MissingCounts.{deps_at_numbers};
ghost use Rattle.epx_compare.specs.inner.MissingCounts.{missing_count};

use crate::catalog::Catalog;
use crate::committed_ids::CommittedIds;
use crate::comparison_lines::append_missing;
use epx_seed::Seed;
use epx_types::id_list::sort_unique;
use epx_types::{Id, Memory};
use epx_versions::Versions;
use indexmap::IndexMap;
use std::alloc::Global;

/// Counts an Id once more.
fn count_one(counts: &mut IndexMap<Id, usize, Seed>, id: Id) -> Result<(), Memory>
    requires { (counted : Id → ℕ) × AreCounts counted counts.now.entries
        × (counted id + 1 < 2 ^ 64) }
    ensures { OnOk result ((counted : Id → ℕ) → AreCounts counted counts.old.entries
        → AreCounts (with_one (same_id id) counted) counts.new.entries) }
{
    let count = match counts.get(&id) {
        Some(count) => *count,
        None => 0,
    };
    counts.insert(id, count + 1)?;
    Ok(())
}

/// Counts the dependencies that are not committed.
fn count_missing(
    counts: &mut IndexMap<Id, usize, Seed>,
    ids: &CommittedIds,
    deps: &[Id],
) -> Result<(), Memory>
    requires rising { IsRising deps.now }
    requires room { (counted : Id → ℕ) × AreCounts counted counts.now.entries
        × ((x : Id) → counted x + 1 < 2 ^ 64) }
    ensures { OnOk result ((counted : Id → ℕ) → AreCounts counted counts.old.entries
        → AreCounts (with_one (is_missing ids.now deps.now) counted) counts.new.entries) }
{
    for dep in deps {
        if ids.position(*dep).is_none() {
            count_one(counts, *dep)?;
        }
    }
    Ok(())
}

/// The dependencies of some versions, one list after another.
fn gather_deps(alloc: Global, versions: &Versions, numbers: &[usize]) -> Result<Vec<Id>, Memory>
    requires { All (λ n. n < length versions.now.keys) numbers.now }
    ensures { IfOk result (λ deps. deps.items ≡ deps_at_numbers versions.now.keys numbers.now) }
{
    let mut deps = Vec::new(alloc);
    for number in numbers {
        deps.extend_from_slice(versions.entry(*number).deps())?;
    }
    Ok(deps)
}

/// Counts the dependencies of an instance that are not committed, each once, by the numbers of its
/// versions.
fn count_instance(
    alloc: Global,
    catalog: &Catalog,
    numbers: &[usize],
    counts: &mut IndexMap<Id, usize, Seed>,
) -> Result<(), Memory>
    requires known { All (λ n. n < length catalog.now.noted.versions.keys) numbers.now }
    requires room { (counted : Id → ℕ) × AreCounts counted counts.now.entries
        × ((x : Id) → counted x + 1 < 2 ^ 64) }
    ensures { OnOk result ((counted : Id → ℕ) → AreCounts counted counts.old.entries
        → AreCounts (with_one (is_missing catalog.now.ids
        (deps_at_numbers catalog.now.noted.versions.keys numbers.now)) counted)
        counts.new.entries) }
{
    // Most instances have one version, whose dependencies rise already.
    if numbers.len() == 1 {
        let only = catalog.noted.versions.entry(numbers[0]);
        return count_missing(counts, &catalog.ids, only.deps());
    }
    let gathered = gather_deps(alloc, &catalog.noted.versions, numbers)?;
    let deps = sort_unique(alloc, &gathered)?;
    count_missing(counts, &catalog.ids, &deps)
}

/// How many instances depend on each Id that no log commits.
fn count_all(
    alloc: Global,
    catalog: &Catalog,
    seed: Seed,
) -> Result<IndexMap<Id, usize, Seed>, Memory>
    requires { (lines : List Placed) × (bad : List BadLineAt) × IsCatalogOf lines bad catalog.now }
    ensures { IfOk result (λ counts. (lines : List Placed) (bad : List BadLineAt)
        → IsCatalogOf lines bad catalog.now
        → AreCounts (missing_count lines catalog.now.ids catalog.now.ids) counts.entries) }
{
    let mut counts = IndexMap::with_hasher(alloc, seed);
    for k in 0..catalog.ids.ids().len() {
        count_instance(alloc, catalog, catalog.versions.row(k), &mut counts)?;
    }
    Ok(counts)
}

/// Appends a line for each Id, with its count.
fn append_counts(
    alloc: Global,
    text: &mut Vec<u8>,
    counts: &IndexMap<Id, usize, Seed>,
) -> Result<(), Memory>
    ensures { OnOk result (text.new.items ≡ text.old.items
        ++ flat_map (λ e. line_of (missing_count_data e.0 e.1)) counts.now.entries) }
{
    for i in 0..counts.len() {
        let Some((id, count)) = counts.get_index(i) else {
            unreachable!()
        };
        append_missing(alloc, text, *id, *count)?;
    }
    Ok(())
}

/// Appends a line for each dependency that no log commits, by rising Id, with how many instances
/// depend on it.
pub(crate) fn append_all_missing(
    alloc: Global,
    text: &mut Vec<u8>,
    catalog: &Catalog,
    seed: Seed,
) -> Result<(), Memory>
    requires { (lines : List Placed) × (bad : List BadLineAt) × IsCatalogOf lines bad catalog.now }
    ensures { OnOk result ((lines : List Placed) (bad : List BadLineAt)
        → IsCatalogOf lines bad catalog.now
        → (missing : List Id) × AreMissingDeps lines catalog.now.ids missing
        × (text.new.items ≡ text.old.items ++ missing_counts_text lines catalog.now.ids missing)) }
{
    let mut counts = count_all(alloc, catalog, seed)?;
    counts.sort_unstable_keys()?;
    append_counts(alloc, text, &counts)
}
