//! Noted lines by instance.
ghost use Rattle.std.specs.Prelude.{◌≡◌, List, map, IfOk};
ghost use Rattle.epx_types.specs.PlacedLines.{Placed};
ghost use Rattle.epx_merge.specs.LogLines.{BadLineAt};
ghost use Rattle.epx_compare.specs.inner.Catalogs.{IsCatalogOf};
ghost use Rattle.epx_versions.specs.between.NotedRows.{AreNoted};

use crate::committed_ids::{CommittedIds, version_ids};
use epx_rows::Rows;
use epx_types::Memory;
use epx_versions::{Noted, NotedLine};
use std::alloc::Global;

/// The committed instances by rising Id, the versions of each, and the lines of each version.
pub(crate) struct Catalog {
    pub(crate) noted: Noted,
    pub(crate) ids: CommittedIds,
    /// The position in `ids` of the instance of each version.
    pub(crate) positions: Vec<usize>,
    /// For each instance, the numbers of its versions.
    pub(crate) versions: Rows,
    /// For each version, the indices of its rows.
    pub(crate) lines: Rows,
}

impl Drop for Catalog {
    fn drop(self) {
        let Catalog {
            noted: _,
            ids: _,
            positions: _,
            versions: _,
            lines: _,
        } = self;
    }
}

/// The number of the version of each row.
fn row_versions(alloc: Global, rows: &[NotedLine]) -> Result<Vec<usize>, Memory>
    ensures { IfOk result (λ numbers. numbers.items ≡ map (λ r. r.version) rows.now) }
{
    let mut numbers = Vec::with_capacity(alloc, rows.len())?;
    for row in rows {
        numbers.push(row.version)?;
    }
    Ok(numbers)
}

impl Catalog {
    /// Groups what is noted by instance and by version.
    pub(crate) fn of(alloc: Global, noted: Noted) -> Result<Catalog, Memory>
        requires { (lines : List Placed) × (bad : List BadLineAt) × AreNoted lines bad noted }
        ensures { IfOk result (λ c. (lines : List Placed) (bad : List BadLineAt)
            → AreNoted lines bad noted → IsCatalogOf lines bad c) }
    {
        let named = version_ids(alloc, &noted.versions)?;
        let ids = CommittedIds::of(alloc, &named)?;
        let positions = ids.positions(alloc, &named)?;
        let versions = Rows::group_positions(alloc, &positions, ids.ids().len())?;
        let numbers = row_versions(alloc, &noted.rows)?;
        let lines = Rows::group_positions(alloc, &numbers, noted.versions.len())?;
        Ok(Catalog {
            noted,
            ids,
            positions,
            versions,
            lines,
        })
    }
}
