//! Neighbours that are not related.
ghost use Rattle.std.specs.Prelude.{◌≡◌, ◌↔◌, length, Contains, IfOk};
ghost use Rattle.epx_neighbours.specs.declared.uncovered_row.UncoveredRow.{UncoveredRow};
ghost use Rattle.epx_neighbours.specs.inner.UncoveredRows.{AreRows, HavePositionsWithin};
ghost use Rattle.epx_neighbours.specs.inner.UncoveredRows.{IsUnmarked};

use crate::neighbours::Neighbours;
use epx_types::{Id, Memory};
use std::alloc::Global;

/// Neighbours of which neither reaches the other.
#[derive(Clone, Copy, Debug, PartialEq, Eq, PartialOrd, Ord)]
pub(crate) struct UncoveredRow {
    /// The instance that is executed first.
    pub(crate) before: Id,
    pub(crate) after: Id,
    /// The number of the key.
    pub(crate) key: usize,
}

/// The rows of the neighbours without a mark, in the order of the neighbours.
fn unmarked_rows(
    alloc: Global,
    ids: &[Id],
    found: &[Neighbours],
    marks: &[bool],
) -> Result<Vec<UncoveredRow>, Memory>
    requires within { HavePositionsWithin (length ids.now) found.now }
    requires marks { length marks.now ≡ length found.now }
    ensures { IfOk result (λ rows. (r : UncoveredRow) → Contains rows.items r
        ↔ IsUnmarked ids.now found.now marks.now (length found.now) r) }
{
    let mut rows = Vec::new(alloc);
    for index in 0..found.len() {
        if !marks[index] {
            let neighbours = found[index];
            rows.push(UncoveredRow {
                before: ids[neighbours.before],
                after: ids[neighbours.after],
                key: neighbours.key,
            })?;
        }
    }
    Ok(rows)
}

/// The rows of the neighbours without a mark, each once, rising.
pub(crate) fn rows_of(
    alloc: Global,
    ids: &[Id],
    found: &[Neighbours],
    marks: &[bool],
) -> Result<Vec<UncoveredRow>, Memory>
    requires within { HavePositionsWithin (length ids.now) found.now }
    requires marks { length marks.now ≡ length found.now }
    ensures { IfOk result (λ rows. AreRows ids.now found.now marks.now rows.items) }
{
    let mut rows = unmarked_rows(alloc, ids, found, marks)?;
    rows.sort_unstable();
    rows.dedup();
    Ok(rows)
}
