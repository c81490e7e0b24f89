//! The lines of the gaps of all logs.
ghost use Rattle.std.specs.Prelude.{◌≡◌, ◌<◌, ◌≤◌, ◌++◌, ℕ, List, flat_map, length};
ghost use Rattle.std.specs.Prelude.{IfOk, OnOk};
ghost use Rattle.epx_types.specs.PlacedLines.{Placed};
ghost use Rattle.epx_types.specs.Limits.{max_logs};
ghost use Rattle.epx_merge.specs.LogLines.{BadLineAt};
ghost use Rattle.epx_report.specs.ReportLines.{line_of};
ghost use Rattle.epx_compare.specs.ComparisonLines.{lacks_data};
ghost use Rattle.epx_compare.specs.Comparisons.{gaps_text};
ghost use Rattle.epx_compare.specs.Gaps.{has_line};
ghost use Rattle.epx_compare.specs.inner.Catalogs.{IsCatalogOf};
ghost use Rattle.epx_compare.specs.inner.LogMarks.{IsMarking};

use crate::catalog::Catalog;
use crate::comparison_lines::append_lacks;
use crate::gaps::{Gap, find_gaps, mark_lines};
use crate::log_set::LogSet;
use epx_types::Memory;
use std::alloc::Global;

/// The logs that have a line of each instance.
fn marks_of(alloc: Global, catalog: &Catalog) -> Result<Vec<LogSet>, Memory>
    requires { (lines : List Placed) × (bad : List BadLineAt) × IsCatalogOf lines bad catalog.now }
    ensures len { IfOk result (λ marks. length marks.items ≡ length catalog.now.ids) }
    ensures each { IfOk result (λ marks. (lines : List Placed) (bad : List BadLineAt)
        → IsCatalogOf lines bad catalog.now → (log : ℕ) → log < max_logs
        → IsMarking (has_line lines log) log catalog.now.ids marks.items) }
{
    let instances = catalog.ids.ids().len();
    mark_lines(alloc, &catalog.noted.rows, &catalog.positions, instances)
}

/// Appends a line for each gap of a log.
fn append_each(alloc: Global, text: &mut Vec<u8>, log: usize, gaps: &[Gap]) -> Result<(), Memory>
    ensures { OnOk result (text.new.items ≡ text.old.items
        ++ flat_map (λ gap. line_of (lacks_data log gap)) gaps.now) }
{
    for gap in gaps {
        append_lacks(alloc, text, log, *gap)?;
    }
    Ok(())
}

/// Appends a line for each gap of each log.
pub(crate) fn append_gaps(
    alloc: Global,
    text: &mut Vec<u8>,
    logs: usize,
    catalog: &Catalog,
) -> Result<(), Memory>
    requires logs { logs ≤ max_logs }
    requires catalog { (lines : List Placed) × (bad : List BadLineAt)
        × IsCatalogOf lines bad catalog.now }
    ensures { OnOk result ((lines : List Placed) (bad : List BadLineAt)
        → IsCatalogOf lines bad catalog.now
        → text.new.items ≡ text.old.items ++ gaps_text logs lines catalog.now.ids) }
{
    let marks = marks_of(alloc, catalog)?;
    for log in 0..logs {
        let gaps = find_gaps(alloc, catalog.ids.ids(), &marks, log)?;
        append_each(alloc, text, log, &gaps)?;
    }
    Ok(())
}
