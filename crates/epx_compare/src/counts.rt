//! How many lines of each log commit an instance, and how many are bad.
ghost use Rattle.std.specs.Prelude.{◌≡◌, ◌==◌, ◌<◌, ◌++◌, ℕ, List, count_by, length, slice_index};
ghost use Rattle.std.specs.Prelude.{IfOk, OnOk};
ghost use Rattle.epx_types.specs.PlacedLines.{Placed};
ghost use Rattle.epx_merge.specs.LogLines.{BadLineAt};
ghost use Rattle.epx_compare.specs.Comparisons.{counts_text};
ghost use Rattle.epx_versions.specs.between.NotedRows.{AreNoted};

use crate::comparison_lines::append_log;
use epx_types::Memory;
use epx_versions::{Noted, NotedBadLine, NotedLine};
use std::alloc::Global;

/// How many of the rows are of each log.
fn count_rows(alloc: Global, rows: &[NotedLine], logs: usize) -> Result<Vec<usize>, Memory>
    ensures len { IfOk result (λ counts. length counts.items ≡ logs) }
    ensures each { IfOk result (λ counts. (log : ℕ) → log < logs
        → slice_index counts.items log ≡ count_by (λ r. r.place.log == log) rows.now) }
{
    let mut counts = vec![in alloc; 0; logs]?;
    for row in rows {
        let log = row.place.log;
        if log < logs {
            counts[log] += 1;
        }
    }
    Ok(counts)
}

/// How many of the bad lines are of each log.
fn count_bad(alloc: Global, bad: &[NotedBadLine], logs: usize) -> Result<Vec<usize>, Memory>
    ensures len { IfOk result (λ counts. length counts.items ≡ logs) }
    ensures each { IfOk result (λ counts. (log : ℕ) → log < logs
        → slice_index counts.items log ≡ count_by (λ b. b.place.log == log) bad.now) }
{
    let mut counts = vec![in alloc; 0; logs]?;
    for line in bad {
        let log = line.place.log;
        if log < logs {
            counts[log] += 1;
        }
    }
    Ok(counts)
}

/// Appends a line for each log.
pub(crate) fn append_counts(
    alloc: Global,
    text: &mut Vec<u8>,
    logs: usize,
    noted: &Noted,
) -> Result<(), Memory>
    ensures { OnOk result ((lines : List Placed) (bad : List BadLineAt)
        → AreNoted lines bad noted.now
        → text.new.items ≡ text.old.items ++ counts_text logs lines bad) }
{
    let lines = count_rows(alloc, &noted.rows, logs)?;
    let bad = count_bad(alloc, &noted.bad, logs)?;
    for log in 0..logs {
        append_log(alloc, text, log, lines[log], bad[log])?;
    }
    Ok(())
}
