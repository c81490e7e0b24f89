//! The instances that a log lacks.
ghost use Rattle.std.specs.Prelude.{◌≡◌, ◌<◌, ◌∷◌, ℕ, Bool, length, reverse, drop, All};
ghost use Rattle.std.specs.Prelude.{if◌then◌else◌, IfOk, OnOk, Some};
ghost use Rattle.std.specs.List.{list_any};
ghost use Rattle.epx_types.specs.declared.id.Id.{Id};
ghost use Rattle.epx_types.specs.Limits.{max_logs};
ghost use Rattle.epx_compare.specs.Gaps.{gaps_of, goes_on, widened};
ghost use Rattle.epx_compare.specs.inner.LogMarks.{is_line_in, is_log_marked, IsMarking};

use crate::log_set::LogSet;
use epx_types::limits::MAX_LOGS;
use epx_types::{Id, Memory};
use epx_versions::NotedLine;
use std::alloc::Global;
use std::marker::Model;

/// Instances of a replica, by the first and the last number.
#[derive(Clone, Copy, Debug)]
pub(crate) struct Gap {
    pub(crate) replica: u8,
    pub(crate) from: u64,
    pub(crate) to: u64,
}

impl Model for Gap {
    ghost use Rattle.epx_compare.specs.Gaps.{Gap as GapView};

    ghost Value = { GapView };

    ghost view = { λ g. record { replica = g.replica; from = g.from; to = g.to } };

    ghost inverse = { λ v. record { replica = v.replica; from = v.from; to = v.to } };
}

/// The logs that have a line of each instance. `positions` has the position of the instance of
/// each version.
pub(crate) fn mark_lines(
    alloc: Global,
    rows: &[NotedLine],
    positions: &[usize],
    instances: usize,
) -> Result<Vec<LogSet>, Memory>
    requires versions { All (λ row. row.version < length positions.now) rows.now }
    requires positions { All (λ k. k < instances) positions.now }
    ensures len { IfOk result (λ marks. length marks.items ≡ instances) }
    ensures each { IfOk result (λ marks. (k log : ℕ) → log < max_logs
        → is_log_marked log marks.items k ≡ list_any (is_line_in positions.now log k) rows.now) }
{
    let mut marks = vec![in alloc; LogSet::empty(); instances]?;
    for row in rows {
        if row.place.log < MAX_LOGS {
            marks[positions[row.version]].insert(row.place.log);
        }
    }
    Ok(marks)
}

/// Whether the Id at an index is of the replica, and lacked by the log.
fn goes_on_at(ids: &[Id], marks: &[LogSet], log: usize, index: usize, replica: u8) -> bool
    requires len { length marks.now ≡ length ids.now }
    requires log { log < max_logs }
    ensures { (has : Id → Bool) → IsMarking has log ids.now marks.now
        → result ≡ goes_on has replica (drop index ids.now) }
{
    if index >= ids.len() {
        return false;
    }
    ids[index].replica == replica && !marks[index].contains(log)
}

/// Adds a lacked instance before the gaps, which are in falling order.
fn add_before(gaps: &mut Vec<Gap>, id: Id, goes_on: bool) -> Result<(), Memory>
    ensures { OnOk result (reverse gaps.new.items
        ≡ if goes_on then widened id.number (reverse gaps.old.items)
        else (record { replica = id.replica; from = id.number; to = id.number }
        ∷ reverse gaps.old.items)) }
{
    let gap = Gap {
        replica: id.replica,
        from: id.number,
        to: id.number,
    };
    if !goes_on {
        gaps.push(gap)?;
        return Ok(());
    }
    if let Some(last) = gaps.pop() {
        gaps.push(Gap {
            from: id.number,
            ..last
        })?;
    }
    Ok(())
}

/// The gaps of a log among rising Ids. `marks` has the logs that do not lack each Id.
pub(crate) fn find_gaps(
    alloc: Global,
    ids: &[Id],
    marks: &[LogSet],
    log: usize,
) -> Result<Vec<Gap>, Memory>
    requires len { length marks.now ≡ length ids.now }
    requires log { log < max_logs }
    ensures { IfOk result (λ gaps. (has : Id → Bool) → IsMarking has log ids.now marks.now
        → gaps.items ≡ gaps_of has ids.now) }
{
    let mut gaps = Vec::new(alloc);
    for index in (0..ids.len()).rev() {
        if !marks[index].contains(log) {
            let id = ids[index];
            let goes_on = goes_on_at(ids, marks, log, index + 1, id.replica);
            add_before(&mut gaps, id, goes_on)?;
        }
    }
    gaps.reverse();
    Ok(gaps)
}
