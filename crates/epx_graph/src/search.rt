//! The search of a graph level by level: first the nodes one edge away from a start, then those two
//! edges away, and so on.
ghost use Rattle.std.specs.Prelude.{◌≡◌, ◌<◌, ◌≤◌, [], length, flat_map, All, IfOk, OnOk};
ghost use Rattle.epx_rows.specs.between.Rows.{row_of};
ghost use Rattle.epx_graph.specs.inner.Searches.{AreClosed, AreFirstMarks, IsSearchFrom, IsVisit};
ghost use Rattle.epx_graph.specs.inner.Searches.{mark_by};

use epx_rows::Rows;
use epx_types::Memory;
use std::alloc::Global;
use std::mem;

/// What a search marks a node with.
#[derive(Clone, Copy, Debug)]
pub(crate) enum MarkKind {
    /// The first start that leads to it.
    Start,
    /// The number of edges of a shortest path from that start.
    Steps,
}

/// The mark of a node that is this number of edges away from a start.
fn mark_after(kind: MarkKind, start: usize, steps: usize) -> usize
    ensures { result ≡ mark_by kind start steps }
{
    match kind {
        MarkKind::Start => start,
        MarkKind::Steps => steps,
    }
}

/// The row of a node. After the last row, rows are empty.
fn targets_of(rows: &Rows, node: usize) -> &[usize]
    ensures { result.now ≡ row_of rows.now node }
{
    if node < rows.len() {
        return rows.row(node);
    }
    &[]
}

/// Marks the targets that have no mark, and appends them to the next level.
fn visit(
    targets: &[usize],
    mark: usize,
    marks: &mut [Option<usize>],
    next: &mut Vec<usize>,
) -> Result<(), Memory>
    requires { All (λ k. k < length marks.old) targets.now }
    ensures { OnOk result (IsVisit targets.now mark
        (record { marks = marks.old; level = next.old.items })
        (record { marks = marks.new; level = next.new.items })) }
{
    for target in targets {
        if marks[*target].is_some() {
            continue;
        }
        marks[*target] = Some(mark);
        next.push(*target)?;
    }
    Ok(())
}

/// Visits the targets of all nodes of a level.
fn visit_level(
    rows: &Rows,
    level: &[usize],
    mark: usize,
    marks: &mut [Option<usize>],
    next: &mut Vec<usize>,
) -> Result<(), Memory>
    requires { All (All (λ k. k < length marks.old)) rows.now }
    ensures { OnOk result (IsVisit (flat_map (row_of rows.now) level.now) mark
        (record { marks = marks.old; level = next.old.items })
        (record { marks = marks.new; level = next.new.items })) }
{
    for node in level {
        visit(targets_of(rows, *node), mark, marks, next)?;
    }
    Ok(())
}

/// Marks all nodes without a mark that paths from `start` lead to. Both lists are room for levels.
fn search_from(
    rows: &Rows,
    start: usize,
    kind: MarkKind,
    marks: &mut [Option<usize>],
    level: &mut Vec<usize>,
    next: &mut Vec<usize>,
) -> Result<(), Memory>
    requires start { start < length marks.old }
    requires rows { All (All (λ k. k < length marks.old)) rows.now }
    requires level { level.old.items ≡ [] }
    requires next { next.old.items ≡ [] }
    requires closed { AreClosed rows.now marks.old }
    ensures level { OnOk result (level.new.items ≡ []) }
    ensures next { OnOk result (next.new.items ≡ []) }
    ensures marks { OnOk result
        (IsSearchFrom rows.now start (mark_by kind start) marks.old marks.new) }
{
    visit(&[start], mark_after(kind, start, 0), marks, level)?;
    let mut steps = 0;
    while !level.is_empty() {
        steps += 1;
        visit_level(rows, level, mark_after(kind, start, steps), marks, next)?;
        level.clear();
        mem::swap(level, next);
    }
    Ok(())
}

/// Searches from each node from `first` to `end` in turn, and marks each node that is found for the
/// first time. Takes time linear in nodes and edges. A row has the targets of a node's edges.
pub(crate) fn search(
    alloc: Global,
    rows: &Rows,
    nodes: usize,
    first: usize,
    end: usize,
    kind: MarkKind,
) -> Result<Vec<Option<usize>>, Memory>
    requires rows { All (All (λ k. k < nodes)) rows.now }
    requires first { first ≤ end }
    requires end { end ≤ nodes }
    ensures { IfOk result (λ marks.
        AreFirstMarks rows.now (mark_by kind) first end nodes marks.items) }
{
    let mut marks = vec![in alloc; None; nodes]?;
    let mut level = Vec::new(alloc);
    let mut next = Vec::new(alloc);
    for start in first..end {
        search_from(rows, start, kind, &mut marks, &mut level, &mut next)?;
    }
    Ok(marks)
}
