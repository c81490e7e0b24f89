//! The nodes of what lies within some steps of an instance, along dependencies and against them.
ghost use Rattle.std.specs.Prelude.{◌≡◌, ◌<◌, [], Bool, List, length, map, All, Contains};
ghost use Rattle.std.specs.Prelude.{IfOk, OnOk};
ghost use Rattle.epx_types.specs.declared.id.Id.{Id};
ghost use Rattle.epx_types.specs.Instances.{Instance};
ghost use Rattle.epx_graph.specs.GraphOf.{IsGraphOf};
ghost use Rattle.epx_rows.specs.between.Rows.{AreTransposed};
ghost use Rattle.epx_picture.specs.Neighbourhoods.{IsWithinTest};
ghost use Rattle.epx_picture.specs.inner.NodeMarks.{AreMarksWithin, MarksMore, IsNextTo};

use epx_graph::Graph;
use epx_rows::Rows;
use epx_types::{Id, Memory};
use std::alloc::Global;

/// Marks the targets, and appends those that had no mark to the next level.
fn mark_targets(targets: &[usize], marks: &mut [bool], next: &mut Vec<usize>) -> Result<(), Memory>
    requires { All (λ k. k < length marks.old) targets.now }
    ensures { OnOk result (MarksMore (Contains targets.now)
        (record { marks = marks.old; level = next.old.items })
        (record { marks = marks.new; level = next.new.items })) }
{
    for target in targets {
        if marks[*target] {
            continue;
        }
        marks[*target] = true;
        next.push(*target)?;
    }
    Ok(())
}

/// Marks what is one step away from a level, and returns the next level.
fn mark_level(
    alloc: Global,
    graph: &Graph,
    sources: &Rows,
    level: &[usize],
    marks: &mut [bool],
) -> Result<Vec<usize>, Memory>
    requires level { All (λ k. k < length graph.now.ids) level.now }
    requires nodes { length marks.old ≡ length graph.now.ids }
    requires rows { length sources.now ≡ length graph.now.ids }
    requires sources { AreTransposed graph.now.edges sources.now }
    ensures { IfOk result (λ next. MarksMore (IsNextTo graph.now level.now)
        (record { marks = marks.old; level = [] })
        (record { marks = marks.new; level = next.items })) }
{
    let mut next = Vec::new(alloc);
    for node in level {
        mark_targets(graph.edges(*node), marks, &mut next)?;
        mark_targets(sources.row(*node), marks, &mut next)?;
    }
    Ok(next)
}

/// Marks the nodes within some steps of a node.
fn mark_within(alloc: Global, graph: &Graph, node: usize, steps: u64) -> Result<Vec<bool>, Memory>
    requires { node < length graph.now.ids }
    ensures { IfOk result (λ marks. AreMarksWithin graph.now steps node marks.items) }
{
    let sources = graph.sources(alloc)?;
    let mut marks = vec![in alloc; false; graph.len()]?;
    marks[node] = true;
    let mut level = vec![in alloc; node]?;
    for _step in 0..steps {
        // From here on more steps add nothing.
        if level.is_empty() {
            return Ok(marks);
        }
        level = mark_level(alloc, graph, &sources, &level, &mut marks)?;
    }
    Ok(marks)
}

/// For each node, whether its instance is within some steps of this one. Takes time linear in nodes
/// and edges.
pub(crate) fn nodes_within(
    alloc: Global,
    graph: &Graph,
    id: Id,
    steps: u64,
) -> Result<Vec<bool>, Memory>
    ensures { IfOk result (λ marks. (m : List Instance) (near : Id → Bool) → IsGraphOf m graph.now
        → IsWithinTest m steps id near → marks.items ≡ map near graph.now.ids) }
{
    match graph.node(id) {
        Some(node) => mark_within(alloc, graph, node, steps),
        None => Ok(vec![in alloc; false; graph.len()]?),
    }
}
