//! Finds the components that reach a missing node.
ghost use Rattle.std.specs.Prelude.{◌≡◌, ◌↔◌, ℕ, ◌<◌, length, false, ⊤, IsTrue, IfOk};
ghost use Rattle.epx_graph.specs.Graphs.{edges_of};
ghost use Rattle.epx_components.specs.between.MissingNodes.{ReachesMissing};
ghost use Rattle.epx_components.specs.between.Partitions.{parts, mark_for, IsPartitionOf};

use crate::bottom_up::collect_bottom_up;
use crate::collector::Collector;
use crate::partition::Partition;
use epx_graph::Graph;
use epx_types::Memory;
use std::alloc::Global;

/// For each component, whether it reaches a missing node. Takes time linear in nodes and edges.
pub fn find_missing(
    alloc: Global,
    graph: &Graph,
    partition: &Partition,
) -> Result<Vec<bool>, Memory>
    requires { IsPartitionOf graph.now (parts partition.now) }
    ensures len { IfOk result (λ marks. length marks.items ≡ (parts partition.now).count) }
    ensures each { IfOk result (λ marks. (k : ℕ) → k < length graph.now.ids
        → IsTrue (mark_for (parts partition.now) marks.items k)
        ↔ ReachesMissing (edges_of graph.now) graph.now.committed k) }
{
    let mut marks = vec![in alloc; false; partition.count]?;
    for node in graph.committed_len()..graph.len() {
        marks[partition.component[node]] = true;
    }
    // If no node is missing, no edge needs to be looked at.
    if graph.committed_len() == graph.len() {
        return Ok(marks);
    }
    Ok(collect_bottom_up(graph, partition, marks, &MissingMarks))
}

/// Collects whether a component reaches a missing node.
struct MissingMarks;

impl Collector for MissingMarks {
    type Value = bool;

    ghost none = { false };

    ghost has = { λ _ mark. IsTrue mark };

    ghost gives = { λ _ _ mark _. IsTrue mark };

    ghost can_add = { λ _ _. ⊤ };

    fn add(&self, mark: bool, _other: usize, below: bool) -> bool {
        mark || below
    }

    fn is_full(&self, mark: bool) -> bool {
        mark
    }
}
