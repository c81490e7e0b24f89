//! The leaders of the components.
ghost use Rattle.std.specs.Prelude.{◌≡◌, ℕ, ◌<◌, length, IfOk};
ghost use Rattle.epx_graph.specs.Graphs.{edges_of};
ghost use Rattle.epx_components.specs.NodeComponents.{IsNodeLeader};
ghost use Rattle.epx_components.specs.between.Partitions.{parts, number_for, IsPartitionOf};

use crate::partition::Partition;
use epx_graph::Graph;
use epx_types::Memory;
use std::alloc::Global;

/// The leader of each component: its least node.
pub(crate) fn find_leaders(
    alloc: Global,
    graph: &Graph,
    partition: &Partition,
) -> Result<Vec<usize>, Memory>
    requires { IsPartitionOf graph.now (parts partition.now) }
    ensures len { IfOk result (λ leaders. length leaders.items ≡ (parts partition.now).count) }
    ensures each { IfOk result (λ leaders. (k : ℕ) → k < length graph.now.ids
        → IsNodeLeader (edges_of graph.now) k (number_for (parts partition.now) leaders.items k)) }
{
    let mut leaders = vec![in alloc; 0; partition.count]?;
    for node in (0..graph.len()).rev() {
        leaders[partition.component[node]] = node;
    }
    Ok(leaders)
}
