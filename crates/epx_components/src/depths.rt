//! The depths of the components.
ghost use Rattle.std.specs.Prelude.{◌≡◌, ℕ, ◌+◌, ◌-◌, ◌^◌, ◌<◌, min, length, ⊤, IfOk};
ghost use Rattle.epx_graph.specs.Graphs.{edges_of};
ghost use Rattle.epx_components.specs.between.NodeDepths.{IsNodeDepth};
ghost use Rattle.epx_components.specs.between.Partitions.{parts, number_for, IsPartitionOf};

use crate::bottom_up::collect_bottom_up;
use crate::collector::Collector;
use crate::partition::Partition;
use epx_graph::Graph;
use epx_types::Memory;
use std::alloc::Global;

/// The depth of each component: the greatest number of steps down from it.
pub(crate) fn find_depths(
    alloc: Global,
    graph: &Graph,
    partition: &Partition,
) -> Result<Vec<usize>, Memory>
    requires { IsPartitionOf graph.now (parts partition.now) }
    ensures len { IfOk result (λ depths. length depths.items ≡ (parts partition.now).count) }
    ensures each { IfOk result (λ depths. (k : ℕ) → k < length graph.now.ids
        → IsNodeDepth (edges_of graph.now) k (number_for (parts partition.now) depths.items k)) }
{
    let depths = vec![in alloc; 0; partition.count]?;
    Ok(collect_bottom_up(graph, partition, depths, &Depths))
}

/// Collects the greatest number of steps down. They are fewer than the components, so `add` never
/// saturates.
struct Depths;

impl Collector for Depths {
    type Value = usize;

    ghost none = { 0 };

    ghost has = { λ t depth. t < depth };

    ghost gives = { λ _ _ depth t. t < min (depth + 1) (2 ^ 64 - 1) };

    ghost can_add = { λ _ _. ⊤ };

    fn add(&self, depth: usize, _other: usize, below: usize) -> usize {
        depth.max(below.saturating_add(1))
    }
}
