//! How many instances wait for each missing one alone, and how many for several.
ghost use Rattle.std.specs.Prelude.{◌≡◌, ℕ, ◌<◌, length, IfOk};
ghost use Rattle.epx_components.specs.between.Partitions.{parts, IsPartitionOf};
ghost use Rattle.epx_blockers.specs.inner.NodeCounts.{AreMissingCounts, IsNodeCount};
ghost use Rattle.epx_blockers.specs.inner.ReachedNodes.{IsOnlyReached, IsReached};
ghost use Rattle.epx_blockers.specs.inner.ReachedNodes.{reached_for};
ghost use Rattle.epx_blockers.specs.declared.reached.Reached.TheVariants.{Several};

use crate::reached::{Reached, find_reached};
use epx_components::{Partition, find_components};
use epx_graph::Graph;
use epx_types::Memory;
use std::alloc::Global;

/// Numbers of committed nodes, by the missing ones that they reach.
#[derive(Debug, Drop)]
pub(crate) struct WaitingCounts {
    /// For each missing node, how many reach it and no other missing one.
    pub(crate) alone: Vec<usize>,
    /// How many reach more than one.
    pub(crate) several: usize,
}

/// Counts the committed nodes by what their components reach.
fn count_reached(
    alloc: Global,
    graph: &Graph,
    partition: &Partition,
    reached: &[Reached],
) -> Result<WaitingCounts, Memory>
    requires partition { IsPartitionOf graph.now (parts partition.now) }
    requires len { length reached.now ≡ (parts partition.now).count }
    requires each { (k : ℕ) → k < length graph.now.ids
        → IsReached graph.now k (reached_for (parts partition.now) reached.now k) }
    ensures alone { IfOk result (λ counts. AreMissingCounts graph.now
        (IsOnlyReached graph.now) graph.now.committed counts.alone.items) }
    ensures several { IfOk result (λ counts. IsNodeCount
        (λ k. IsReached graph.now k Several) graph.now.committed counts.several) }
{
    let committed = graph.committed_len();
    let mut alone = vec![in alloc; 0; graph.len() - committed]?;
    let mut several = 0;
    for node in 0..committed {
        match reached[partition.component[node]] {
            Reached::Nothing => {}
            Reached::One(missing) => alone[missing - committed] += 1,
            Reached::Several => several += 1,
        }
    }
    Ok(WaitingCounts { alone, several })
}

/// Counts the committed nodes by the missing ones that they reach. Takes time linear in nodes and
/// edges.
pub(crate) fn count_waiting(alloc: Global, graph: &Graph) -> Result<WaitingCounts, Memory>
    ensures alone { IfOk result (λ counts. AreMissingCounts graph.now
        (IsOnlyReached graph.now) graph.now.committed counts.alone.items) }
    ensures several { IfOk result (λ counts. IsNodeCount
        (λ k. IsReached graph.now k Several) graph.now.committed counts.several) }
{
    let partition = find_components(alloc, graph)?;
    let reached = find_reached(alloc, graph, &partition)?;
    count_reached(alloc, graph, &partition, &reached)
}
