//! Which nodes are ready.
ghost use Rattle.std.specs.Prelude.{◌≡◌, List, Some, slice_get, IfOk, MatchOption};
ghost use Rattle.epx_types.specs.Instances.{Instance};
ghost use Rattle.epx_types.specs.Readiness.{IsReady};
ghost use Rattle.epx_graph.specs.GraphOf.{IsGraphOf};
ghost use Rattle.epx_components.specs.between.Partitions.{parts, IsPartitionOf};
ghost use Rattle.epx_components.specs.between.ReadyMarks.{AreReadyMarks};

use crate::missing::find_missing;
use crate::partition::Partition;
use epx_graph::Graph;
use epx_types::{Id, Memory};
use std::alloc::Global;

/// For each node, whether its instance is ready.
pub fn ready_nodes(alloc: Global, graph: &Graph, partition: &Partition) -> Result<Vec<bool>, Memory>
    requires { IsPartitionOf graph.now (parts partition.now) }
    ensures { IfOk result (λ ready. AreReadyMarks graph.now ready.items) }
{
    let missing = find_missing(alloc, graph, partition)?;
    let mut ready = Vec::with_capacity(alloc, graph.len())?;
    for component in &partition.component {
        ready.push(!missing[*component])?;
    }
    Ok(ready)
}

/// The node of an instance, if it is ready.
pub fn ready_node(graph: &Graph, ready: &[bool], id: Id) -> Option<usize>
    requires { AreReadyMarks graph.now ready.now }
    ensures node { MatchOption result (Unit {0}) (λ node. slice_get graph.now.ids node ≡ Some id) }
    ensures ready { (m : List Instance) → IsGraphOf m graph.now
        → MatchOption result (¬ IsReady m id) (λ _. IsReady m id) }
{
    let node = graph.node(id)?;
    if ready[node] { Some(node) } else { None }
}
