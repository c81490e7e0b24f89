//! The distances of the nodes of a graph from a node, and to it.
ghost use Rattle.std.specs.Prelude.{◌<◌, length, IfOk};
ghost use Rattle.epx_graph.specs.between.NodeSteps.{AreDistancesFrom, AreDistancesTo};

use crate::graph::Graph;
use crate::search::{MarkKind, search};
use epx_types::Memory;
use std::alloc::Global;

/// For each node the number of edges of a shortest path from this one, or None where no path leads.
/// Takes linear time.
pub fn distances_from(
    alloc: Global,
    graph: &Graph,
    node: usize,
) -> Result<Vec<Option<usize>>, Memory>
    requires { node < length graph.now.ids }
    ensures { IfOk result (λ distances. AreDistancesFrom graph.now node distances.items) }
{
    let nodes = graph.len();
    search(alloc, graph.rows(), nodes, node, node + 1, MarkKind::Steps)
}

/// For each node the number of edges of a shortest path to this one, or None where no path leads.
/// Takes linear time.
pub fn distances_to(alloc: Global, graph: &Graph, node: usize) -> Result<Vec<Option<usize>>, Memory>
    requires { node < length graph.now.ids }
    ensures { IfOk result (λ distances. AreDistancesTo graph.now node distances.items) }
{
    let nodes = graph.len();
    let sources = graph.sources(alloc)?;
    search(alloc, &sources, nodes, node, node + 1, MarkKind::Steps)
}
