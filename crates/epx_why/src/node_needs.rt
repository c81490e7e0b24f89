//! The instances of a range of nodes, with their distances.
ghost use Rattle.std.specs.Prelude.{◌≡◌, ◌≤◌, ◌⊎◌, length, IfOk};
ghost use Rattle.epx_graph.specs.Graphs.{IsGraph};
ghost use Rattle.epx_why.specs.inner.NodeNeeds.{AreNeedsIn};

use crate::need::Need;
use epx_graph::Graph;
use epx_types::Memory;
use std::alloc::Global;

/// The instances of the nodes from `start` to `end` that have a distance. The nodes are all
/// committed or all missing.
pub(crate) fn needs_in(
    alloc: Global,
    graph: &Graph,
    distances: &[Option<usize>],
    start: usize,
    end: usize,
) -> Result<Vec<Need>, Memory>
    requires graph { IsGraph graph.now }
    requires distances { length distances.now ≡ length graph.now.ids }
    requires start { start ≤ end }
    requires end { end ≤ length graph.now.ids }
    requires one_kind { (end ≤ graph.now.committed) ⊎ (graph.now.committed ≤ start) }
    ensures { IfOk result (λ needs.
        AreNeedsIn graph.now distances.now start end needs.items) }
{
    let mut needs = Vec::new(alloc);
    for node in start..end {
        let Some(steps) = distances[node] else {
            continue;
        };
        needs.push(Need {
            id: graph.id(node),
            steps,
        })?;
    }
    Ok(needs)
}
