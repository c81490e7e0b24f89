//! Clusters: the components that have at least two members.
ghost use Rattle.std.specs.Prelude.{◌≡◌, ◌<◌, List, length, slice_get, Some, IfOk};
ghost use Rattle.epx_types.specs.declared.id.Id.{Id};
ghost use Rattle.epx_types.specs.Instances.{Instance};
ghost use Rattle.epx_graph.specs.GraphOf.{IsGraphOf};
ghost use Rattle.epx_graph.specs.Graphs.{IsGraph};
ghost use Rattle.epx_components.specs.between.NodeRanks.{IsNodeRank};
ghost use Rattle.epx_picture.specs.inner.Clusters.{AreLeaderMarks, AreNodeRanks};
ghost use Rattle.epx_picture.specs.NodeBoxes.{IsCluster};

use epx_components::{NodeRank, NodeRanks};
use epx_graph::Graph;
use epx_types::{Id, Memory};
use std::alloc::Global;

/// For each node, whether it is the leader of another node.
pub(crate) fn mark_leaders(
    alloc: Global,
    graph: &Graph,
    node_ranks: &NodeRanks,
) -> Result<Vec<bool>, Memory>
    requires { AreNodeRanks graph.now node_ranks.now }
    ensures { IfOk result
        (λ marks. AreLeaderMarks node_ranks.now (length graph.now.ids) marks.items) }
{
    let mut marks = vec![in alloc; false; graph.len()]?;
    for node in 0..graph.len() {
        let leader = node_ranks.get(node).leader;
        if leader != node {
            marks[leader] = true;
        }
    }
    Ok(marks)
}

/// The cluster of a node, or None if its component has no other member.
pub(crate) fn cluster_of(
    graph: &Graph,
    leader_marks: &[bool],
    node: usize,
    node_rank: NodeRank,
) -> Option<Id>
    requires graph { IsGraph graph.now }
    requires node { node < length graph.now.ids }
    requires node_rank { IsNodeRank graph.now node node_rank }
    requires leader_marks { (node_ranks : _) × AreNodeRanks graph.now node_ranks
        × AreLeaderMarks node_ranks (length graph.now.ids) leader_marks.now }
    ensures { (m : List Instance) (x : Id) → IsGraphOf m graph.now
        → slice_get graph.now.ids node ≡ Some x → IsCluster m x result }
{
    if node_rank.leader == node && !leader_marks[node] {
        return None;
    }
    Some(graph.id(node_rank.leader))
}
