//! The ranks of the ready instances.
ghost use Rattle.std.specs.Prelude.{◌≡◌, ◌<◌, List, Contains, Some, slice_get, IfNone, IfOk};
ghost use Rattle.std.specs.Prelude.{IfSome};
ghost use Rattle.epx_types.specs.declared.id.Id.{Id};
ghost use Rattle.epx_types.specs.CommittedMap.{IsCommitted};
ghost use Rattle.epx_types.specs.Done.{remaining};
ghost use Rattle.epx_types.specs.ExecutionOrder.{IsRanked};
ghost use Rattle.epx_types.specs.Instances.{Instance};
ghost use Rattle.epx_types.specs.Readiness.{IsReady};
ghost use Rattle.epx_graph.specs.GraphOf.{IsGraphOfRest, IsGraphOf};
ghost use Rattle.epx_components.specs.Ranks.{ranked};
ghost use Rattle.epx_ranking.specs.inner.ReadyRanks.{AreReadyRanks};
ghost use Rattle.epx_components.specs.between.NodeRanks.{IsNodeRank};

use epx_committed::Merged;
use epx_components::{NodeRank, NodeRanks, Rank};
use epx_graph::Graph;
use epx_types::{Id, Memory};
use std::alloc::Global;

/// The ranks of the ready instances of the remaining map. The time is linear in the dependencies.
/// If some instances are done, n log n in the instances is added.
pub(crate) fn ready_ranks(
    alloc: Global,
    merged: &Merged,
    graph: &Graph,
) -> Result<Vec<Rank>, Memory>
    requires { IsGraphOfRest merged.now graph.now }
    ensures { IfOk result (λ ranks. (done : List Id)
        → IsGraphOf (remaining done merged.now) graph.now
        → AreReadyRanks (remaining done merged.now) ranks.items) }
{
    let node_ranks = NodeRanks::of(alloc, graph)?;
    // Most instances are ready as a rule. Room that is not used is never touched.
    let mut ranks = Vec::with_capacity(alloc, graph.committed_len())?;
    for node in 0..graph.committed_len() {
        if let Some(rank) = rank_of(merged, graph, node, node_ranks.get(node)) {
            ranks.push(rank)?;
        }
    }
    Ok(ranks)
}

/// The rank of the instance of a committed node, if the instance is ready.
fn rank_of(merged: &Merged, graph: &Graph, node: usize, node_rank: NodeRank) -> Option<Rank>
    requires graph { IsGraphOfRest merged.now graph.now }
    requires committed { node < graph.now.committed }
    requires node_rank { IsNodeRank graph.now node node_rank }
    ensures id { IfSome result (λ rank. slice_get graph.now.ids node ≡ Some rank.id) }
    ensures rank { IfSome result (λ rank. (done : List Id)
        → IsGraphOf (remaining done merged.now) graph.now
        → IsRanked (remaining done merged.now) (ranked rank)) }
    ensures none { IfNone result ((done : List Id) (x : Id)
        → IsGraphOf (remaining done merged.now) graph.now → slice_get graph.now.ids node ≡ Some x
        → ¬ IsReady (remaining done merged.now) x) }
{
    if node_rank.reaches_missing {
        return None;
    }
    let id = graph.id(node);
    Some(Rank {
        depth: node_rank.depth,
        leader: graph.id(node_rank.leader),
        seq: seq_of(merged, node, id),
        id,
    })
}

/// The sequence number of a committed instance. If nothing is done, the node is the position in the
/// map, and no Id has to be searched for.
fn seq_of(merged: &Merged, node: usize, id: Id) -> u64
    requires { IsCommitted merged.now id }
    ensures { (i : Instance) × Contains merged.now i × (i.id ≡ id) × (i.seq ≡ result) }
{
    if node < merged.len() && merged.id_at(node) == id {
        return merged.seq_at(node);
    }
    match merged.get(id) {
        Some(entry) => entry.seq(),
        None => unreachable!(),
    }
}
