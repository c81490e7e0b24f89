//! An index that answers whether one node reaches another without a search.
ghost use Rattle.std.specs.Prelude.{◌≡◌, ◌+◌, ◌<◌, ◌≤◌, length, slice_index, All, Contains, IfOk};
ghost use Rattle.std.specs.Prelude.{IsTrue};
ghost use Rattle.epx_types.specs.ExecutionOrder.{IsExecutionOrder};
ghost use Rattle.epx_graph.specs.Graphs.{DependencyGraph, edges_of};
ghost use Rattle.epx_graph.specs.GraphOf.{IsGraphOf};
ghost use Rattle.epx_graph.specs.NodePaths.{NodeReaches};
ghost use Rattle.epx_audit.specs.inner.ReachIndexes.{AreOrderNodes, IsChain, IsReachIndex};
ghost use Rattle.epx_audit.specs.inner.ReachIndexes.{LeadersJoin};

use crate::path_cover::PathCover;
use epx_committed::Merged;
use epx_components::OrderList;
use epx_graph::Graph;
use epx_types::Memory;
use std::alloc::Global;

/// The nodes of an order, and its chains. A chain is a run of positions in which each reaches the
/// one before it.
#[derive(Debug)]
pub(crate) struct ReachIndex {
    /// The node at each position.
    pub(crate) nodes: Vec<usize>,
    /// The first position of the component at each position.
    pub(crate) starts: Vec<usize>,
    /// The position of each node, or 0 if the node is not in the order.
    pub(crate) positions: Vec<usize>,
    /// For each node, the earliest position from which every position up to its own is reachable.
    /// If the node is not in the order, it is greater than `positions` has for the node, so that
    /// the range is empty.
    pub(crate) chain_start: Vec<usize>,
    /// A cover of the nodes by paths, if they have one of few paths.
    pub(crate) cover: Option<PathCover>,
}

impl Drop for ReachIndex {
    fn drop(self) {
        let ReachIndex {
            nodes: _,
            starts: _,
            positions: _,
            chain_start: _,
            cover: _,
        } = self;
    }
}

impl ReachIndex {
    /// The index of an order. Beside the cover, the time is linear in the positions, with a binary
    /// search among the dependencies of each.
    pub(crate) fn of(
        alloc: Global,
        merged: &Merged,
        graph: &Graph,
        order: &OrderList,
        nodes: Vec<usize>,
    ) -> Result<ReachIndex, Memory>
        requires graph { IsGraphOf merged.now graph.now }
        requires order { IsExecutionOrder merged.now order.now }
        requires nodes { AreOrderNodes merged.now order.now nodes.items }
        ensures reach { IfOk result (IsReachIndex graph.now) }
        ensures nodes { IfOk result (λ reach. reach.nodes.items ≡ nodes.items) }
    {
        let mut starts = Vec::with_capacity(alloc, nodes.len())?;
        let mut positions = vec![in alloc; 0; graph.len()]?;
        let mut chain_start = vec![in alloc; 1; graph.len()]?;
        let mut chain = Chain { start: 0, low: 0 };
        for position in 0..nodes.len() {
            let node = nodes[position];
            chain = chain.next(graph, order, &nodes, position);
            starts.push(chain.start)?;
            positions[node] = position;
            chain_start[node] = chain.low;
        }
        let cover = PathCover::of(alloc, merged, graph, order, &nodes)?;
        Ok(ReachIndex {
            nodes,
            starts,
            positions,
            chain_start,
            cover,
        })
    }

    /// Whether there is a cover by at most this many paths.
    pub(crate) fn has_paths(&self, most: usize) -> bool {
        match &self.cover {
            Some(cover) => cover.count_paths() <= most,
            None => false,
        }
    }

    /// Whether the cover shows that one node of the order reaches another.
    pub(crate) fn shows_path(&self, from: usize, to: usize) -> bool
        requires reach { (g : DependencyGraph) × IsReachIndex g self.now }
        requires from { from < length self.now.positions.items }
        requires to { to < length self.now.positions.items }
        ensures { IsTrue result → (g : DependencyGraph) → IsReachIndex g self.now →
            NodeReaches (edges_of g) from to }
    {
        let Some(cover) = &self.cover else {
            return false;
        };
        let (later, earlier) = (self.positions[from], self.positions[to]);
        self.has_node_at(later, from)
            && self.has_node_at(earlier, to)
            && cover.reaches(later, earlier)
    }

    /// Whether a position has a node. The position of a node that is not in the order does not.
    fn has_node_at(&self, position: usize, node: usize) -> bool
        ensures { IsTrue result → (position < length self.now.nodes.items)
            × (slice_index self.now.nodes.items position ≡ node) }
    {
        position < self.nodes.len() && self.nodes[position] == node
    }

    /// Whether a node reaches the node at a position by its chain.
    pub(crate) fn reaches_by_chain(&self, node: usize, position: usize) -> bool
        requires positions { node < length self.now.positions.items }
        requires chain_start { node < length self.now.chain_start.items }
        ensures { IsTrue result → (slice_index self.now.chain_start.items node ≤ position) ×
            (position ≤ slice_index self.now.positions.items node) }
    {
        self.chain_start[node] <= position && position <= self.positions[node]
    }
}

/// The chain that ends at a position.
#[derive(Clone, Copy, Debug)]
struct Chain {
    /// The first position of the component of its end.
    start: usize,
    /// The end of the chain reaches every position from here up to its own.
    low: usize,
}

impl Chain {
    /// The chain that ends at a position, from the chain that ends at the position before it.
    fn next(self, graph: &Graph, order: &OrderList, nodes: &[usize], position: usize) -> Chain
        requires whole { length nodes.now ≡ length order.now }
        requires in_range { All (λ k. k < length graph.now.ids) nodes.now }
        requires joined { LeadersJoin (edges_of graph.now) order.now nodes.now }
        requires position { position < length nodes.now }
        requires chain { IsChain (edges_of graph.now) nodes.now position self }
        ensures { IsChain (edges_of graph.now) nodes.now (position + 1) result }
    {
        if position == 0 {
            return Chain { start: 0, low: 0 };
        }
        if order.component_of(position) == order.component_of(position - 1) {
            return self;
        }
        if has_edge(graph, nodes[position], nodes[position - 1]) {
            return Chain {
                start: position,
                low: self.low,
            };
        }
        Chain {
            start: position,
            low: position,
        }
    }
}

/// Whether a node has an edge to another, by binary search.
pub(crate) fn has_edge(graph: &Graph, from: usize, to: usize) -> bool
    requires { from < length graph.now.ids }
    ensures { IsTrue result → Contains (edges_of graph.now from) to }
{
    let targets = graph.edges(from);
    match targets.binary_search(&to) {
        Ok(position) => targets[position] == to,
        Err(_) => false,
    }
}
