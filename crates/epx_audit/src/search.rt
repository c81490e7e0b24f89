//! Searches for paths between the nodes of an order.
ghost use Rattle.std.specs.Prelude.{◌≡◌, ℕ, ◌<◌, ◌⊎◌, length, slice_index, Contains, IfOk};
ghost use Rattle.std.specs.Prelude.{OnOk, IsTrue};
ghost use Rattle.epx_graph.specs.Graphs.{edges_of};
ghost use Rattle.epx_graph.specs.NodePaths.{NodeReaches};
ghost use Rattle.epx_audit.specs.inner.ReachIndexes.{IsReachIndex};

use crate::reach_index::{ReachIndex, has_edge};
use epx_graph::Graph;
use epx_types::Memory;
use std::alloc::Global;

/// All searches together may open this many times as many nodes as the graph has.
const OPENED_PER_NODE: usize = 64;

/// The state that searches share, so that a search does not have to clear the table of seen nodes.
#[derive(Debug, Drop)]
pub(crate) struct PathSearch {
    /// For each node, the number of the last search that opened it.
    seen: Vec<usize>,
    /// The number of the current search.
    search: usize,
    /// The nodes whose edges are still to be followed.
    opened: Vec<usize>,
    /// How many nodes may still be opened. When it is 0, each search ends without a path.
    left: usize,
}

impl PathSearch {
    /// The state before the first search of a graph with this many nodes.
    pub(crate) fn new(alloc: Global, nodes: usize) -> Result<PathSearch, Memory>
        ensures { IfOk result (λ path_search. length path_search.seen.items ≡ nodes) }
    {
        Ok(PathSearch {
            seen: vec![in alloc; 0; nodes]?,
            search: 0,
            opened: Vec::new(alloc),
            left: nodes.saturating_mul(OPENED_PER_NODE),
        })
    }

    /// Whether the index or a search shows that the node at one position reaches the node at an
    /// earlier position. With a cover the answer is exact.
    pub(crate) fn reaches(
        &mut self,
        graph: &Graph,
        reach: &ReachIndex,
        later: usize,
        earlier: usize,
    ) -> Result<bool, Memory>
        requires seen { length self.old.seen.items ≡ length graph.now.ids }
        requires reach { IsReachIndex graph.now reach.now }
        requires later { later < length reach.now.nodes.items }
        requires earlier { earlier < length reach.now.nodes.items }
        ensures seen { length self.new.seen.items ≡ length self.old.seen.items }
        ensures reaches { IfOk result (λ yes. IsTrue yes → NodeReaches (edges_of graph.now)
            (slice_index reach.now.nodes.items later) (slice_index reach.now.nodes.items earlier)) }
    {
        if let Some(cover) = &reach.cover {
            return Ok(cover.reaches(later, earlier));
        }
        let node = reach.nodes[later];
        if reach.reaches_by_chain(node, earlier) || has_edge(graph, node, reach.nodes[earlier]) {
            return Ok(true);
        }
        self.find_path(graph, reach, node, reach.starts[earlier])
    }

    /// Whether a search finds a path from a node to the first position of a component. What
    /// reaches a component from outside has a later position, so the search skips all earlier
    /// positions.
    fn find_path(
        &mut self,
        graph: &Graph,
        reach: &ReachIndex,
        from: usize,
        position: usize,
    ) -> Result<bool, Memory>
        requires seen { length self.old.seen.items ≡ length graph.now.ids }
        requires reach { IsReachIndex graph.now reach.now }
        requires from { from < length graph.now.ids }
        ensures seen { length self.new.seen.items ≡ length self.old.seen.items }
        ensures reaches { IfOk result (λ yes. IsTrue yes →
            NodeReaches (edges_of graph.now) from (slice_index reach.now.nodes.items position)) }
    {
        self.search = self.search.wrapping_add(1);
        self.opened.clear();
        self.opened.push(from)?;
        // Each node is opened once, except that the first one may be opened twice.
        for _ in 0..=graph.len() {
            let Some(node) = self.opened.pop() else {
                return Ok(false);
            };
            if self.left == 0 {
                return Ok(false);
            }
            self.left -= 1;
            if self.open_targets(graph, reach, node, position)? {
                return Ok(true);
            }
        }
        Ok(false)
    }

    /// Whether an edge of a node leads to a node that reaches the position by its chain. If not,
    /// the unseen targets after the position are opened.
    fn open_targets(
        &mut self,
        graph: &Graph,
        reach: &ReachIndex,
        node: usize,
        position: usize,
    ) -> Result<bool, Memory>
        requires seen { length self.old.seen.items ≡ length graph.now.ids }
        requires reach { IsReachIndex graph.now reach.now }
        requires node { node < length graph.now.ids }
        ensures seen { length self.new.seen.items ≡ length self.old.seen.items }
        ensures reaches { IfOk result (λ yes. IsTrue yes →
            NodeReaches (edges_of graph.now) node (slice_index reach.now.nodes.items position)) }
        ensures opened { OnOk result ((j : ℕ) → Contains self.new.opened.items j →
            Contains self.old.opened.items j ⊎ Contains (edges_of graph.now node) j) }
    {
        for target in graph.edges(node) {
            if reach.reaches_by_chain(*target, position) {
                return Ok(true);
            }
            if reach.positions[*target] > position && self.seen[*target] != self.search {
                self.seen[*target] = self.search;
                self.opened.push(*target)?;
            }
        }
        Ok(false)
    }
}
