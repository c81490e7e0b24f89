//! The depth-first search for components.
ghost use Rattle.std.specs.Prelude.{◌≡◌, ℕ, List, ◌+◌, ◌<◌, ◌≤◌, length, OnOk, IfOk, IfSome};
ghost use Rattle.std.specs.Prelude.{◌≢◌, false, IfNone};
ghost use Rattle.epx_graph.specs.Graphs.{IsGraph, edges_of};
ghost use Rattle.epx_components.specs.between.Partitions.{parts, IsPartitionOf};
ghost use Rattle.epx_components.specs.inner.Starts.{AreRisingBelow};
ghost use Rattle.epx_components.specs.inner.SearchStates.{state, visit_of};
ghost use Rattle.epx_components.specs.inner.SearchInvariants.{IsRow, IsSearch, KeepsSearch};
ghost use Rattle.epx_components.specs.inner.SearchSteps.{after_enter, Arrives, IsNextNode};
ghost use Rattle.epx_components.specs.inner.SearchSteps.{IsTopNode, IsPathBelow, IsFinished};
ghost use Rattle.epx_components.specs.inner.SearchSteps.{IsInTopGroup};
ghost use Rattle.epx_components.specs.declared.visit.Visit.TheVariants.{Unseen};
ghost use Rattle.epx_components.specs.inner.SearchWork.{work_left};

use crate::merge_groups::merge_groups;
use crate::partition::Partition;
use crate::visit::{Visit, close_nodes, component_numbers};
use epx_graph::Graph;
use epx_types::Memory;
use std::alloc::Global;

/// A depth-first search with its own stack, so no graph is too deep for it.
///
/// The open nodes are in a row, in groups of nodes that reach each other. An edge back into the
/// row merges the groups from there on. A last group without an edge left is a component.
#[derive(Drop)]
pub(crate) struct Search {
    visits: Vec<Visit>,
    /// How many edges of each node have been looked at.
    looked_at: Vec<usize>,
    /// The row of open nodes.
    opened: Vec<usize>,
    /// The positions in the row of the nodes that may have an edge left.
    path: Vec<usize>,
    /// The position in the row where each group starts.
    starts: Vec<usize>,
    /// The nodes of the finished components, by rising component.
    order: Vec<usize>,
    /// The number of finished components.
    count: usize,
}

/// The components of a graph. Takes time linear in nodes and edges. `Memory` is the only error.
pub fn find_components(alloc: Global, graph: &Graph) -> Result<Partition, Memory>
    ensures { IfOk result (λ p. IsPartitionOf graph.now (parts p)) }
{
    let len = graph.len();
    let mut search = Search::new(alloc, len)?;
    for root in 0..len {
        search.explore(graph, root)?;
    }
    let component = component_numbers(alloc, &search.visits)?;
    Ok(Partition {
        component,
        order: search.order,
        count: search.count,
    })
}

impl Search {
    /// A search of a graph with this many nodes.
    pub(crate) fn new(alloc: Global, len: usize) -> Result<Search, Memory>
        ensures search { IfOk result (λ s. (edges : ℕ → List ℕ) → IsSearch edges len 0 (state s)) }
        ensures none { IfOk result (λ s. length (state s).starts ≡ 0) }
    {
        Ok(Search {
            visits: vec![in alloc; Visit::Unseen; len]?,
            looked_at: vec![in alloc; 0; len]?,
            opened: Vec::with_capacity(alloc, len)?,
            path: Vec::with_capacity(alloc, len)?,
            starts: Vec::with_capacity(alloc, len)?,
            order: Vec::with_capacity(alloc, len)?,
            count: 0,
        })
    }

    /// Finishes every node that the root reaches.
    pub(crate) fn explore(&mut self, graph: &Graph, root: usize) -> Result<(), Memory>
        requires graph { IsGraph graph.now }
        requires root { root < length graph.now.ids }
        requires search { IsSearch (edges_of graph.now) (length graph.now.ids) root
            (state self.old) }
        requires none { length (state self.old).starts ≡ 0 }
        ensures search { OnOk result
            (IsSearch (edges_of graph.now) (length graph.now.ids) (root + 1) (state self.new)) }
        ensures none { OnOk result (length (state self.new).starts ≡ 0) }
    {
        self.arrive(root)?;
        while !self.starts.is_empty() {
            self.step(graph)?;
        }
        Ok(())
    }

    /// Looks at edges of a node in the last group, or finishes the group if it has none left.
    fn step(&mut self, graph: &Graph) -> Result<(), Memory>
        requires graph { IsGraph graph.now }
        requires search { (seen : ℕ) × IsSearch (edges_of graph.now) (length graph.now.ids) seen
            (state self.old) }
        requires some { 0 < length (state self.old).starts }
        ensures keeps { OnOk result
            (KeepsSearch (edges_of graph.now) (length graph.now.ids) (state self.old)
            (state self.new)) }
        ensures less { OnOk result (work_left graph.now.edges (state self.new)
            < work_left graph.now.edges (state self.old)) }
    {
        match self.top() {
            Some(node) if self.looked_at[node] < graph.edges(node).len() => {
                self.follow_edges(graph, node)
            }
            Some(_) => {
                self.path.pop();
                Ok(())
            }
            None => self.finish(),
        }
    }

    /// The last node of the path, if it is in the last group.
    fn top(&self) -> Option<usize>
        requires some { 0 < length (state self.now).starts }
        requires starts { AreRisingBelow (state self.now).starts (length (state self.now).opened) }
        requires path { AreRisingBelow (state self.now).path (length (state self.now).opened) }
        ensures found { IfSome result (IsTopNode (state self.now)) }
        ensures none { IfNone result (IsPathBelow (state self.now)) }
    {
        let start = self.starts[self.starts.len() - 1];
        match self.path.last() {
            Some(&position) if position >= start => Some(self.opened[position]),
            _ => None,
        }
    }

    /// Looks at the next edges of a node in the last group, up to the first that opens a node.
    fn follow_edges(&mut self, graph: &Graph, node: usize) -> Result<(), Memory>
        requires graph { IsGraph graph.now }
        requires search { (seen : ℕ) × IsSearch (edges_of graph.now) (length graph.now.ids) seen
            (state self.old) }
        requires next { IsNextNode (edges_of graph.now) (state self.old) node }
        ensures keeps { OnOk result
            (KeepsSearch (edges_of graph.now) (length graph.now.ids) (state self.old)
            (state self.new)) }
        ensures less { OnOk result (work_left graph.now.edges (state self.new)
            < work_left graph.now.edges (state self.old)) }
    {
        let mut opens = self.follow(graph, node)?;
        while !opens && self.looked_at[node] < graph.edges(node).len() {
            opens = self.follow(graph, node)?;
        }
        Ok(())
    }

    /// Looks at the next edge of a node in the last group. Returns whether it opens a node.
    fn follow(&mut self, graph: &Graph, node: usize) -> Result<bool, Memory>
        requires graph { IsGraph graph.now }
        requires search { (seen : ℕ) × IsSearch (edges_of graph.now) (length graph.now.ids) seen
            (state self.old) }
        requires next { IsNextNode (edges_of graph.now) (state self.old) node }
        ensures keeps { OnOk result
            (KeepsSearch (edges_of graph.now) (length graph.now.ids) (state self.old)
            (state self.new)) }
        ensures less { OnOk result (work_left graph.now.edges (state self.new)
            < work_left graph.now.edges (state self.old)) }
        ensures stays { IfOk result (λ opens. opens ≡ false → IsInTopGroup (state self.new) node) }
    {
        let next = self.looked_at[node];
        let target = graph.edges(node)[next];
        self.looked_at[node] = next + 1;
        self.arrive(target)
    }

    /// Arrives at a node: opens it if it is unseen. If it is open, merges the groups from its own
    /// on. Returns whether it opens the node.
    fn arrive(&mut self, node: usize) -> Result<bool, Memory>
        requires node { node < length (state self.old).visits }
        requires starts { AreRisingBelow (state self.old).starts (length (state self.old).opened) }
        ensures arrives { OnOk result (Arrives (visit_of (state self.old).visits node) node
            (state self.old) (state self.new)) }
        ensures opens { IfOk result (λ opens. opens ≡ false
            → visit_of (state self.old).visits node ≢ Unseen) }
    {
        match self.visits[node] {
            Visit::Unseen => {
                self.enter(node)?;
                return Ok(true);
            }
            Visit::Open(position) => merge_groups(&mut self.starts, position),
            Visit::Closed(_) => {}
        }
        Ok(false)
    }

    /// Opens a node as a group of its own.
    fn enter(&mut self, node: usize) -> Result<(), Memory>
        requires { node < length (state self.old).visits }
        ensures { OnOk result (state self.new ≡ after_enter (state self.old) node) }
    {
        let position = self.opened.len();
        self.visits[node] = Visit::Open(position);
        self.opened.push(node)?;
        self.path.push(position)?;
        self.starts.push(position)?;
        Ok(())
    }

    /// Makes the last group a component.
    fn finish(&mut self) -> Result<(), Memory>
        requires row { IsRow (state self.old).visits (state self.old).opened }
        requires starts { AreRisingBelow (state self.old).starts (length (state self.old).opened) }
        requires some { 0 < length (state self.old).starts }
        requires count { (state self.old).count ≤ length (state self.old).order }
        ensures { OnOk result (IsFinished (state self.old) (state self.new)) }
    {
        let start = self.starts[self.starts.len() - 1];
        self.order.extend_from_slice(&self.opened[start..])?;
        close_nodes(&mut self.visits, &self.opened[start..], self.count);
        self.opened.truncate(start);
        self.starts.pop();
        self.count += 1;
        Ok(())
    }
}
