//! The dependency graph.
ghost use Rattle.std.specs.Prelude.{◌≡◌, ◌==◌, ◌↔◌, ℕ, ◌<◌, length, All, Contains, IfOk, IsTrue};
ghost use Rattle.std.specs.Prelude.{MatchOption, Some, slice_get};
ghost use Rattle.epx_graph.specs.Graphs.{edges_of, graph_over, missing_ids, IsGraph};
ghost use Rattle.epx_rows.specs.between.Rows.{row_of, AreTransposed};

use epx_rows::Rows;
use epx_types::id_list::find_id;
use epx_types::{Id, Memory};
use std::alloc::Global;
use std::marker::Model;

/// The instances of a committed map and their dependencies, as numbered nodes: first the committed
/// instances by rising Id, then the missing ones by rising Id.
///
/// Takes one word for each edge.
#[derive(Debug)]
pub struct Graph {
    ids: Vec<Id>,
    /// The edges of each committed node.
    rows: Rows,
}

impl Drop for Graph {
    fn drop(self) {
        let Graph { ids: _, rows: _ } = self;
    }
}

impl Model for Graph {
    ghost use Rattle.epx_graph.specs.Graphs.{DependencyGraph, graph_over, IsGraph};

    ghost Value = { DependencyGraph };

    ghost view = { λ g. graph_over g.ids.items g.rows };

    ghost invariant = { λ g. IsGraph (graph_over g.ids.items g.rows) };
}

impl Graph {
    /// The graph of nodes with these Ids, and with a row of edges for each committed node.
    pub(crate) fn new(ids: Vec<Id>, rows: Rows) -> Graph
        requires { IsGraph (graph_over ids.items rows) }
        ensures { result ≡ graph_over ids.items rows }
    {
        Graph { ids, rows }
    }

    /// The number of nodes.
    pub fn len(&self) -> usize
        ensures len { result ≡ length self.now.ids }
        ensures fits { IsGraph self.now }
    {
        self.ids.len()
    }

    /// Whether there are no nodes.
    pub fn is_empty(&self) -> bool
        ensures { result ≡ (length self.now.ids == 0) }
    {
        self.ids.is_empty()
    }

    /// The number of committed nodes: those with a lower number than this.
    pub fn committed_len(&self) -> usize
        ensures { result ≡ self.now.committed }
    {
        self.rows.len()
    }

    /// The node of an instance, if it has one. Takes logarithmic time.
    pub fn node(&self, id: Id) -> Option<usize>
        ensures { MatchOption result (¬ Contains self.now.ids id)
            (λ node. slice_get self.now.ids node ≡ Some id) }
    {
        let (committed, missing) = self.ids.split_at(self.committed_len());
        if let Some(position) = find_id(committed, id) {
            return Some(position);
        }
        match find_id(missing, id) {
            Some(position) => Some(committed.len() + position),
            None => None,
        }
    }

    /// The Id of a node's instance.
    pub fn id(&self, node: usize) -> Id
        requires { node < length self.now.ids }
        ensures { slice_get self.now.ids node ≡ Some result }
    {
        self.ids[node]
    }

    /// The missing instances, by rising Id.
    pub fn missing(&self) -> &[Id]
        ensures { result.now ≡ missing_ids self.now }
    {
        &self.ids[self.committed_len()..]
    }

    /// Whether the instance of a node is committed.
    pub fn is_committed(&self, node: usize) -> bool
        requires { node < length self.now.ids }
        ensures { IsTrue result ↔ (node < self.now.committed) }
    {
        node < self.committed_len()
    }

    /// The nodes of a committed node's dependencies, by rising number. A missing node has none.
    pub fn edges(&self, node: usize) -> &[usize]
        requires { node < length self.now.ids }
        ensures edges { result.now ≡ edges_of self.now node }
        ensures fits { IsGraph self.now }
    {
        if self.is_committed(node) {
            return self.rows.row(node);
        }
        &[]
    }

    /// The edges of the committed nodes.
    pub(crate) fn rows(&self) -> &Rows
        ensures edges { (k : ℕ) → row_of result.now k ≡ edges_of self.now k }
        ensures within { All (All (λ j. j < length self.now.ids)) result.now }
    {
        &self.rows
    }

    /// For each node, the nodes with an edge to it. Takes time linear in nodes and edges. No other
    /// call on a graph allocates.
    pub fn sources(&self, alloc: Global) -> Result<Rows, Memory>
        ensures nodes { IfOk result (λ sources. length sources ≡ length self.now.ids) }
        ensures transpose { IfOk result (AreTransposed self.now.edges) }
    {
        self.rows.transpose(alloc, self.len())
    }
}
