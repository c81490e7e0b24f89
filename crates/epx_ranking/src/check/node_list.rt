//! A list of instances, as a list of nodes.
ghost use Rattle.std.specs.Prelude.{◌≡◌, ℕ, ◌<◌, List, [], ◌∷◌, ◌++◌, length, replicate};
ghost use Rattle.std.specs.Prelude.{slice_set, Some, true, false, IsTrue, IfOk, OnOk};
ghost use Rattle.std.specs.Prelude.{MatchOption, MatchResult};
ghost use Rattle.epx_types.specs.Instances.{Instance};
ghost use Rattle.epx_graph.specs.GraphOf.{IsGraphOf};
ghost use Rattle.epx_ranking.specs.inner.NodeLists.{AreListed, IsListedIfReady, IsListingFault};
ghost use Rattle.epx_ranking.specs.OrderFaults.{ReadyOnce};
ghost use Rattle.epx_components.specs.between.ReadyMarks.{is_marked, AreReadyMarks};

use crate::order_fault::OrderFault;
use epx_components::ready_node;
use epx_graph::Graph;
use epx_types::{Id, Memory};
use std::alloc::Global;

/// The nodes of a list of instances.
#[derive(Debug, Drop)]
pub(crate) struct NodeList {
    /// The node at each position.
    pub(crate) nodes: Vec<usize>,
    /// For each node, whether it is in the list.
    pub(crate) marks: Vec<bool>,
}

impl NodeList {
    /// An empty list for a graph of this many nodes, with capacity for this many positions.
    fn new(alloc: Global, nodes: usize, len: usize) -> Result<NodeList, Memory>
        ensures nodes { IfOk result (λ node_list. node_list.nodes.items ≡ []) }
        ensures marks { IfOk result (λ node_list. node_list.marks.items ≡ replicate nodes false) }
    {
        Ok(NodeList {
            nodes: Vec::with_capacity(alloc, len)?,
            marks: vec![in alloc; false; nodes]?,
        })
    }

    /// Adds a node at the end.
    fn add(&mut self, node: usize) -> Result<(), Memory>
        requires { node < length self.old.marks.items }
        ensures nodes { OnOk result (self.new.nodes.items ≡ self.old.nodes.items ++ node ∷ []) }
        ensures marks { OnOk result
            (self.new.marks.items ≡ slice_set self.old.marks.items node true) }
    {
        self.marks[node] = true;
        self.nodes.push(node)?;
        Ok(())
    }
}

/// The nodes of a list of instances. Otherwise the least position whose instance is not ready or
/// is listed at an earlier position.
pub(crate) fn list_nodes(
    alloc: Global,
    graph: &Graph,
    ready: &[bool],
    ids: &[Id],
) -> Result<NodeList, OrderFault>
    requires { AreReadyMarks graph.now ready.now }
    ensures listed { IfOk result
        (λ node_list. AreListed graph.now ids.now (length ids.now) node_list.nodes.items
        node_list.marks.items) }
    ensures sound { (m : List Instance) → IsGraphOf m graph.now → MatchResult result
        (λ _. ReadyOnce m ids.now (length ids.now))
        (IsListingFault m ids.now) }
{
    let mut node_list = NodeList::new(alloc, graph.len(), ids.len())?;
    for (place, id) in ids.iter().enumerate() {
        let Some(node) = ready_node(graph, ready, *id) else {
            return Err(OrderFault::Stranger { place });
        };
        if node_list.marks[node] {
            return Err(OrderFault::Repeat { place });
        }
        node_list.add(node)?;
    }
    Ok(node_list)
}

/// The least node of a ready instance that is not in the list.
pub(crate) fn first_unlisted(ready: &[bool], marks: &[bool]) -> Option<usize>
    requires { length marks.now ≡ length ready.now }
    ensures { MatchOption result
        ((k : ℕ) → IsListedIfReady ready.now marks.now k)
        (λ node. IsTrue (is_marked ready.now node) × ¬ IsTrue (is_marked marks.now node)
        × ((k : ℕ) → k < node → IsListedIfReady ready.now marks.now k)) }
{
    for node in 0..ready.len() {
        if ready[node] && !marks[node] {
            return Some(node);
        }
    }
    None
}
