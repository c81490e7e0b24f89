//! A list of instances, over the nodes of the graph.
use crate::listed::Listed;
use epx_components::{ComponentMap, components};
use epx_graph::Graph;
use epx_types::{Id, Memory};
use std::alloc::Global;

/// Where the list has each node, and the component of each.
#[derive(Drop)]
pub(crate) struct ListNodes<'a> {
    graph: &'a Graph,
    components: ComponentMap,
    /// For each node the first position, or None where the list lacks it.
    positions: Vec<Option<usize>>,
}

/// For each node the first position of the list that has it.
fn first_positions(
    alloc: Global,
    graph: &Graph,
    list: &[Listed],
) -> Result<Vec<Option<usize>>, Memory> {
    let mut positions = vec![in alloc; None; graph.len()]?;
    for listed in list {
        let Some(node) = graph.node(listed.id) else {
            continue;
        };
        if let Some(first) = positions.get_mut(node) {
            if first.is_none() {
                *first = Some(listed.position);
            }
        }
    }
    Ok(positions)
}

impl<'a> ListNodes<'a> {
    /// Finds the components of the graph, and where the list has its nodes. Takes time linear in
    /// the graph, and logarithmic time for each listed instance.
    pub fn new(alloc: Global, graph: &'a Graph, list: &[Listed]) -> Result<ListNodes<'a>, Memory> {
        Ok(ListNodes {
            graph,
            components: components(alloc, graph)?,
            positions: first_positions(alloc, graph, list)?,
        })
    }

    /// How many nodes the graph has.
    pub fn len(&self) -> usize {
        self.graph.len()
    }

    /// The node of an Id. None if the graph has none. Takes logarithmic time.
    pub fn node(&self, id: Id) -> Option<usize> {
        self.graph.node(id)
    }

    /// The Id of a node. None if the graph has no such node.
    pub fn id(&self, node: usize) -> Option<Id> {
        if node < self.graph.len() {
            Some(self.graph.id(node))
        } else {
            None
        }
    }

    /// The nodes that a node depends on, by rising Id if all are committed.
    pub fn edges(&self, node: usize) -> &[usize] {
        if node < self.graph.len() {
            self.graph.edges(node)
        } else {
            &[]
        }
    }

    /// The leader of the component of a node.
    pub fn leader(&self, node: usize) -> Option<usize> {
        if node < self.components.len() {
            Some(self.components.leader_of(node))
        } else {
            None
        }
    }

    /// The first position of the list that has a node.
    pub fn position(&self, node: usize) -> Option<usize> {
        match self.positions.get(node) {
            Some(position) => *position,
            None => None,
        }
    }
}
