//! The strongly connected components of a graph.
ghost use Rattle.std.specs.Prelude.{◌≡◌, ℕ, ◌<◌, List, Some, length, slice_get, slice_index, IfOk};
ghost use Rattle.epx_types.specs.declared.id.Id.{Id};
ghost use Rattle.epx_types.specs.Components.{IsLeader};
ghost use Rattle.epx_types.specs.Instances.{Instance};
ghost use Rattle.epx_graph.specs.GraphOf.{IsGraphOf};
ghost use Rattle.epx_graph.specs.Graphs.{edges_of};
ghost use Rattle.epx_components.specs.NodeComponents.{IsNodeLeader};

use crate::leaders::find_leaders;
use crate::search::find_components;
use epx_graph::Graph;
use epx_types::Memory;
use std::alloc::Global;
use std::marker::Model;

/// The component of each node. Contracts see each node's leader.
#[derive(Debug, Drop)]
pub struct ComponentMap {
    /// The number of the component of each node.
    component: Vec<usize>,
    /// For each component, the node that leads it.
    leaders: Vec<usize>,
}

impl Model for ComponentMap {
    ghost use Rattle.std.specs.Prelude.{ℕ, ◌<◌, List, map, length, slice_index, All};

    ghost Value = { List ℕ };

    ghost view = { λ m. map (slice_index m.leaders.items) m.component.items };

    ghost invariant = { λ m. All (λ c. c < length m.leaders.items) m.component.items };
}

/// The components of a graph. Two nodes are in one component if each reaches the other, so a
/// missing instance is a component by itself. Takes time linear in nodes and edges. `Memory` is
/// the only error.
pub fn components(alloc: Global, graph: &Graph) -> Result<ComponentMap, Memory>
    ensures len { IfOk result (λ found. length found ≡ length graph.now.ids) }
    ensures leaders { IfOk result (λ found. (k : ℕ) → k < length graph.now.ids
        → IsNodeLeader (edges_of graph.now) k (slice_index found k)) }
    ensures instances { IfOk result (λ found. (m : List Instance) → IsGraphOf m graph.now
        → (k : ℕ) (x : Id) → slice_get graph.now.ids k ≡ Some x
        → (y : Id) × (slice_get graph.now.ids (slice_index found k) ≡ Some y) × IsLeader m x y) }
{
    let partition = find_components(alloc, graph)?;
    let leaders = find_leaders(alloc, graph, &partition)?;
    let component = partition.component;
    Ok(ComponentMap { component, leaders })
}

impl ComponentMap {
    /// The number of nodes.
    pub fn len(&self) -> usize
        ensures { result ≡ length self.now }
    {
        self.component.len()
    }

    /// The leader of a node's component: its least node. Two nodes are in one component exactly if
    /// their leaders are equal. Takes constant time.
    pub fn leader_of(&self, node: usize) -> usize
        requires { node < length self.now }
        ensures { result ≡ slice_index self.now node }
    {
        self.leaders[self.component[node]]
    }
}
