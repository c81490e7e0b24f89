//! What the execution order needs of each node.
ghost use Rattle.std.specs.Prelude.{◌≡◌, ℕ, ◌<◌, length, slice_get, Some, IfOk};
ghost use Rattle.epx_components.specs.between.NodeRanks.{IsNodeRank};

use crate::depths::find_depths;
use crate::leaders::find_leaders;
use crate::missing::find_missing;
use crate::search::find_components;
use epx_graph::Graph;
use epx_types::Memory;
use std::alloc::Global;
use std::marker::Model;

/// A node's leader, its depth, and whether it reaches a missing node.
#[derive(Clone, Copy, Debug, PartialEq, Eq)]
pub struct NodeRank {
    pub leader: usize,
    pub depth: usize,
    pub reaches_missing: bool,
}

/// The rank of each node. The nodes of a component share their rank.
#[derive(Debug)]
pub struct NodeRanks {
    /// The component of each node.
    component: Vec<usize>,
    /// For each component, the node that leads it.
    leaders: Vec<usize>,
    depths: Vec<usize>,
    /// For each component, whether it reaches a missing node.
    missing: Vec<bool>,
}

impl Drop for NodeRanks {
    fn drop(self) {
        let NodeRanks {
            component: _,
            leaders: _,
            depths: _,
            missing: _,
        } = self;
    }
}

impl Model for NodeRanks {
    ghost use Rattle.std.specs.Prelude.{List};
    ghost use Rattle.epx_components.specs.declared.node_ranks.NodeRank.{NodeRank};
    ghost use Rattle.epx_components.specs.between.NodeRanks.{node_ranks_in, HasValueForEach};

    ghost Value = { List NodeRank };

    ghost view = { λ s.
        node_ranks_in s.component.items s.leaders.items s.depths.items s.missing.items };

    ghost invariant = { λ s.
        HasValueForEach s.component.items s.leaders.items s.depths.items s.missing.items };
}

impl NodeRanks {
    /// The ranks of the nodes of a graph. Takes time linear in nodes and edges. `Memory` is the
    /// only error.
    pub fn of(alloc: Global, graph: &Graph) -> Result<NodeRanks, Memory>
        ensures len { IfOk result (λ found. length found ≡ length graph.now.ids) }
        ensures each { IfOk result (λ found. (k : ℕ) (node_rank : NodeRank)
            → slice_get found k ≡ Some node_rank → IsNodeRank graph.now k node_rank) }
    {
        let partition = find_components(alloc, graph)?;
        let leaders = find_leaders(alloc, graph, &partition)?;
        let depths = find_depths(alloc, graph, &partition)?;
        let missing = find_missing(alloc, graph, &partition)?;
        let component = partition.component;
        Ok(NodeRanks {
            component,
            leaders,
            depths,
            missing,
        })
    }

    /// The rank of a node. Takes constant time.
    pub fn get(&self, node: usize) -> NodeRank
        requires { node < length self.now }
        ensures { slice_get self.now node ≡ Some result }
    {
        let component = self.component[node];
        NodeRank {
            leader: self.leaders[component],
            depth: self.depths[component],
            reaches_missing: self.missing[component],
        }
    }
}
