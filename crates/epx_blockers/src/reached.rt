//! The missing nodes that components reach.
ghost use Rattle.std.specs.Prelude.{◌≡◌, ◌↔◌, ◌⊎◌, ℕ, ◌<◌, length, ⊤, IfOk};
ghost use Rattle.epx_components.specs.between.Partitions.{parts, IsPartitionOf};
ghost use Rattle.epx_blockers.specs.inner.ReachedNodes.{reached_for, IsReached, HasOther};
ghost use Rattle.epx_blockers.specs.declared.reached.Reached.TheVariants.{Nothing};

use epx_components::{Collector, Partition, collect_bottom_up};
use epx_graph::Graph;
use epx_types::Memory;
use std::alloc::Global;

/// Which missing nodes are reached.
#[derive(Clone, Copy, Debug, PartialEq, Eq)]
pub(crate) enum Reached {
    Nothing,
    /// This one alone.
    One(usize),
    Several,
}

impl Reached {
    /// The missing nodes that are reached by one or the other.
    fn join(self, other: Reached) -> Reached
        ensures { (t : ℕ) → HasOther t result ↔ (HasOther t self ⊎ HasOther t other) }
    {
        match self {
            Reached::Nothing => other,
            Reached::One(node) => match other {
                Reached::Nothing => self,
                Reached::One(second) if second == node => self,
                _ => Reached::Several,
            },
            Reached::Several => self,
        }
    }
}

/// For each component the missing nodes that it reaches. Takes time linear in nodes and edges.
pub(crate) fn find_reached(
    alloc: Global,
    graph: &Graph,
    partition: &Partition,
) -> Result<Vec<Reached>, Memory>
    requires { IsPartitionOf graph.now (parts partition.now) }
    ensures len { IfOk result (λ reached. length reached.items ≡ (parts partition.now).count) }
    ensures each { IfOk result (λ reached. (k : ℕ) → k < length graph.now.ids
        → IsReached graph.now k (reached_for (parts partition.now) reached.items k)) }
{
    let mut reached = vec![in alloc; Reached::Nothing; partition.count]?;
    // A missing node has no edges, so it is a component of its own.
    for node in graph.committed_len()..graph.len() {
        reached[partition.component[node]] = Reached::One(node);
    }
    Ok(collect_bottom_up(graph, partition, reached, &ReachedNodes))
}

/// Collects the missing nodes that a component reaches. The set of a value has each number t of
/// which it says that a missing node other than t is reached: so sets are added up exactly.
struct ReachedNodes;

impl Collector for ReachedNodes {
    type Value = Reached;

    ghost none = { Nothing };

    ghost has = { HasOther };

    ghost gives = { λ _ _ below t. HasOther t below };

    ghost can_add = { λ _ _. ⊤ };

    fn add(&self, value: Reached, _other: usize, below: Reached) -> Reached {
        value.join(below)
    }

    fn is_full(&self, value: Reached) -> bool {
        matches!(value, Reached::Several)
    }
}
