//! The pass over the components from the bottom up.
ghost use Rattle.std.specs.Prelude.{◌≡◌, ◌↔◌, ◌⊎◌, ℕ, ◌<◌, length, slice_index_or, All};
ghost use Rattle.epx_graph.specs.Graphs.{edges_of};
ghost use Rattle.epx_components.specs.between.Collections.{AreCollected, LeadsOut};
ghost use Rattle.epx_components.specs.between.Partitions.{parts, IsPartitionOf};

use crate::collector::Collector;
use crate::partition::Partition;
use epx_graph::Graph;

/// Adds to the value of each component what the other components give that its edges lead to.
/// These come before it, so their values are complete. Takes time linear in nodes and edges.
pub fn collect_bottom_up<C: Collector>(
    graph: &Graph,
    partition: &Partition,
    first: Vec<C::Value>,
    collector: &C,
) -> Vec<C::Value>
    requires partition { IsPartitionOf graph.now (parts partition.now) }
    requires len { length first.items ≡ (parts partition.now).count }
    requires collector { (c : ℕ) → c < (parts partition.now).count → C.can_add collector.now c }
    ensures len { length result.items ≡ (parts partition.now).count }
    ensures each { (t : ℕ) → AreCollected (edges_of graph.now) (parts partition.now)
        (length (parts partition.now).order)
        (λ c. C.has t (slice_index_or first.items c C.none))
        (λ c. C.gives collector.now c (slice_index_or result.items c C.none) t)
        (λ c. C.has t (slice_index_or result.items c C.none)) }
{
    let mut values = first;
    for node in &partition.order {
        let own = partition.component[*node];
        values[own] = add_targets(
            graph.edges(*node),
            &partition.component,
            &values,
            own,
            collector,
        );
    }
    values
}

/// The value of a component with what is given by the other components that the edges lead to.
fn add_targets<C: Collector>(
    targets: &[usize],
    component: &[usize],
    values: &[C::Value],
    own: usize,
    collector: &C,
) -> C::Value
    requires targets { All (λ j. j < length component.now) targets.now }
    requires counted { All (λ c. c < length values.now) component.now }
    requires own { own < length values.now }
    requires collector { (c : ℕ) → c < length values.now → C.can_add collector.now c }
    ensures { (t : ℕ) → C.has t result ↔ (C.has t (slice_index_or values.now own C.none)
        ⊎ LeadsOut component.now own targets.now (length targets.now)
        (λ c. C.gives collector.now c (slice_index_or values.now c C.none) t)) }
{
    let mut value = values[own];
    for target in targets {
        // Where nothing can be added, no further edge is looked at.
        if collector.is_full(value) {
            return value;
        }
        let other = component[*target];
        if other != own {
            value = collector.add(value, other, values[other]);
        }
    }
    value
}
