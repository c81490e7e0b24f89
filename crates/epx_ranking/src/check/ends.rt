//! For each component, the position in a list of nodes after which the component is complete, and
//! the same for the components that it reaches.
ghost use Rattle.std.specs.Prelude.{◌≡◌, ◌⊎◌, ℕ, ◌<◌, length, slice_index, All, IfOk};
ghost use Rattle.epx_graph.specs.Graphs.{edges_of};
ghost use Rattle.epx_ranking.specs.inner.Ends.{AreEnds, AreRaised, IsEndBelow};
ghost use Rattle.epx_components.specs.between.Partitions.{parts, number_for, IsPartitionOf};

use super::sequence_key::SequenceKey;
use epx_components::{Collector, Partition, collect_bottom_up};
use epx_graph::Graph;
use epx_types::Memory;
use std::alloc::Global;

/// For each component: one more than the last position of a member, or 0 if there is no member.
pub(crate) fn find_ends(
    alloc: Global,
    partition: &Partition,
    nodes: &[usize],
) -> Result<Vec<usize>, Memory>
    requires counted { All (λ c. c < (parts partition.now).count) (parts partition.now).component }
    requires nodes { All (λ k. k < length (parts partition.now).component) nodes.now }
    ensures { IfOk result
        (λ ends. AreEnds (parts partition.now) nodes.now (length nodes.now) ends.items) }
{
    let mut ends = vec![in alloc; 0; partition.count]?;
    for (position, node) in nodes.iter().enumerate() {
        ends[partition.component[*node]] = position + 1;
    }
    Ok(ends)
}

/// Moves the end of each component with a member that the list leaves out to the end of the list.
pub(crate) fn raise_ends(ends: &mut [usize], left_out: &[Option<SequenceKey>], len: usize)
    requires { length left_out.now ≡ length ends.old }
    ensures { AreRaised left_out.now len ends.old ends.new }
{
    for component in 0..ends.len() {
        if left_out[component].is_some() {
            ends[component] = len;
        }
    }
}

/// For each component: the greatest end of the other components that it reaches, or 0.
pub(crate) fn find_ends_below(
    alloc: Global,
    graph: &Graph,
    partition: &Partition,
    ends: &[usize],
) -> Result<Vec<usize>, Memory>
    requires partition { IsPartitionOf graph.now (parts partition.now) }
    requires ends { length ends.now ≡ (parts partition.now).count }
    ensures len { IfOk result (λ below. length below.items ≡ (parts partition.now).count) }
    ensures each { IfOk result (λ below. (k : ℕ) → k < length graph.now.ids
        → IsEndBelow (edges_of graph.now) (parts partition.now) ends.now k
        (number_for (parts partition.now) below.items k)) }
{
    let below = vec![in alloc; 0; partition.count]?;
    Ok(collect_bottom_up(graph, partition, below, &EndsBelow { ends }))
}

/// Collects the greatest of the components' ends.
#[derive(Drop)]
struct EndsBelow<'a> {
    ends: &'a [usize],
}

impl<'a> Collector for EndsBelow<'a> {
    type Value = usize;

    ghost none = { 0 };

    ghost has = { λ t below. t < below };

    ghost gives = { λ s c below t. (t < slice_index s.ends.now c) ⊎ (t < below) };

    ghost can_add = { λ s c. c < length s.ends.now };

    fn add(&self, value: usize, other: usize, below: usize) -> usize {
        value.max(self.ends[other]).max(below)
    }
}
