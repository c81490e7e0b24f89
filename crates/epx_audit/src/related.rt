//! Which components the sources reach, and which components reach the sources.
ghost use Rattle.std.specs.Prelude.{◌≡◌, ◌↔◌, ◌⊎◌, ℕ, ◌<◌, ◌≤◌, length, map, slice_index, All, ⊤};
ghost use Rattle.std.specs.Prelude.{IsTrue, IfOk};
ghost use Rattle.epx_components.specs.between.Partitions.{parts, component_of, IsPartitionOf};
ghost use Rattle.epx_audit.specs.inner.Batches.{AreReachedBy, AreReaching};
ghost use Rattle.epx_audit.specs.inner.SourceBits.{has_bit, AreSourceMarks};

use crate::source_marks::source_marks;
use epx_components::{Collector, Partition, collect_bottom_up};
use epx_graph::Graph;
use epx_types::Memory;
use std::alloc::Global;

/// For each component, the sources that reach it.
pub(crate) fn find_reached(
    alloc: Global,
    graph: &Graph,
    partition: &Partition,
    sources: &[usize],
) -> Result<Vec<u64>, Memory>
    requires partition { IsPartitionOf graph.now (parts partition.now) }
    requires few { length sources.now ≤ 64 }
    requires sources { All (λ k. k < length graph.now.ids) sources.now }
    ensures len { IfOk result (λ words. length words.items ≡ (parts partition.now).count) }
    ensures reached { IfOk result
        (λ words. AreReachedBy graph.now (parts partition.now) sources.now words.items) }
{
    let mut words = mark_sources(alloc, partition, sources)?;
    for position in (0..partition.order.len()).rev() {
        let node = partition.order[position];
        let word = words[partition.component[node]];
        if word != 0 {
            mark_targets(graph.edges(node), &partition.component, &mut words, word);
        }
    }
    Ok(words)
}

/// For each component, the sources in it.
fn mark_sources(alloc: Global, partition: &Partition, sources: &[usize]) -> Result<Vec<u64>, Memory>
    requires few { length sources.now ≤ 64 }
    requires sources { All (λ k. k < length (parts partition.now).component) sources.now }
    requires counted { All (λ c. c < (parts partition.now).count) (parts partition.now).component }
    ensures len { IfOk result (λ words. length words.items ≡ (parts partition.now).count) }
    ensures marks { IfOk result
        (λ words. AreSourceMarks (map (component_of (parts partition.now)) sources.now)
        words.items) }
{
    let mut components = Vec::with_capacity(alloc, sources.len())?;
    for node in sources {
        components.push(partition.component[*node])?;
    }
    source_marks(alloc, partition.count, &components)
}

/// Adds sources to the components that the edges lead to.
fn mark_targets(targets: &[usize], component: &[usize], words: &mut [u64], word: u64)
    requires targets { All (λ j. j < length component.now) targets.now }
    requires counted { All (λ c. c < length words.old) component.now }
    ensures len { length words.new ≡ length words.old }
    ensures marks { (b c : ℕ) → IsTrue (has_bit b (slice_index words.new c)) ↔
        (IsTrue (has_bit b (slice_index words.old c)) ⊎ (IsTrue (has_bit b word) ×
        (i : ℕ) × (i < length targets.now) ×
        (slice_index component.now (slice_index targets.now i) ≡ c))) }
{
    for target in targets {
        words[component[*target]] |= word;
    }
}

/// For each component, the sources that it reaches.
pub(crate) fn find_reaching(
    alloc: Global,
    graph: &Graph,
    partition: &Partition,
    sources: &[usize],
) -> Result<Vec<u64>, Memory>
    requires partition { IsPartitionOf graph.now (parts partition.now) }
    requires few { length sources.now ≤ 64 }
    requires sources { All (λ k. k < length graph.now.ids) sources.now }
    ensures len { IfOk result (λ words. length words.items ≡ (parts partition.now).count) }
    ensures reaching { IfOk result
        (λ words. AreReaching graph.now (parts partition.now) sources.now words.items) }
{
    let words = mark_sources(alloc, partition, sources)?;
    Ok(collect_bottom_up(graph, partition, words, &SourceWords))
}

/// Collects the sources that a component reaches.
struct SourceWords;

impl Collector for SourceWords {
    type Value = u64;

    ghost none = { 0 };

    ghost has = { λ b word. IsTrue (has_bit b word) };

    ghost gives = { λ _ _ word b. IsTrue (has_bit b word) };

    ghost can_add = { λ _ _. ⊤ };

    fn add(&self, word: u64, _other: usize, below: u64) -> u64 {
        word | below
    }
}
