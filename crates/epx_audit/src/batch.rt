//! Nodes that are tested against up to 64 sources at once.
ghost use Rattle.std.specs.Prelude.{◌↔◌, ℕ, ◌<◌, ◌≤◌, List, length, slice_index, All, IsTrue};
ghost use Rattle.std.specs.Prelude.{IfOk};
ghost use Rattle.epx_graph.specs.Graphs.{DependencyGraph, edges_of};
ghost use Rattle.epx_components.specs.between.Partitions.{parts, IsPartitionOf};
ghost use Rattle.epx_audit.specs.declared.doubtful_touches.DoubtfulTouch.{DoubtfulTouch};
ghost use Rattle.epx_audit.specs.inner.Batches.{IsBatch, IsWhole, IsReadyApart};
ghost use Rattle.epx_audit.specs.inner.DoubtfulKeys.{AreInRange, IsRelatedOrFree};
ghost use Rattle.epx_audit.specs.inner.SourceBits.{has_bit, HasAlone};

use crate::doubtful_touches::DoubtfulTouches;
use crate::related::{find_reached, find_reaching};
use crate::sharing_marks::sharing_marks;
use crate::source_marks::source_marks;
use epx_components::Partition;
use epx_graph::Graph;
use epx_types::Memory;
use std::alloc::Global;

/// What each node and each component has to do with the sources of a batch. Bit b of each word is
/// for source b.
#[derive(Drop)]
pub(crate) struct SourceBatch {
    /// The sources that reach each component.
    pub(crate) reached: Vec<u64>,
    /// The sources that each component reaches.
    pub(crate) reaching: Vec<u64>,
    /// The sources with which each node shares a doubtful key.
    pub(crate) sharing: Vec<u64>,
}

impl SourceBatch {
    /// The words of a batch of sources. Takes time linear in nodes, edges and doubtful touches.
    pub(crate) fn of(
        alloc: Global,
        graph: &Graph,
        partition: &Partition,
        doubtful: &DoubtfulTouches,
        sources: &[usize],
    ) -> Result<SourceBatch, Memory>
        requires partition { IsPartitionOf graph.now (parts partition.now) }
        requires doubtful { AreInRange (length graph.now.ids) doubtful.now.keys
            doubtful.now.touches.items }
        requires few { length sources.now ≤ 64 }
        requires sources { All (λ k. k < length graph.now.ids) sources.now }
        ensures { IfOk result
            (IsBatch graph.now (parts partition.now) doubtful.now.touches.items sources.now) }
    {
        let own = source_marks(alloc, graph.len(), sources)?;
        let reached = find_reached(alloc, graph, partition, sources)?;
        let reaching = find_reaching(alloc, graph, partition, sources)?;
        let sharing = sharing_marks(alloc, doubtful, sources, &own)?;
        Ok(SourceBatch {
            reached,
            reaching,
            sharing,
        })
    }

    /// The sources that share a doubtful key with a ready node, and neither reach it nor are
    /// reached from it.
    pub(crate) fn candidates(&self, partition: &Partition, ready: &[bool], node: usize) -> u64
        requires whole { IsWhole (parts partition.now) ready.now self.now }
        requires node { node < length ready.now }
        ensures apart { (g : DependencyGraph) (touches : List DoubtfulTouch)
            (sources : List ℕ) (b : ℕ) →
            IsBatch g (parts partition.now) touches sources self.now →
            b < length sources → IsTrue (has_bit b result) →
            IsReadyApart (edges_of g) ready.now (slice_index sources b) node }
        ensures rest { (g : DependencyGraph) (touches : List DoubtfulTouch)
            (sources : List ℕ) (b : ℕ) →
            IsBatch g (parts partition.now) touches sources self.now →
            b < length sources → ¬ IsTrue (has_bit b result) →
            IsRelatedOrFree (edges_of g) ready.now touches (slice_index sources b) node }
    {
        if !ready[node] {
            return 0;
        }
        let own = partition.component[node];
        bits_without(self.sharing[node], self.reached[own], self.reaching[own])
    }

    /// Whether no node has a candidate.
    pub(crate) fn has_no_candidate(&self, partition: &Partition, ready: &[bool]) -> bool
        requires whole { IsWhole (parts partition.now) ready.now self.now }
        ensures { IsTrue result →
            (g : DependencyGraph) (touches : List DoubtfulTouch) (sources : List ℕ) (b j : ℕ) →
            IsBatch g (parts partition.now) touches sources self.now →
            b < length sources → j < length ready.now →
            IsRelatedOrFree (edges_of g) ready.now touches (slice_index sources b) j }
    {
        for node in 0..ready.len() {
            if self.candidates(partition, ready, node) != 0 {
                return false;
            }
        }
        true
    }
}

/// The bits that are set in a word and in neither of two others.
fn bits_without(word: u64, first: u64, second: u64) -> u64
    ensures { (b : ℕ) → b < 64 → IsTrue (has_bit b result) ↔ HasAlone b word first second }
{
    word & !(first | second)
}
