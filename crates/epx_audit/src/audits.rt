//! Whether any two ready instances that conflict are related.
ghost use Rattle.std.specs.Prelude.{◌≡◌, ℕ, ◌<◌, ◌≤◌, List, length, map, slice_index, All};
ghost use Rattle.std.specs.Prelude.{IsTrue, IfOk, IfSome, MatchOption};
ghost use Rattle.epx_types.specs.Conflicts.{IsCovered};
ghost use Rattle.epx_types.specs.Instances.{Instance};
ghost use Rattle.epx_types.specs.ExecutionOrder.{IsExecutionOrder};
ghost use Rattle.epx_graph.specs.Graphs.{DependencyGraph, edges_of};
ghost use Rattle.epx_graph.specs.GraphOf.{IsGraphOf};
ghost use Rattle.epx_components.specs.between.Partitions.{parts, IsPartitionOf};
ghost use Rattle.epx_audit.specs.inner.Batches.{IsBatch, IsWhole};
ghost use Rattle.epx_audit.specs.inner.DoubtfulKeys.{AreInRange, HoldAllConflicts, HoldUnsettled};
ghost use Rattle.epx_audit.specs.inner.NodeConflicts.{keys_of, IsSettled, IsPartner};
ghost use Rattle.epx_components.specs.between.ReadyMarks.{is_marked};
ghost use Rattle.epx_audit.specs.inner.Sources.{AreSources, AreSettled, IsFirstPair, IsLeastPair};
ghost use Rattle.epx_audit.specs.Uncovered.{IsLeastUncovered};

use crate::batch::SourceBatch;
use crate::conflicts::{CommandKeys, all_keys};
use crate::doubtful_touches::{DoubtfulTouch, DoubtfulTouches, find_doubtful};
use crate::quick_audit::is_found_covered;
use crate::source_marks::{SOURCES, has_bit};
use crate::touches::map_hasher;
use epx_committed::Merged;
use epx_components::{OrderList, Partition, find_components, ready_nodes};
use epx_graph::Graph;
use epx_types::{Id, Memory};
use std::alloc::Global;
use std::hash::DefaultHasher;

/// The least pair of ready instances that conflict and of which neither reaches the other, or
/// None. Pairs are compared by the lower Id, then by the higher Id. None means that the map is
/// covered. The only error is out of memory.
pub fn audit(
    alloc: Global,
    merged: &Merged,
    graph: &Graph,
    order: &OrderList,
) -> Result<Option<(Id, Id)>, Memory>
    requires graph { IsGraphOf merged.now graph.now }
    requires order { IsExecutionOrder merged.now order.now }
    ensures { IfOk result (λ found. MatchOption found (IsCovered merged.now)
        (λ pair. IsLeastUncovered merged.now pair.0 pair.1)) }
{
    // `map_hasher` takes as long as the whole quick audit. It is needed only for keys that were
    // chosen to collide, so the first quick audit does without it.
    if is_found_covered(alloc, merged, graph, order, DefaultHasher::new())? {
        return Ok(None);
    }
    let start = map_hasher(alloc, merged)?;
    let doubtful = find_doubtful(alloc, merged, graph, order, start)?;
    let partition = find_components(alloc, graph)?;
    let ready = ready_nodes(alloc, graph, &partition)?;
    let keys = all_keys(alloc, merged)?;
    match find_pair(alloc, graph, &partition, &ready, &keys, &doubtful)? {
        Some((node, other)) => Ok(Some((graph.id(node), graph.id(other)))),
        None => Ok(None),
    }
}

/// The least pair of nodes of ready instances that conflict and are not related. Pairs are
/// compared by the lower node, then by the higher node.
fn find_pair<'a>(
    alloc: Global,
    graph: &Graph,
    partition: &Partition,
    ready: &[bool],
    keys: &[CommandKeys<'a>],
    doubtful: &DoubtfulTouches,
) -> Result<Option<(usize, usize)>, Memory>
    requires partition { IsPartitionOf graph.now (parts partition.now) }
    requires ready { length ready.now ≡ length graph.now.ids }
    requires nodes { length keys.now ≤ length graph.now.ids }
    requires doubtful { AreInRange (length keys.now) doubtful.now.keys doubtful.now.touches.items }
    requires unsettled { length doubtful.now.unsettled.items ≡ length keys.now }
    ensures in_range { IfOk result (λ found. IfSome found (λ pair.
        (pair.0 < length keys.now) × (pair.1 < length keys.now))) }
    ensures least { IfOk result (λ found. (m : List Instance) → keys.now ≡ map keys_of m →
        HoldAllConflicts m (edges_of graph.now) ready.now doubtful.now.touches.items →
        HoldUnsettled (edges_of graph.now) doubtful.now.touches.items doubtful.now.unsettled.items →
        MatchOption found
        ((k j : ℕ) → k < j → IsSettled m (edges_of graph.now) ready.now k j)
        (λ pair. IsLeastPair m (edges_of graph.now) ready.now pair.0 pair.1)) }
{
    let sources = find_sources(alloc, &doubtful.unsettled, ready)?;
    for number in 0..sources.len() / SOURCES + 1 {
        let first = sources.len().min(number * SOURCES);
        let end = sources.len().min(first + SOURCES);
        let batch = &sources[first..end];
        if let Some(pair) = first_pair(alloc, graph, partition, ready, keys, doubtful, batch)? {
            return Ok(Some(pair));
        }
    }
    Ok(None)
}

/// The nodes of ready instances that are marked as unsettled, in increasing order.
fn find_sources(alloc: Global, unsettled: &[bool], ready: &[bool]) -> Result<Vec<usize>, Memory>
    requires { length unsettled.now ≤ length ready.now }
    ensures { IfOk result (λ sources. AreSources ready.now unsettled.now sources.items) }
{
    let mut sources = Vec::new(alloc);
    for node in 0..unsettled.len() {
        if ready[node] && unsettled[node] {
            sources.push(node)?;
        }
    }
    Ok(sources)
}

/// The first source of a batch that has a partner, with that partner.
fn first_pair<'a>(
    alloc: Global,
    graph: &Graph,
    partition: &Partition,
    ready: &[bool],
    keys: &[CommandKeys<'a>],
    doubtful: &DoubtfulTouches,
    sources: &[usize],
) -> Result<Option<(usize, usize)>, Memory>
    requires partition { IsPartitionOf graph.now (parts partition.now) }
    requires ready { length ready.now ≡ length graph.now.ids }
    requires nodes { length keys.now ≤ length graph.now.ids }
    requires doubtful { AreInRange (length keys.now) doubtful.now.keys doubtful.now.touches.items }
    requires few { length sources.now ≤ 64 }
    requires in_range { All (λ k. k < length keys.now) sources.now }
    requires sources { All (λ k. IsTrue (is_marked ready.now k)) sources.now }
    ensures in_range { IfOk result (λ found. IfSome found (λ pair.
        (pair.0 < length keys.now) × (pair.1 < length keys.now))) }
    ensures first { IfOk result (λ found. (m : List Instance) → keys.now ≡ map keys_of m →
        HoldAllConflicts m (edges_of graph.now) ready.now doubtful.now.touches.items →
        MatchOption found
        (AreSettled m (edges_of graph.now) ready.now sources.now (length sources.now))
        (λ pair. IsFirstPair m (edges_of graph.now) ready.now sources.now pair.0 pair.1)) }
{
    let batch = SourceBatch::of(alloc, graph, partition, doubtful, sources)?;
    if batch.has_no_candidate(partition, ready) {
        return Ok(None);
    }
    for bit in 0..sources.len() {
        let source = sources[bit];
        if let Some(partner) = first_partner(partition, ready, keys, &batch, bit, source) {
            return Ok(Some((source, partner)));
        }
    }
    Ok(None)
}

/// The partner of a source: the least node after it that conflicts with it and is not related to
/// it. Both are nodes of ready instances.
fn first_partner<'a>(
    partition: &Partition,
    ready: &[bool],
    keys: &[CommandKeys<'a>],
    batch: &SourceBatch,
    bit: usize,
    source: usize,
) -> Option<usize>
    requires whole { IsWhole (parts partition.now) ready.now batch.now }
    requires nodes { length keys.now ≤ length ready.now }
    requires bit { bit < 64 }
    requires source { source < length keys.now }
    requires ready { IsTrue (is_marked ready.now source) }
    ensures in_range { IfSome result (λ j. j < length keys.now) }
    ensures partner { (m : List Instance) (g : DependencyGraph) (touches : List DoubtfulTouch)
        (sources : List ℕ) →
        keys.now ≡ map keys_of m → HoldAllConflicts m (edges_of g) ready.now touches →
        IsBatch g (parts partition.now) touches sources batch.now →
        bit < length sources → slice_index sources bit ≡ source →
        MatchOption result
        ((j : ℕ) → source < j → IsSettled m (edges_of g) ready.now source j)
        (IsPartner m (edges_of g) ready.now source) }
{
    for other in source + 1..keys.len() {
        if has_bit(batch.candidates(partition, ready, other), bit)
            && keys[source].conflict(&keys[other])
        {
            return Some(other);
        }
    }
    None
}
