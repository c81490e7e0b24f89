//! Which pairs of instances of an execution order are related.
ghost use Rattle.std.specs.Prelude.{◌≡◌, ℕ, ◌<◌, ◌≤◌, List, length, slice_index};
ghost use Rattle.std.specs.Prelude.{All, Contains, IfOk, OnOk, IfSome};
ghost use Rattle.epx_types.specs.ExecutionOrder.{IsExecutionOrder};
ghost use Rattle.epx_graph.specs.Graphs.{DependencyGraph, edges_of};
ghost use Rattle.epx_graph.specs.GraphOf.{IsGraphOf};
ghost use Rattle.epx_audit.specs.between.RelatedPairs.{AreLaterFirst, AreRelatedMarks};
ghost use Rattle.epx_audit.specs.declared.pair_marks.LeftPair.{LeftPair};
ghost use Rattle.epx_audit.specs.inner.PairMarks.{AreExactMarks, AreExactBut, left_at};
ghost use Rattle.epx_audit.specs.inner.PathCovers.{IsPathCover};
ghost use Rattle.epx_audit.specs.inner.ReachIndexes.{IsReachIndex};

use crate::path_cover::PathCover;
use crate::quick_audit::order_nodes;
use crate::reach_index::ReachIndex;
use crate::related::find_reached;
use crate::search::PathSearch;
use crate::source_marks::{SOURCES, has_bit};
use epx_committed::Merged;
use epx_components::{OrderList, find_components};
use epx_graph::Graph;
use epx_types::Memory;
use std::alloc::Global;

/// For each pair of positions of the order, whether the instance at the first one reaches the
/// instance at the second one. Over logs of few paths the time is that of a binary search a pair.
/// Over others, a pair that no quick search finds related takes its share of a pass over the
/// graph: 64 different first positions share one. The only error is out of memory.
pub fn related_pairs(
    alloc: Global,
    merged: &Merged,
    graph: &Graph,
    order: &OrderList,
    pairs: &[(usize, usize)],
) -> Result<Vec<bool>, Memory>
    requires graph { IsGraphOf merged.now graph.now }
    requires order { IsExecutionOrder merged.now order.now }
    requires pairs { AreLaterFirst (length order.now) pairs.now }
    ensures { IfOk result
        (λ marks. AreRelatedMarks merged.now order.now pairs.now marks.items) }
{
    let nodes = order_nodes(alloc, merged, order)?;
    let reach = ReachIndex::of(alloc, merged, graph, order, nodes)?;
    match &reach.cover {
        Some(cover) => covered_marks(alloc, cover, pairs),
        None => searched_marks(alloc, graph, &reach, pairs),
    }
}

/// The mark of each pair, from a cover.
fn covered_marks(
    alloc: Global,
    cover: &PathCover,
    pairs: &[(usize, usize)],
) -> Result<Vec<bool>, Memory>
    requires { (g : DependencyGraph) × (nodes : List ℕ) × IsPathCover g nodes cover.now
        × AreLaterFirst (length nodes) pairs.now }
    ensures { IfOk result (λ marks. (g : DependencyGraph) (nodes : List ℕ) →
        IsPathCover g nodes cover.now → AreLaterFirst (length nodes) pairs.now →
        AreExactMarks (edges_of g) nodes pairs.now marks.items) }
{
    let mut marks = Vec::with_capacity(alloc, pairs.len())?;
    for index in 0..pairs.len() {
        let (later, earlier) = pairs[index];
        marks.push(cover.reaches(later, earlier))?;
    }
    Ok(marks)
}

/// The mark of each pair, from quick searches and from passes over the graph for the pairs that
/// these leave.
fn searched_marks(
    alloc: Global,
    graph: &Graph,
    reach: &ReachIndex,
    pairs: &[(usize, usize)],
) -> Result<Vec<bool>, Memory>
    requires reach { IsReachIndex graph.now reach.now }
    requires pairs { AreLaterFirst (length reach.now.nodes.items) pairs.now }
    ensures { IfOk result (λ marks. AreExactMarks (edges_of graph.now) reach.now.nodes.items
        pairs.now marks.items) }
{
    let mut path_search = PathSearch::new(alloc, graph.len())?;
    let mut marks = Vec::with_capacity(alloc, pairs.len())?;
    let mut left = Vec::new(alloc);
    for index in 0..pairs.len() {
        let (later, earlier) = pairs[index];
        let found = path_search.reaches(graph, reach, later, earlier)?;
        marks.push(found)?;
        if !found {
            let (from, to) = (reach.nodes[later], reach.nodes[earlier]);
            left.push(LeftPair { from, to, index })?;
        }
    }
    // Pairs from one node are next to each other, so that they share a source.
    left.sort()?;
    mark_left(alloc, graph, &left, &mut marks)?;
    Ok(marks)
}

/// A pair of which no quick search finds that its first node reaches its second one.
#[derive(Clone, Copy, Debug, PartialEq, Eq, PartialOrd, Ord)]
struct LeftPair {
    from: usize,
    to: usize,
    /// The index of the pair in the list of all pairs.
    index: usize,
}

/// Writes the marks of the pairs that are left, by passes over the graph for 64 sources each.
fn mark_left(
    alloc: Global,
    graph: &Graph,
    left: &[LeftPair],
    marks: &mut [bool],
) -> Result<(), Memory>
    requires left { (o : LeftPair) → Contains left.now o → (o.from < length graph.now.ids)
        × (o.to < length graph.now.ids) × (o.index < length marks.old) }
    ensures { OnOk result ((nodes : List ℕ) (pairs : List (ℕ × ℕ)) →
        AreExactBut (edges_of graph.now) nodes pairs left.now marks.old →
        AreExactMarks (edges_of graph.now) nodes pairs marks.new) }
{
    let partition = find_components(alloc, graph)?;
    let mut sources = Vec::new(alloc);
    let mut reached = Vec::new(alloc);
    for index in 0..left.len() {
        let pair = left[index];
        let bit = match bit_of(&sources, pair.from) {
            Some(bit) => bit,
            None => {
                sources = next_sources(alloc, left, index)?;
                reached = find_reached(alloc, graph, &partition, &sources)?;
                0
            }
        };
        marks[pair.index] = has_bit(reached[partition.component[pair.to]], bit);
    }
    Ok(())
}

/// The bit of a node among the sources of a pass, if it is found there.
fn bit_of(sources: &[usize], node: usize) -> Option<usize>
    ensures { IfSome result
        (λ bit. (bit < length sources.now) × (slice_index sources.now bit ≡ node)) }
{
    match sources.binary_search(&node) {
        Ok(bit) if sources[bit] == node => Some(bit),
        _ => None,
    }
}

/// The first nodes of the pairs that come next, 64 different ones at most.
fn next_sources(alloc: Global, left: &[LeftPair], start: usize) -> Result<Vec<usize>, Memory>
    requires { start < length left.now }
    ensures few { IfOk result (λ sources. length sources.items ≤ 64) }
    ensures first { IfOk result (λ sources. (0 < length sources.items)
        × (slice_index sources.items 0 ≡ (left_at left.now start).from)) }
    ensures in_range { IfOk result (λ sources. (n : ℕ) →
        ((o : LeftPair) → Contains left.now o → o.from < n) →
        All (λ k. k < n) sources.items) }
{
    let mut last = left[start].from;
    let mut sources = Vec::new(alloc);
    sources.push(last)?;
    for index in start..left.len() {
        let from = left[index].from;
        if from != last {
            if sources.len() == SOURCES {
                break;
            }
            last = from;
            sources.push(from)?;
        }
    }
    Ok(sources)
}
