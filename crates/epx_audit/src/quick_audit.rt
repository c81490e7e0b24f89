//! A quick audit. It finds most covered maps to be covered.
ghost use Rattle.std.specs.Prelude.{◌≡◌, ◌<◌, ◌≤◌, length, slice_get, IfOk, IsTrue};
ghost use Rattle.epx_types.specs.CommittedMap.{IsCommitted, ids_of};
ghost use Rattle.epx_types.specs.Conflicts.{IsCovered};
ghost use Rattle.epx_types.specs.Ids.{IsRising};
ghost use Rattle.epx_types.specs.ExecutionOrder.{IsExecutionOrder};
ghost use Rattle.epx_graph.specs.Graphs.{edges_of};
ghost use Rattle.epx_graph.specs.GraphOf.{IsGraphOf};
ghost use Rattle.epx_audit.specs.inner.RelatedTouches.{touch_at, AreAllRelated, IsRelatedBack};
ghost use Rattle.epx_audit.specs.inner.RelatedTouches.{IsNextWriter};
ghost use Rattle.epx_audit.specs.inner.Touches.{ArePlaced};
ghost use Rattle.epx_audit.specs.inner.ReachIndexes.{AreOrderNodes, IsReachIndex};

use crate::reach_index::ReachIndex;
use crate::search::PathSearch;
use crate::touches::{KeyUse, find_touches};
use epx_committed::Merged;
use epx_components::OrderList;
use epx_graph::Graph;
use epx_types::{Id, Memory};
use std::alloc::Global;
use std::hash::DefaultHasher;

/// Whether, for each key, the commands that touch it are found to be related. Each writer has to
/// reach the last writer before it and all readers in between. Each reader has to reach the last
/// writer. The other pairs follow by transitivity, so about two pairs a touch are tested.
///
/// If the result is true, the map is covered. If it is false, the map may still be covered: two
/// keys can share a hash, and the number of nodes that the searches open is limited. `start` is
/// the state of the hasher.
pub(crate) fn is_found_covered(
    alloc: Global,
    merged: &Merged,
    graph: &Graph,
    order: &OrderList,
    start: DefaultHasher,
) -> Result<bool, Memory>
    requires graph { IsGraphOf merged.now graph.now }
    requires order { IsExecutionOrder merged.now order.now }
    ensures { IfOk result (λ yes. IsTrue yes → IsCovered merged.now) }
{
    let nodes = order_nodes(alloc, merged, order)?;
    let touches = find_touches(alloc, merged, &nodes, start)?;
    let reach = ReachIndex::of(alloc, merged, graph, order, nodes)?;
    are_all_related(alloc, graph, &reach, &touches)
}

/// The node at each position of an order.
pub(crate) fn order_nodes(
    alloc: Global,
    merged: &Merged,
    order: &OrderList,
) -> Result<Vec<usize>, Memory>
    requires rising { IsRising (ids_of merged.now) }
    requires order { IsExecutionOrder merged.now order.now }
    ensures { IfOk result (λ nodes. AreOrderNodes merged.now order.now nodes.items) }
{
    let mut nodes = Vec::with_capacity(alloc, order.len())?;
    for id in order.ids() {
        nodes.push(node_of(merged, *id))?;
    }
    Ok(nodes)
}

/// The node of a committed instance.
fn node_of(merged: &Merged, id: Id) -> usize
    requires rising { IsRising (ids_of merged.now) }
    requires committed { IsCommitted merged.now id }
    ensures { slice_get (ids_of merged.now) result ≡ Some id }
{
    match merged.position(id) {
        Some(position) => position,
        None => unreachable!(),
    }
}

/// Whether all touches of each hash are found to be related: of any two of which one writes, the
/// later one reaches the earlier one.
pub(crate) fn are_all_related(
    alloc: Global,
    graph: &Graph,
    reach: &ReachIndex,
    touches: &[KeyUse],
) -> Result<bool, Memory>
    requires reach { IsReachIndex graph.now reach.now }
    requires placed { ArePlaced (length reach.now.nodes.items) touches.now }
    ensures { IfOk result (λ yes. IsTrue yes →
        AreAllRelated (edges_of graph.now) reach.now.nodes.items touches.now (length touches.now)) }
{
    let mut path_search = PathSearch::new(alloc, graph.len())?;
    let mut last_writer = 0;
    for index in 0..touches.len() {
        if !is_related_back(&mut path_search, graph, reach, touches, last_writer, index)? {
            return Ok(false);
        }
        last_writer = next_writer(touches, last_writer, index);
    }
    Ok(true)
}

/// The last writer after the touch at `index`: that touch if it writes or is the first of its
/// hash, else the same one.
pub(crate) fn next_writer(touches: &[KeyUse], last_writer: usize, index: usize) -> usize
    requires last_writer { last_writer ≤ index }
    requires index { index < length touches.now }
    ensures within { result ≤ index }
    ensures next { IsNextWriter touches.now last_writer index result }
{
    if touches[index].writes || touches[index].hash != touches[last_writer].hash {
        index
    } else {
        last_writer
    }
}

/// Whether a touch has no lower hash than the last writer, and is found to reach all touches that
/// it has to reach.
pub(crate) fn is_related_back(
    path_search: &mut PathSearch,
    graph: &Graph,
    reach: &ReachIndex,
    touches: &[KeyUse],
    last_writer: usize,
    index: usize,
) -> Result<bool, Memory>
    requires seen { length path_search.old.seen.items ≡ length graph.now.ids }
    requires reach { IsReachIndex graph.now reach.now }
    requires placed { ArePlaced (length reach.now.nodes.items) touches.now }
    requires last_writer { last_writer ≤ index }
    requires index { index < length touches.now }
    ensures seen { length path_search.new.seen.items ≡ length path_search.old.seen.items }
    ensures rises { IfOk result (λ yes. IsTrue yes →
        (touch_at touches.now last_writer).hash ≤ (touch_at touches.now index).hash) }
    ensures related_back { IfOk result (λ yes. IsTrue yes →
        (touch_at touches.now last_writer).hash ≡ (touch_at touches.now index).hash →
        IsRelatedBack (edges_of graph.now) reach.now.nodes.items touches.now last_writer index) }
{
    let (first, touch) = (touches[last_writer], touches[index]);
    if touch.hash != first.hash {
        return Ok(first.hash < touch.hash);
    }
    let end = if touch.writes {
        index
    } else {
        index.min(last_writer + 1)
    };
    for earlier in last_writer..end {
        let other = touches[earlier];
        let asked = touch.writes || other.writes;
        if asked && !path_search.reaches(graph, reach, touch.position, other.position)? {
            return Ok(false);
        }
    }
    Ok(true)
}
