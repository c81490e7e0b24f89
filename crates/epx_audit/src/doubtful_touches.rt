//! The keys for which the quick audit does not find all conflicting commands related.
ghost use Rattle.std.specs.Prelude.{◌≡◌, ℕ, ◌-◌, ◌<◌, length, slice_index, true, Contains, IsTrue};
ghost use Rattle.std.specs.Prelude.{IfOk, MatchOption, replicate};
ghost use Rattle.std.specs.List.Sorted.{IsStrictlyIncreasing};
ghost use Rattle.epx_types.specs.ExecutionOrder.{IsExecutionOrder};
ghost use Rattle.epx_graph.specs.GraphOf.{IsGraphOf};
ghost use Rattle.epx_audit.specs.declared.doubtful_touches.DoubtfulTouch.{DoubtfulTouch};
ghost use Rattle.epx_audit.specs.declared.touches.KeyUse.{KeyUse};
ghost use Rattle.epx_audit.specs.inner.DoubtfulKeys.{doubtful_touch, AreDoubtful, AreInRange};
ghost use Rattle.epx_audit.specs.inner.Touches.{ArePlaced};
ghost use Rattle.epx_audit.specs.inner.ReachIndexes.{IsReachIndex};

use crate::quick_audit::{are_all_related, is_related_back, next_writer, order_nodes};
use crate::reach_index::ReachIndex;
use crate::search::PathSearch;
use crate::touches::{KeyUse, find_touches};
use crate::unsettled_nodes::unsettled_nodes;
use epx_committed::Merged;
use epx_components::OrderList;
use epx_graph::Graph;
use epx_types::Memory;
use std::alloc::Global;
use std::hash::DefaultHasher;

/// A touch of a doubtful key by a command.
#[derive(Clone, Copy)]
pub(crate) struct DoubtfulTouch {
    /// The number of the doubtful key.
    pub(crate) key: usize,
    pub(crate) node: usize,
    pub(crate) writes: bool,
}

/// The touches of the doubtful keys. A key is doubtful if the quick audit does not find all its
/// touches related.
pub(crate) struct DoubtfulTouches {
    /// The number of doubtful keys.
    pub(crate) keys: usize,
    pub(crate) touches: Vec<DoubtfulTouch>,
    /// Marks the nodes that may not be related to each node that shares a doubtful key with them.
    pub(crate) unsettled: Vec<bool>,
}

impl Drop for DoubtfulTouches {
    fn drop(self) {
        let DoubtfulTouches {
            keys: _,
            touches: _,
            unsettled: _,
        } = self;
    }
}

/// Finds the doubtful keys of a map, and all their touches. Keys are distinguished by the hashes
/// of a hasher that begins as `start`. If a second test does not find all other touches related,
/// every node counts as a writer of one doubtful key.
pub(crate) fn find_doubtful(
    alloc: Global,
    merged: &Merged,
    graph: &Graph,
    order: &OrderList,
    start: DefaultHasher,
) -> Result<DoubtfulTouches, Memory>
    requires graph { IsGraphOf merged.now graph.now }
    requires order { IsExecutionOrder merged.now order.now }
    ensures { IfOk result
        (λ doubtful. AreDoubtful merged.now graph.now doubtful.keys doubtful.touches.items
        doubtful.unsettled.items) }
{
    let nodes = order_nodes(alloc, merged, order)?;
    let touches = find_touches(alloc, merged, &nodes, start)?;
    let reach = ReachIndex::of(alloc, merged, graph, order, nodes)?;
    let hashes = doubtful_hashes(alloc, graph, &reach, &touches)?;
    let sure = other_touches(alloc, &touches, &hashes)?;
    // No contract says which hashes are doubtful. So the touches of all other hashes are tested
    // again.
    if !are_all_related(alloc, graph, &reach, &sure)? {
        let one = all_doubtful(alloc, merged.len())?;
        return Ok(one);
    }
    let touches = doubtful_touches(alloc, &reach.nodes, &touches, &hashes)?;
    let unsettled = unsettled_nodes(alloc, merged.len(), &reach, &touches)?;
    Ok(DoubtfulTouches {
        keys: hashes.len(),
        touches,
        unsettled,
    })
}

/// The hashes whose touches are not all found to be related.
fn doubtful_hashes(
    alloc: Global,
    graph: &Graph,
    reach: &ReachIndex,
    touches: &[KeyUse],
) -> Result<Vec<u64>, Memory>
    requires reach { IsReachIndex graph.now reach.now }
    requires placed { ArePlaced (length reach.now.nodes.items) touches.now }
    ensures { IfOk result (λ hashes. IsStrictlyIncreasing hashes.items) }
{
    let mut path_search = PathSearch::new(alloc, graph.len())?;
    let mut hashes = Vec::new(alloc);
    let mut last_writer = 0;
    for index in 0..touches.len() {
        let hash = touches[index].hash;
        if is_above_last(&hashes, hash)
            && !is_related_back(&mut path_search, graph, reach, touches, last_writer, index)?
        {
            hashes.push(hash)?;
        }
        last_writer = next_writer(touches, last_writer, index);
    }
    Ok(hashes)
}

/// Whether a hash is greater than the last of some increasing hashes.
fn is_above_last(hashes: &[u64], hash: u64) -> bool
    ensures { IsTrue result → 0 < length hashes.now →
        slice_index hashes.now (length hashes.now - 1) < hash }
{
    match hashes.last() {
        Some(last) => *last < hash,
        None => true,
    }
}

/// The index of a hash in the list of doubtful hashes.
fn doubtful_number(hashes: &[u64], hash: u64) -> Option<usize>
    requires { IsStrictlyIncreasing hashes.now }
    ensures { MatchOption result
        (¬ Contains hashes.now hash)
        (λ key. (key < length hashes.now) × (slice_index hashes.now key ≡ hash)) }
{
    match hashes.binary_search(&hash) {
        Ok(key) => Some(key),
        Err(_) => None,
    }
}

/// The touches of the hashes that are not doubtful.
fn other_touches(alloc: Global, touches: &[KeyUse], hashes: &[u64]) -> Result<Vec<KeyUse>, Memory>
    requires { IsStrictlyIncreasing hashes.now }
    ensures some { IfOk result
        (λ sure. (t : KeyUse) → Contains sure.items t → Contains touches.now t) }
    ensures all { IfOk result (λ sure. (t : KeyUse) → Contains touches.now t →
        ¬ Contains hashes.now t.hash → Contains sure.items t) }
{
    let mut sure = Vec::new(alloc);
    for touch in touches {
        if doubtful_number(hashes, touch.hash).is_none() {
            sure.push(*touch)?;
        }
    }
    Ok(sure)
}

/// The touches of the doubtful hashes.
fn doubtful_touches(
    alloc: Global,
    nodes: &[usize],
    touches: &[KeyUse],
    hashes: &[u64],
) -> Result<Vec<DoubtfulTouch>, Memory>
    requires placed { ArePlaced (length nodes.now) touches.now }
    requires hashes { IsStrictlyIncreasing hashes.now }
    ensures in_range { IfOk result (λ found. (t : DoubtfulTouch) → Contains found.items t →
        Contains nodes.now t.node × (t.key < length hashes.now)) }
    ensures whole { IfOk result (λ found. (t : KeyUse) (key : ℕ) → Contains touches.now t →
        key < length hashes.now → slice_index hashes.now key ≡ t.hash →
        Contains found.items (doubtful_touch nodes.now key t)) }
{
    let mut found = Vec::new(alloc);
    for touch in touches {
        if let Some(key) = doubtful_number(hashes, touch.hash) {
            found.push(DoubtfulTouch {
                key,
                node: nodes[touch.position],
                writes: touch.writes,
            })?;
        }
    }
    Ok(found)
}

/// One doubtful key that every node writes, so that any two nodes share it.
fn all_doubtful(alloc: Global, nodes: usize) -> Result<DoubtfulTouches, Memory>
    ensures in_range { IfOk result (λ one. AreInRange nodes one.keys one.touches.items) }
    ensures whole { IfOk result (λ one. (k : ℕ) → k < nodes →
        Contains one.touches.items (record { key = 0; node = k; writes = true })) }
    ensures unsettled { IfOk result (λ one. one.unsettled.items ≡ replicate nodes true) }
{
    let mut touches = Vec::with_capacity(alloc, nodes)?;
    for node in 0..nodes {
        touches.push(DoubtfulTouch {
            key: 0,
            node,
            writes: true,
        })?;
    }
    let unsettled = vec![in alloc; true; nodes]?;
    Ok(DoubtfulTouches {
        keys: 1,
        touches,
        unsettled,
    })
}
