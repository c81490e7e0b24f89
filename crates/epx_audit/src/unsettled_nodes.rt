//! The nodes that may have a partner in an uncovered pair.
ghost use Rattle.std.specs.Prelude.{◌≡◌, ℕ, ◌<◌, length, All, Contains, IfOk, OnOk, IsTrue};
ghost use Rattle.epx_graph.specs.Graphs.{DependencyGraph, edges_of};
ghost use Rattle.epx_components.specs.between.ReadyMarks.{is_marked};
ghost use Rattle.epx_audit.specs.declared.doubtful_touches.DoubtfulTouch.{DoubtfulTouch};
ghost use Rattle.epx_audit.specs.inner.DoubtfulKeys.{HoldUnsettled};
ghost use Rattle.epx_audit.specs.inner.UnsettledNodes.{AreTouchesOf, TouchKeysRise, touch_in};
ghost use Rattle.epx_audit.specs.inner.UnsettledNodes.{Follows, IsBehindEnd, FollowAll};
ghost use Rattle.epx_audit.specs.inner.ReachIndexes.{IsReachIndex};

use crate::doubtful_touches::DoubtfulTouch;
use crate::reach_index::ReachIndex;
use epx_types::Memory;
use std::alloc::Global;

/// A touch is compared with one earlier touch of its key on each path. So with more paths than
/// these it is not worth it.
const MOST_PATHS: usize = 64;

/// Marks, among this many nodes, those that are not found to be related to each node that shares
/// a doubtful key with them. Without a cover by few paths, all nodes that touch a doubtful key are
/// marked.
pub(crate) fn unsettled_nodes(
    alloc: Global,
    nodes: usize,
    reach: &ReachIndex,
    touches: &[DoubtfulTouch],
) -> Result<Vec<bool>, Memory>
    requires reach { (g : DependencyGraph) × IsReachIndex g reach.now }
    requires touches { AreTouchesOf nodes touches.now }
    requires in_graph { AreTouchesOf (length reach.now.positions.items) touches.now }
    ensures len { IfOk result (λ unsettled. length unsettled.items ≡ nodes) }
    ensures unsettled { IfOk result (λ unsettled. (g : DependencyGraph) → IsReachIndex g reach.now →
        HoldUnsettled (edges_of g) touches.now unsettled.items) }
{
    let mut unsettled = vec![in alloc; false; nodes]?;
    if reach.has_paths(MOST_PATHS) && keys_rise(touches) {
        mark_unsettled(alloc, reach, touches, true, &mut unsettled)?;
        mark_unsettled(alloc, reach, touches, false, &mut unsettled)?;
        return Ok(unsettled);
    }
    for touch in touches {
        unsettled[touch.node] = true;
    }
    Ok(unsettled)
}

/// Whether the touches are by rising key.
fn keys_rise(touches: &[DoubtfulTouch]) -> bool
    ensures { IsTrue result → TouchKeysRise touches.now (length touches.now) }
{
    for index in 1..touches.len() {
        if touches[index].key < touches[index - 1].key {
            return false;
        }
    }
    true
}

/// Marks the node of each touch that is not found to follow all touches of its key at earlier
/// steps of which one writes. Each step goes `on` to the next touch, or back to the one before.
///
/// Of the touches so far only the ends are kept, from which the others follow. They are on
/// different paths of the cover, so there are at most as many as it has paths.
fn mark_unsettled(
    alloc: Global,
    reach: &ReachIndex,
    touches: &[DoubtfulTouch],
    on: bool,
    unsettled: &mut [bool],
) -> Result<(), Memory>
    requires reach { (g : DependencyGraph) × IsReachIndex g reach.now }
    requires rise { TouchKeysRise touches.now (length touches.now) }
    requires touches { AreTouchesOf (length unsettled.old) touches.now }
    requires in_graph { AreTouchesOf (length reach.now.positions.items) touches.now }
    ensures len { length unsettled.new ≡ length unsettled.old }
    ensures keeps { (k : ℕ) → IsTrue (is_marked unsettled.old k) →
        IsTrue (is_marked unsettled.new k) }
    ensures unsettled { OnOk result ((g : DependencyGraph) → IsReachIndex g reach.now →
        FollowAll (edges_of g) on touches.now unsettled.new (length touches.now)) }
{
    let mut key = 0;
    let mut touching = Vec::new(alloc);
    let mut writing = Vec::new(alloc);
    for step in 0..touches.len() {
        let touch = touch_in(touches, on, step);
        if touch.key != key {
            key = touch.key;
            touching.clear();
            writing.clear();
        }
        let before = if touch.writes { &touching } else { &writing };
        if !follows_all(reach, touch.node, before, on) {
            unsettled[touch.node] = true;
        }
        touching = with_end(alloc, reach, &touching, touch.node, on)?;
        if touch.writes {
            writing = with_end(alloc, reach, &writing, touch.node, on)?;
        }
    }
    Ok(())
}

/// The touch at a step.
fn touch_in(touches: &[DoubtfulTouch], on: bool, step: usize) -> DoubtfulTouch
    requires { step < length touches.now }
    ensures { result ≡ touch_in on touches.now step }
{
    if on {
        touches[step]
    } else {
        touches[touches.len() - 1 - step]
    }
}

/// Whether a node is found to follow another one.
fn follows(reach: &ReachIndex, node: usize, other: usize, on: bool) -> bool
    requires reach { (g : DependencyGraph) × IsReachIndex g reach.now }
    requires node { node < length reach.now.positions.items }
    requires other { other < length reach.now.positions.items }
    ensures { IsTrue result → (g : DependencyGraph) → IsReachIndex g reach.now →
        Follows (edges_of g) on node other }
{
    if on {
        reach.shows_path(node, other)
    } else {
        reach.shows_path(other, node)
    }
}

/// Whether a node is found to follow all ends.
fn follows_all(reach: &ReachIndex, node: usize, ends: &[usize], on: bool) -> bool
    requires reach { (g : DependencyGraph) × IsReachIndex g reach.now }
    requires node { node < length reach.now.positions.items }
    requires ends { All (λ k. k < length reach.now.positions.items) ends.now }
    ensures { IsTrue result → (g : DependencyGraph) → IsReachIndex g reach.now →
        (k : ℕ) → Contains ends.now k → Follows (edges_of g) on node k }
{
    for end in ends {
        if !follows(reach, node, *end, on) {
            return false;
        }
    }
    true
}

/// The ends after one more node: that node, and those that it is not found to follow.
fn with_end(
    alloc: Global,
    reach: &ReachIndex,
    ends: &[usize],
    node: usize,
    on: bool,
) -> Result<Vec<usize>, Memory>
    requires reach { (g : DependencyGraph) × IsReachIndex g reach.now }
    requires node { node < length reach.now.positions.items }
    requires ends { All (λ k. k < length reach.now.positions.items) ends.now }
    ensures in_graph { IfOk result (λ more. All (λ k. k < length reach.now.positions.items)
        more.items) }
    ensures node { IfOk result (λ more. Contains more.items node) }
    ensures behind { IfOk result (λ more. (g : DependencyGraph) → IsReachIndex g reach.now →
        (k : ℕ) → Contains ends.now k → IsBehindEnd (edges_of g) on more.items k) }
{
    let mut more = Vec::new(alloc);
    for end in ends {
        if !follows(reach, node, *end, on) {
            more.push(*end)?;
        }
    }
    more.push(node)?;
    Ok(more)
}
