//! Lists of instances, checked against the orders that the protocol allows.
ghost use Rattle.std.specs.Prelude.{◌≡◌, ◌<◌, List, length, All, MatchResult};
ghost use Rattle.epx_types.specs.declared.id.Id.{Id};
ghost use Rattle.epx_types.specs.LawfulPrefixes.{IsLawfulPrefix};
ghost use Rattle.epx_types.specs.LawfulOrders.{IsLawful};
ghost use Rattle.epx_graph.specs.GraphOf.{IsGraphOf};
ghost use Rattle.epx_ranking.specs.PrefixFaults.{IsPrefixFault};
ghost use Rattle.epx_ranking.specs.OrderFaults.{IsOrderFault};
ghost use Rattle.epx_components.specs.between.Partitions.{parts, IsPartitionOf};
ghost use Rattle.epx_ranking.specs.inner.NodeLists.{AreListedReady};
ghost use Rattle.epx_ranking.specs.inner.SequenceKeys.{AreNodesInOrder, IsNodeFault};

mod ends;
mod left_out;
mod node_list;
mod sequence_key;

use crate::order_fault::OrderFault;
use ends::{find_ends, find_ends_below, raise_ends};
use epx_committed::Merged;
use epx_components::{Partition, find_components, ready_nodes};
use epx_graph::Graph;
use epx_types::Id;
use left_out::find_left_out;
use node_list::{NodeList, first_unlisted, list_nodes};
use sequence_key::{SequenceKey, comes_after, comes_before, no_sequence_keys};
use std::alloc::Global;

/// Checks that a list is an order that the protocol allows. The time is linear in the instances
/// and their dependencies, and a binary search for each Id of the list.
///
/// Otherwise it returns the first fault in this order of search:
/// - the least position of an instance that is not ready (`Stranger`) or listed twice (`Repeat`);
/// - the least ready instance that is not listed (`Missing`);
/// - the least position where the order is wrong, `Early` before `Sequence`.
///
/// `Memory` means out of memory. It says nothing about the list.
pub fn check_order(
    alloc: Global,
    merged: &Merged,
    graph: &Graph,
    ids: &[Id],
) -> Result<(), OrderFault>
    requires { IsGraphOf merged.now graph.now }
    ensures { MatchResult result (λ _. IsLawful merged.now ids.now)
        (IsOrderFault merged.now ids.now) }
{
    let partition = find_components(alloc, graph)?;
    let ready = ready_nodes(alloc, graph, &partition)?;
    let node_list = list_nodes(alloc, graph, &ready, ids)?;
    if let Some(node) = first_unlisted(&ready, &node_list.marks) {
        return Err(OrderFault::Missing { id: graph.id(node) });
    }
    check_listed(alloc, merged, graph, &partition, &node_list)
}

/// Checks that a list is a prefix of an order that the protocol allows, as the list of a
/// replica that is still executing. It may lack any ready instances at the end. The time is that
/// of `check_order`.
///
/// Otherwise it returns the first fault in this order of search:
/// - the least position of an instance that is not ready (`Stranger`) or listed twice (`Repeat`);
/// - the least position where the order is wrong: `Early` if something that the instance reaches
///   outside its component is not listed before it; else `Sequence` if a member of its component
///   that belongs later is listed before it, or one that belongs earlier is not listed.
///
/// It returns no `Missing`. For a list of all ready instances the answer is that of `check_order`.
/// `Memory` means out of memory. It says nothing about the list.
pub fn check_prefix(
    alloc: Global,
    merged: &Merged,
    graph: &Graph,
    ids: &[Id],
) -> Result<(), OrderFault>
    requires { IsGraphOf merged.now graph.now }
    ensures { MatchResult result (λ _. IsLawfulPrefix merged.now ids.now)
        (IsPrefixFault merged.now ids.now) }
{
    let partition = find_components(alloc, graph)?;
    let ready = ready_nodes(alloc, graph, &partition)?;
    let node_list = list_nodes(alloc, graph, &ready, ids)?;
    check_listed(alloc, merged, graph, &partition, &node_list)
}

/// Checks that a list of ready instances, each listed once, is a prefix of an order that the
/// protocol allows. Otherwise it returns the least position where the order is wrong.
fn check_listed(
    alloc: Global,
    merged: &Merged,
    graph: &Graph,
    partition: &Partition,
    node_list: &NodeList,
) -> Result<(), OrderFault>
    requires graph { IsGraphOf merged.now graph.now }
    requires partition { IsPartitionOf graph.now (parts partition.now) }
    requires ready { (ids : List Id) × AreListedReady merged.now graph.now ids
        node_list.now.nodes.items node_list.now.marks.items }
    ensures { (ids : List Id) → AreListedReady merged.now graph.now ids
        node_list.now.nodes.items node_list.now.marks.items
        → MatchResult result (λ _. IsLawfulPrefix merged.now ids)
        (IsPrefixFault merged.now ids) }
{
    let left_out = find_left_out(alloc, merged, partition, &node_list.marks)?;
    let mut ends = find_ends(alloc, partition, &node_list.nodes)?;
    raise_ends(&mut ends, &left_out, node_list.nodes.len());
    let below = find_ends_below(alloc, graph, partition, &ends)?;
    check_positions(
        alloc,
        merged,
        partition,
        &left_out,
        &below,
        &node_list.nodes,
    )
}

/// Returns the least position of a list of ready nodes, each listed once, where the order is
/// wrong.
fn check_positions(
    alloc: Global,
    merged: &Merged,
    partition: &Partition,
    left_out: &[Option<SequenceKey>],
    below: &[usize],
    nodes: &[usize],
) -> Result<(), OrderFault>
    requires counted { All (λ c. c < (parts partition.now).count) (parts partition.now).component }
    requires nodes { All (λ k. k < length (parts partition.now).component) nodes.now }
    requires committed { All (λ k. k < length merged.now) nodes.now }
    requires left_out { length left_out.now ≡ (parts partition.now).count }
    requires below { length below.now ≡ (parts partition.now).count }
    ensures { MatchResult result
        (λ _. AreNodesInOrder merged.now (parts partition.now) left_out.now below.now nodes.now
        (length nodes.now))
        (IsNodeFault merged.now (parts partition.now) left_out.now below.now nodes.now) }
{
    let mut latest = no_sequence_keys(alloc, partition.count)?;
    for (place, node) in nodes.iter().enumerate() {
        let own = partition.component[*node];
        if below[own] > place {
            return Err(OrderFault::Early { place });
        }
        let key_of_node = SequenceKey::of(merged.entry_at(*node));
        if comes_before(key_of_node, latest[own]) {
            return Err(OrderFault::Sequence { place });
        }
        if comes_after(key_of_node, left_out[own]) {
            return Err(OrderFault::Sequence { place });
        }
        latest[own] = Some(key_of_node);
    }
    Ok(())
}
