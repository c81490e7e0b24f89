//! Builds the graph of a committed map, or of what is left of one.
ghost use Rattle.std.specs.Prelude.{◌≡◌, length, All, AllPairs, IfOk, OnOk};
ghost use Rattle.epx_types.specs.declared.id.Id.{Id};
ghost use Rattle.epx_types.specs.Ids.{Below, IsRising};
ghost use Rattle.epx_types.specs.CommittedMap.{ids_of, IsCommitted};
ghost use Rattle.epx_types.specs.Done.{remaining};
ghost use Rattle.epx_graph.specs.GraphOf.{IsGraphOfRest, IsGraphOf};
ghost use Rattle.epx_graph.specs.inner.Remainder.{rest_of};
ghost use Rattle.epx_graph.specs.inner.Nodes.{AreNodesOf, ArePositionsOf, AreRowsOf, IsGathered};

use crate::dependency_rows::{Gathered, committed_rows};
use crate::graph::Graph;
use crate::remainder::Remainder;
use epx_committed::Merged;
use epx_rows::Rows;
use epx_types::id_list::{find_id, sort_unique};
use epx_types::{Id, Memory, Plan};
use std::alloc::Global;
use std::thread::Threads;

/// The Ids of the instances that are left, with room for more.
fn committed_ids(alloc: Global, left: &Remainder, more: usize) -> Result<Vec<Id>, Memory>
    ensures { IfOk result (λ ids. ids.items ≡ ids_of (rest_of left.now)) }
{
    let mut ids = Vec::with_capacity(alloc, left.len().saturating_add(more))?;
    for index in 0..left.len() {
        ids.push(left.id_at(index))?;
    }
    Ok(ids)
}

/// The Ids of the nodes: the instances that are left, and then the missing ones.
fn nodes(alloc: Global, left: &Remainder, gathered: &Gathered) -> Result<Vec<Id>, Memory>
    requires { IsGathered (rest_of left.now) gathered.now.rows gathered.now.missing.items }
    ensures { IfOk result (λ ids. AreNodesOf (rest_of left.now) ids.items) }
{
    let missing = sort_unique(alloc, &gathered.missing)?;
    let mut ids = committed_ids(alloc, left, missing.len())?;
    ids.extend_from_slice(&missing)?;
    Ok(ids)
}

/// Puts the nodes of missing Ids into `row`, in their order.
fn number_missing(
    left: &Remainder,
    ids: &[Id],
    missing: &[Id],
    row: &mut Vec<usize>,
) -> Result<(), Memory>
    requires nodes { AreNodesOf (rest_of left.now) ids.now }
    requires rising { AllPairs Below missing.now }
    requires missing { All (λ x. ¬ IsCommitted (rest_of left.now) x) missing.now }
    ensures { OnOk result (ArePositionsOf ids.now missing.now row.new.items) }
{
    row.clear();
    let (committed, nodes) = ids.split_at(left.len());
    for id in missing {
        if let Some(index) = find_id(nodes, *id) {
            row.push(committed.len() + index)?;
        }
    }
    Ok(())
}

/// The edges of the nodes that are left: the committed dependencies of each, and then its missing
/// ones.
fn numbered_rows(
    alloc: Global,
    left: &Remainder,
    ids: &[Id],
    gathered: &Gathered,
) -> Result<Rows, Memory>
    requires nodes { AreNodesOf (rest_of left.now) ids.now }
    requires gathered { IsGathered (rest_of left.now) gathered.now.rows gathered.now.missing.items }
    ensures { IfOk result
        (λ rows. AreRowsOf (rest_of left.now) ids.now rows (length (rest_of left.now))) }
{
    let mut rows = gathered
        .rows
        .empty_with_room(alloc, gathered.missing.len())?;
    let mut missing = gathered.missing.as_slice();
    let mut row = Vec::new(alloc);
    for index in 0..left.len() {
        let known = gathered.rows.row(index);
        let lacks = left.count_undone(left.entry_at(index).deps()) - known.len();
        let (here, later) = missing.split_at(lacks);
        number_missing(left, ids, here, &mut row)?;
        rows = rows.push_row(known, &row)?;
        missing = later;
    }
    Ok(rows)
}

/// The edges of the nodes that are left.
fn rows(alloc: Global, left: &Remainder, ids: &[Id], gathered: Gathered) -> Result<Rows, Memory>
    requires nodes { AreNodesOf (rest_of left.now) ids.now }
    requires gathered { IsGathered (rest_of left.now) gathered.rows gathered.missing.items }
    ensures { IfOk result
        (λ rows. AreRowsOf (rest_of left.now) ids.now rows (length (rest_of left.now))) }
{
    if gathered.missing.is_empty() {
        let Gathered { rows, missing: _ } = gathered;
        return Ok(rows);
    }
    numbered_rows(alloc, left, ids, &gathered)
}

/// The graph of a committed map of which nothing is done.
///
/// The node of a committed instance is its position in the map. The plan's workers look up the
/// dependencies. The graph is the same for every plan. Takes time n log n in the instances and
/// dependencies. `Memory` is the only error.
pub fn build<R: Threads + Sync>(
    rt: &R,
    alloc: Global,
    merged: &Merged,
    plan: Plan,
) -> Result<Graph, Memory>
    ensures graph { IfOk result (λ graph. IsGraphOf merged.now graph) }
    ensures after { IfOk result (λ graph. IsGraphOfRest merged.now graph) }
{
    build_after(rt, alloc, merged, &[], plan)
}

/// The graph of what is left of a map once some instances are done. `done` lists their Ids by
/// rising Id; an Id in it need not be in the map.
///
/// A done instance has no node, and no instance waits for it. So a node is a position among the
/// instances that are left, and not in the map. Takes time n log n in all instances, done Ids and
/// dependencies. `Memory` is the only error.
pub fn build_after<R: Threads + Sync>(
    rt: &R,
    alloc: Global,
    merged: &Merged,
    done: &[Id],
    plan: Plan,
) -> Result<Graph, Memory>
    requires { IsRising done.now }
    ensures { IfOk result (λ graph. IsGraphOf (remaining done.now merged.now) graph) }
{
    let left = Remainder::new(alloc, merged, done)?;
    let gathered = committed_rows(rt, alloc, &left, plan)?;
    let ids = nodes(alloc, &left, &gathered)?;
    let rows = rows(alloc, &left, &ids, gathered)?;
    Ok(Graph::new(ids, rows))
}
