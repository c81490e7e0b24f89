//! Why an instance is executed where it is, or why it is not executed.
ghost use Rattle.std.specs.Prelude.{◌≡◌, ◌<◌, ◌≤◌, ◌++◌, List, length, flat_map, slice_get};
ghost use Rattle.std.specs.Prelude.{Contains, IfOk, MatchOption, Some, codes};
ghost use Rattle.epx_types.specs.declared.id.Id.{Id};
ghost use Rattle.epx_types.specs.Instances.{Instance};
ghost use Rattle.epx_types.specs.ExecutionOrder.{ranked_ids, IsExecutionOrder};
ghost use Rattle.epx_types.specs.Readiness.{IsReady};
ghost use Rattle.epx_graph.specs.GraphOf.{IsGraphOf};
ghost use Rattle.epx_graph.specs.Graphs.{IsGraph};
ghost use Rattle.epx_report.specs.ReportLines.{waiting_line};
ghost use Rattle.epx_report.specs.ViewLines.{missing_line};
ghost use Rattle.epx_why.specs.Needs.{AreNeedsOf, AreNeeding};
ghost use Rattle.epx_why.specs.WhyLines.{need_line};
ghost use Rattle.epx_why.specs.WhyTexts.{IsWhyText};

use crate::need::Need;
use crate::node_needs::needs_in;
use crate::why_lines::{append_needs, ready_line};
use epx_components::OrderList;
use epx_graph::{Graph, distances_from, distances_to};
use epx_report::{append_waiter, missing_line};
use epx_types::{Id, Memory};
use std::alloc::Global;

/// The missing instances that the instance of a node reaches.
fn needs_of(alloc: Global, graph: &Graph, node: usize) -> Result<Vec<Need>, Memory>
    requires graph { IsGraph graph.now }
    requires node { node < graph.now.committed }
    ensures { IfOk result (λ needs. (m : List Instance) (x : Id) → IsGraphOf m graph.now
        → slice_get graph.now.ids node ≡ Some x → AreNeedsOf m x needs.items) }
{
    let distances = distances_from(alloc, graph, node)?;
    needs_in(alloc, graph, &distances, graph.committed_len(), graph.len())
}

/// The instances that reach the missing instance of a node.
fn find_needing(alloc: Global, graph: &Graph, node: usize) -> Result<Vec<Need>, Memory>
    requires graph { IsGraph graph.now }
    requires node { node < length graph.now.ids }
    requires missing { graph.now.committed ≤ node }
    ensures { IfOk result (λ needing. (m : List Instance) (x : Id) → IsGraphOf m graph.now
        → slice_get graph.now.ids node ≡ Some x → AreNeeding m x needing.items) }
{
    let distances = distances_to(alloc, graph, node)?;
    needs_in(alloc, graph, &distances, 0, graph.committed_len())
}

/// The position of an Id that is in a list.
fn position_of(ids: &[Id], id: Id) -> usize
    requires { Contains ids.now id }
    ensures { slice_get ids.now result ≡ Some id }
{
    for (position, other) in ids.iter().enumerate() {
        if *other == id {
            return position;
        }
    }
    ids.len()
}

/// The text about a waiting instance: what it waits for, and the missing instances that it
/// reaches.
fn waiting_text(alloc: Global, id: Id, missing: Id, needs: &[Need]) -> Result<Vec<u8>, Memory>
    ensures { IfOk result (λ text. text.items
        ≡ waiting_line (record { id = id; missing = missing })
        ++ flat_map (need_line (codes "needs")) needs.now) }
{
    let mut text = Vec::new(alloc);
    append_waiter(alloc, &mut text, &mut Vec::new(alloc), id, missing)?;
    append_needs(alloc, &mut text, "needs", needs)?;
    Ok(text)
}

/// The text about an instance that no log commits, and the instances that reach it.
fn missing_text(alloc: Global, id: Id, needing: &[Need]) -> Result<Vec<u8>, Memory>
    ensures { IfOk result (λ text. text.items
        ≡ missing_line id ++ flat_map (need_line (codes "needed")) needing.now) }
{
    let mut text = missing_line(alloc, id)?;
    append_needs(alloc, &mut text, "needed", needing)?;
    Ok(text)
}

/// The text about an instance that is not ready: which missing instances it waits for; or, of one
/// that no log commits, which ones wait for it. There is none about a ready one.
///
/// Takes time linear in instances and dependencies. The only error is out of memory.
pub fn unready_text(alloc: Global, graph: &Graph, id: Id) -> Result<Option<Vec<u8>>, Memory>
    requires { IsGraph graph.now }
    ensures { IfOk result (λ found. (m : List Instance) → IsGraphOf m graph.now
        → MatchOption found (IsReady m id) (λ text. IsWhyText m id text.items)) }
{
    let Some(node) = graph.node(id) else {
        return Ok(Some(missing_text(alloc, id, &[])?));
    };
    if !graph.is_committed(node) {
        return Ok(Some(missing_text(alloc, id, &find_needing(alloc, graph, node)?)?));
    }
    let needs = needs_of(alloc, graph, node)?;
    match needs.first() {
        Some(first) => Ok(Some(waiting_text(alloc, id, first.id, &needs)?)),
        None => Ok(None),
    }
}

/// The text about a ready instance: its position in the execution order, its depth and its leader.
///
/// Takes time linear in the executed instances. The only error is out of memory.
pub fn ready_text(alloc: Global, order: &OrderList, id: Id) -> Result<Vec<u8>, Memory>
    requires { Contains (ranked_ids order.now) id }
    ensures { IfOk result (λ text. (m : List Instance) → IsExecutionOrder m order.now
        → IsWhyText m id text.items) }
{
    ready_line(alloc, order, position_of(order.ids(), id))
}

/// The text that says why an instance is executed at its position of the execution order, or which
/// missing instances it waits for; or, of an instance that no log commits, which ones wait for it.
/// `graph` and `order` have to be those of one map.
///
/// Takes time linear in instances and dependencies. The only error is out of memory.
pub fn why_text(alloc: Global, graph: &Graph, order: &OrderList, id: Id) -> Result<Vec<u8>, Memory>
    requires { (m : List Instance) × IsGraphOf m graph.now × IsExecutionOrder m order.now }
    ensures { IfOk result (λ text. (m : List Instance) → IsGraphOf m graph.now
        → IsExecutionOrder m order.now → IsWhyText m id text.items) }
{
    match unready_text(alloc, graph, id)? {
        Some(text) => Ok(text),
        None => ready_text(alloc, order, id),
    }
}
