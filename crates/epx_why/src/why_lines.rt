//! Writes the lines about one instance, and the line of a path: JSON (RFC 8259) in compact form,
//! each ended by a line feed.
ghost use Rattle.std.specs.Prelude.{◌≡◌, ◌<◌, ◌++◌, ◌∷◌, false, length, map, flat_map};
ghost use Rattle.std.specs.Prelude.{slice_get};
ghost use Rattle.std.specs.Prelude.{All, IfOk, OnOk, Some};
ghost use Rattle.serde_json.specs.View.{view};
ghost use Rattle.serde_json.specs.Written.{has_float};
ghost use Rattle.epx_types.specs.ExecutionOrder.{Ranked};
ghost use Rattle.epx_report.specs.ReportLines.{array_of};
ghost use Rattle.epx_why.specs.WhyLines.{id_data, need_data, need_line, path_data, path_line};
ghost use Rattle.epx_why.specs.WhyLines.{ready_data, ready_line};
ghost use Rattle.epx_why.specs.inner.NodeWalks.{id_at};

use crate::need::Need;
use epx_components::OrderList;
use epx_graph::Graph;
use epx_report::append_line;
use epx_types::{Id, Memory};
use serde_json::{Value, json};
use std::alloc::{AllocError, Global};

/// The array of a ready instance: `["ready",r,i,position,depth,lr,li]`, with its leader lr.li.
fn ready_value(
    alloc: Global,
    id: Id,
    position: u64,
    depth: u64,
    leader: Id,
) -> Result<Value, AllocError>
    ensures data { IfOk result (λ v. view v ≡ array_of (ready_data id position depth leader)) }
    ensures whole { IfOk result (λ v. has_float (view v) ≡ false) }
{
    let Id { replica, number } = id;
    let (leading, first) = (leader.replica, leader.number);
    json!(in alloc; ["ready", replica, number, position, depth, leading, first])
}

/// The array of an instance at the other end of a path: `[name,r,i,steps]`.
fn need_value(alloc: Global, name: &str, need: Need) -> Result<Value, AllocError>
    ensures data { IfOk result (λ v. view v ≡ array_of (need_data name.now need)) }
    ensures whole { IfOk result (λ v. has_float (view v) ≡ false) }
{
    let Id { replica, number } = need.id;
    let steps = need.steps as u64;
    json!(in alloc; [name, replica, number, steps])
}

/// The array of an instance: `[r,i]`.
fn id_value(alloc: Global, id: Id) -> Result<Value, AllocError>
    ensures { IfOk result (λ v. view v ≡ id_data id) }
{
    let Id { replica, number } = id;
    json!(in alloc; [replica, number])
}

/// The value of the line of a path from an instance through these nodes.
fn path_value(alloc: Global, graph: &Graph, start: Id, nodes: &[usize]) -> Result<Value, AllocError>
    requires { All (λ k. k < length graph.now.ids) nodes.now }
    ensures { IfOk result (λ v.
        view v ≡ array_of (path_data (start ∷ map (id_at graph.now) nodes.now))) }
{
    let mut values = Vec::new(alloc);
    values.push(json!(in alloc; "path")?)?;
    values.push(id_value(alloc, start)?)?;
    for node in nodes {
        values.push(id_value(alloc, graph.id(*node))?)?;
    }
    Ok(Value::Array(values))
}

/// The line of a path from an instance through these nodes.
pub(crate) fn path_line(
    alloc: Global,
    graph: &Graph,
    start: Id,
    nodes: &[usize],
) -> Result<Vec<u8>, Memory>
    requires { All (λ k. k < length graph.now.ids) nodes.now }
    ensures { IfOk result (λ text.
        text.items ≡ path_line (start ∷ map (id_at graph.now) nodes.now)) }
{
    let value = path_value(alloc, graph, start, nodes)?;
    let mut text = Vec::new(alloc);
    append_line(alloc, &mut text, &value)?;
    Ok(text)
}

/// The line of a ready instance at a position of the execution order.
pub(crate) fn ready_line(
    alloc: Global,
    order: &OrderList,
    position: usize,
) -> Result<Vec<u8>, Memory>
    requires { position < length order.now }
    ensures { IfOk result (λ text. (r : Ranked) → slice_get order.now position ≡ Some r
        → text.items ≡ ready_line position r) }
{
    let id = order.ids()[position];
    let (depth, leader) = (order.depth_of(position), order.component_of(position));
    let value = ready_value(alloc, id, position as u64, depth as u64, leader)?;
    let mut text = Vec::new(alloc);
    append_line(alloc, &mut text, &value)?;
    Ok(text)
}

/// Appends a line for each of the needs.
pub(crate) fn append_needs(
    alloc: Global,
    text: &mut Vec<u8>,
    name: &str,
    needs: &[Need],
) -> Result<(), Memory>
    ensures { OnOk result (text.new.items
        ≡ text.old.items ++ flat_map (need_line name.now) needs.now) }
{
    for need in needs {
        append_line(alloc, text, &need_value(alloc, name, *need)?)?;
    }
    Ok(())
}
