//! Explains that two instances of one component are listed in the wrong order.
use crate::left_out::least_left_out;
use crate::list_nodes::ListNodes;
use crate::listed::Listed;
use epx_bad_lines::found;
use epx_committed::Merged;
use epx_graph::build;
use epx_types::{Id, Memory, Plan};
use std::alloc::Global;
use std::thread::Threads;

/// The sort key of an instance among the members of its component.
fn key_of(merged: &Merged, id: Id) -> Option<(u64, Id)> {
    match merged.get(id) {
        Some(entry) => Some((entry.seq(), id)),
        None => None,
    }
}

/// The first instance of a list that is in a component and belongs after a key.
fn first_after(
    merged: &Merged,
    nodes: &ListNodes<'_>,
    list: &[Listed],
    component: Option<usize>,
    key: (u64, Id),
) -> Option<(Listed, u64)> {
    for listed in list {
        let Some(node) = nodes.node(listed.id) else {
            continue;
        };
        if nodes.leader(node) != component {
            continue;
        }
        let other = key_of(merged, listed.id)?;
        if other > key {
            return Some((*listed, other.0));
        }
    }
    None
}

/// Explains that a member that belongs before an instance is not listed.
fn explain_left_out(
    alloc: Global,
    merged: &Merged,
    nodes: &ListNodes<'_>,
    listed: Listed,
    component: Option<usize>,
    seq: u64,
) -> Result<Option<String>, Memory> {
    let Some((other_seq, node)) = least_left_out(merged, nodes, component) else {
        return Ok(None);
    };
    let Some(other) = nodes.id(node) else {
        return Ok(None);
    };
    let begin = listed.show(alloc)?;
    found(format!(in alloc;
        "{begin}, with seq {seq}; {other} of its component comes before it, with seq \
{other_seq}, and LIST does not have it"
    ))
}

/// Explains that a member that belongs after an instance is listed before it.
fn explain_order(
    alloc: Global,
    listed: Listed,
    seq: u64,
    other: Listed,
    other_seq: u64,
) -> Result<Option<String>, Memory> {
    let begin = listed.show(alloc)?;
    let other_id = other.id;
    found(format!(in alloc;
        "{begin}, with seq {seq}; {other_id} of its component comes after it, with seq \
{other_seq}, and LIST has it earlier, at {other}"
    ))
}

/// Names the member of the component that belongs after a listed instance and is listed before it,
/// or the one that belongs before it and is not listed.
pub(crate) fn explain_sequence<R: Threads + Sync>(
    rt: &R,
    alloc: Global,
    merged: &Merged,
    list: &[Listed],
    listed: Listed,
    plan: Plan,
) -> Result<Option<String>, Memory> {
    let graph = build(rt, alloc, merged, plan)?;
    let nodes = ListNodes::new(alloc, &graph, list)?;
    let (Some(node), Some(key)) = (nodes.node(listed.id), key_of(merged, listed.id)) else {
        return Ok(None);
    };
    let component = nodes.leader(node);
    let earlier = &list[..listed.position.min(list.len())];
    match first_after(merged, &nodes, earlier, component, key) {
        Some((other, seq)) => explain_order(alloc, listed, key.0, other, seq),
        None => explain_left_out(alloc, merged, &nodes, listed, component, key.0),
    }
}
