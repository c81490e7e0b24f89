//! Explains that an instance is listed before something that it depends on.
use crate::list_nodes::ListNodes;
use crate::listed::Listed;
use crate::path::show_path;
use crate::search::path_to_late_node;
use epx_bad_lines::{found, made};
use epx_committed::Merged;
use epx_graph::build;
use epx_types::{Memory, Plan};
use std::alloc::Global;
use std::thread::Threads;

/// Where the list has a node.
fn explain_place(
    alloc: Global,
    nodes: &ListNodes<'_>,
    list: &[Listed],
    node: usize,
) -> Result<String, Memory> {
    let listed = match nodes.position(node) {
        Some(position) => list.get(position),
        None => None,
    };
    match listed {
        Some(listed) => made(format!(in alloc; "which LIST has later, at {listed}")),
        None => made(String::from_str(alloc, "which LIST does not have")),
    }
}

/// Explains a path from a listed instance to one that is listed later or not at all.
fn explain_path(
    alloc: Global,
    nodes: &ListNodes<'_>,
    list: &[Listed],
    listed: Listed,
    path: &[usize],
) -> Result<Option<String>, Memory> {
    let Some(last) = path.last().copied() else {
        return Ok(None);
    };
    let Some(late) = nodes.id(last) else {
        return Ok(None);
    };
    let begin = listed.show(alloc)?;
    let place = explain_place(alloc, nodes, list, last)?;
    if path.len() <= 2 {
        return found(format!(in alloc; "{begin}; it depends on {late}, {place}"));
    }
    let shown = show_path(alloc, nodes, path)?;
    found(format!(in alloc; "{begin}; it reaches {late} by {shown}, {place}"))
}

/// Names what a listed instance reaches outside its component and the list has later or not at
/// all.
pub(crate) fn explain_early<R: Threads + Sync>(
    rt: &R,
    alloc: Global,
    merged: &Merged,
    list: &[Listed],
    listed: Listed,
    plan: Plan,
) -> Result<Option<String>, Memory> {
    let graph = build(rt, alloc, merged, plan)?;
    let nodes = ListNodes::new(alloc, &graph, list)?;
    let Some(start) = nodes.node(listed.id) else {
        return Ok(None);
    };
    match path_to_late_node(alloc, &nodes, start, listed.position)? {
        Some(path) => explain_path(alloc, &nodes, list, listed, &path),
        None => Ok(None),
    }
}
