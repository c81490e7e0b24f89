//! The search for what an instance reaches too early.
use crate::list_nodes::ListNodes;
use epx_types::Memory;
use std::alloc::Global;

/// A search level by level. It meets nodes in the order of the paths to them: shorter ones first,
/// and those of one length by their Ids, since the edges of a node rise by Id.
#[derive(Drop)]
struct LateSearch {
    /// For each node that was met the node before it on its path. That of the start is itself.
    before: Vec<Option<usize>>,
    /// The nodes that were met, in order.
    met: Vec<usize>,
}

impl LateSearch {
    /// A search over so many nodes that has met none.
    fn new(alloc: Global, nodes: usize) -> Result<LateSearch, Memory> {
        Ok(LateSearch {
            before: vec![in alloc; None; nodes]?,
            met: Vec::new(alloc),
        })
    }

    /// Adds a node after another one, if it was not met yet. Returns whether it was added.
    fn meet(&mut self, node: usize, previous: usize) -> Result<bool, Memory> {
        let Some(before) = self.before.get_mut(node) else {
            return Ok(false);
        };
        if before.is_some() {
            return Ok(false);
        }
        *before = Some(previous);
        self.met.push(node)?;
        Ok(true)
    }

    /// The path from the start to a node that was met, both included.
    fn path_to(&self, alloc: Global, node: usize) -> Result<Vec<usize>, Memory> {
        let mut path = Vec::new(alloc);
        let mut last = node;
        for _ in 0..self.met.len() {
            path.push(last)?;
            match self.before.get(last) {
                Some(Some(before)) if *before != last => last = *before,
                _ => break,
            }
        }
        path.reverse();
        Ok(path)
    }
}

/// Whether a node has to be listed before a position, and is not.
fn is_late(nodes: &ListNodes<'_>, node: usize, component: Option<usize>, position: usize) -> bool {
    if nodes.leader(node) == component {
        return false;
    }
    match nodes.position(node) {
        Some(found) => found > position,
        None => true,
    }
}

/// The path from the node at a position to the first node that it reaches, outside its component,
/// and that the list has later or not at all. Takes time linear in nodes and edges.
pub(crate) fn path_to_late_node(
    alloc: Global,
    nodes: &ListNodes<'_>,
    start: usize,
    position: usize,
) -> Result<Option<Vec<usize>>, Memory> {
    let component = nodes.leader(start);
    let mut search = LateSearch::new(alloc, nodes.len())?;
    search.meet(start, start)?;
    // Each node is met once at most.
    for turn in 0..nodes.len() {
        let Some(node) = search.met.get(turn).copied() else {
            break;
        };
        for target in nodes.edges(node) {
            if search.meet(*target, node)? && is_late(nodes, *target, component, position) {
                return Ok(Some(search.path_to(alloc, *target)?));
            }
        }
    }
    Ok(None)
}
