//! Finds a member of a component that a list leaves out.
use crate::list_nodes::ListNodes;
use epx_committed::Merged;

/// The sequence number and the node of the least member of a component, in the order of the
/// component, that the list lacks.
pub(crate) fn least_left_out(
    merged: &Merged,
    nodes: &ListNodes<'_>,
    component: Option<usize>,
) -> Option<(u64, usize)> {
    let mut least = None;
    for node in 0..merged.len() {
        if nodes.position(node).is_some() || nodes.leader(node) != component {
            continue;
        }
        // The nodes rise by Id, so the first of one sequence number is the least.
        let seq = merged.seq_at(node);
        least = match least {
            Some((other, found)) if other <= seq => Some((other, found)),
            _ => Some((seq, node)),
        };
    }
    least
}
