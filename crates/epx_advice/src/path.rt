//! Shows a path.
use crate::list_nodes::ListNodes;
use epx_types::Memory;
use std::alloc::Global;

/// At most this many instances of a path are shown before its last one.
const MOST_SHOWN: usize = 8;

/// Shows a path as `2.3 -> 1.1 -> 0.0`. A long one has dots before its last instance.
pub(crate) fn show_path(
    alloc: Global,
    nodes: &ListNodes<'_>,
    path: &[usize],
) -> Result<String, Memory> {
    let mut text = String::new(alloc);
    let last = path.len().saturating_sub(1);
    for (index, node) in path.iter().enumerate() {
        if index > MOST_SHOWN && index < last {
            continue;
        }
        if index == MOST_SHOWN && index < last {
            text.push_str(" -> ..")?;
            continue;
        }
        let Some(id) = nodes.id(*node) else {
            continue;
        };
        if index > 0 {
            text.push_str(" -> ")?;
        }
        write!(text, "{id}")?;
    }
    Ok(text)
}
