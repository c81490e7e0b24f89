//! The path by which one instance reaches another.
ghost use Rattle.std.specs.Prelude.{◌≡◌, List, IfOk};
ghost use Rattle.epx_types.specs.Instances.{Instance};
ghost use Rattle.epx_graph.specs.GraphOf.{IsGraphOf};
ghost use Rattle.epx_why.specs.WhyLines.{none_line};
ghost use Rattle.epx_why.specs.WhyTexts.{IsPathText};

use crate::walk::first_walk;
use crate::why_lines::path_line;
use epx_graph::Graph;
use epx_report::name_line;
use epx_types::{Id, Memory};
use std::alloc::Global;

/// The line that says that no path leads there.
fn no_path(alloc: Global) -> Result<Vec<u8>, Memory>
    ensures { IfOk result (λ text. text.items ≡ none_line) }
{
    Ok(name_line(alloc, "none")?)
}

/// The line of the first of the shortest paths of dependencies from one instance to another. From
/// an instance to itself it is a cycle. `graph` has to be the graph of the map.
///
/// Takes time linear in instances and dependencies. The only error is out of memory.
pub fn path_text(alloc: Global, graph: &Graph, from: Id, to: Id) -> Result<Vec<u8>, Memory>
    requires { (m : List Instance) × IsGraphOf m graph.now }
    ensures { IfOk result (λ text. (m : List Instance) → IsGraphOf m graph.now
        → IsPathText m from to text.items) }
{
    let Some(node) = graph.node(from) else {
        return no_path(alloc);
    };
    let Some(target) = graph.node(to) else {
        return no_path(alloc);
    };
    match first_walk(alloc, graph, node, target)? {
        Some(nodes) => path_line(alloc, graph, from, &nodes),
        None => no_path(alloc),
    }
}
