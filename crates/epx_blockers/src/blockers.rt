//! Which missing instances to recover first.
ghost use Rattle.std.specs.Prelude.{List, Contains, IfOk};
ghost use Rattle.epx_types.specs.Instances.{Instance};
ghost use Rattle.epx_graph.specs.GraphOf.{IsGraphOf};
ghost use Rattle.epx_graph.specs.Graphs.{edges_of};
ghost use Rattle.epx_blockers.specs.BlockerTexts.{IsBlockersText};
ghost use Rattle.epx_blockers.specs.Blockers.{AreBlockers};
ghost use Rattle.epx_blockers.specs.inner.NodeBlockers.{AreNodeBlockers};
ghost use Rattle.epx_blockers.specs.inner.NodeCounts.{AreMissingCounts};
ghost use Rattle.epx_blockers.specs.inner.ReachedNodes.{IsOnlyReached};

use crate::blocker::Blocker;
use crate::blocker_lines::{append_blockers, append_several};
use crate::named::count_named;
use crate::waiting::count_waiting;
use epx_graph::Graph;
use epx_types::Memory;
use std::alloc::Global;

/// The missing instances with their numbers, which are given by missing node.
fn list_blockers(
    alloc: Global,
    graph: &Graph,
    alone: &[usize],
    named: &[usize],
) -> Result<Vec<Blocker>, Memory>
    requires alone { AreMissingCounts graph.now (IsOnlyReached graph.now) graph.now.committed
        alone.now }
    requires named { AreMissingCounts graph.now (λ k j. Contains (edges_of graph.now k) j)
        graph.now.committed named.now }
    ensures { IfOk result (λ blockers. AreNodeBlockers graph.now blockers.items) }
{
    let mut blockers = Vec::new(alloc);
    for (index, id) in graph.missing().iter().enumerate() {
        blockers.push(Blocker {
            id: *id,
            alone: alone[index],
            named: named[index],
        })?;
    }
    Ok(blockers)
}

/// The missing instances, by rising Id.
fn find_blockers(alloc: Global, graph: &Graph, alone: &[usize]) -> Result<Vec<Blocker>, Memory>
    requires { AreMissingCounts graph.now (IsOnlyReached graph.now) graph.now.committed
        alone.now }
    ensures { IfOk result (λ blockers. (m : List Instance) → IsGraphOf m graph.now
        → AreBlockers m blockers.items) }
{
    let named = count_named(alloc, graph)?;
    list_blockers(alloc, graph, alone, &named)
}

/// The text that says which missing instances to recover first: for each of them how many
/// committed instances reach it and no other missing one, and how many depend on it; and at the
/// end how many committed instances reach several. `graph` has to be the graph of the map.
///
/// Takes time linear in instances and dependencies. The only error is out of memory.
pub fn blockers_text(alloc: Global, graph: &Graph) -> Result<Vec<u8>, Memory>
    ensures { IfOk result (λ text. (m : List Instance) → IsGraphOf m graph.now
        → IsBlockersText m text.items) }
{
    let counts = count_waiting(alloc, graph)?;
    let blockers = find_blockers(alloc, graph, &counts.alone)?;
    let mut text = Vec::new(alloc);
    append_blockers(alloc, &mut text, &blockers)?;
    append_several(alloc, &mut text, counts.several)?;
    Ok(text)
}
