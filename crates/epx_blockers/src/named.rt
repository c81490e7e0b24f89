//! How many instances have each missing one among their dependencies.
ghost use Rattle.std.specs.Prelude.{◌≡◌, ℕ, ◌+◌, ◌^◌, ◌<◌, length, slice_index, All, AllPairs};
ghost use Rattle.std.specs.Prelude.{Contains, IfOk};
ghost use Rattle.epx_graph.specs.Graphs.{edges_of};
ghost use Rattle.epx_blockers.specs.inner.NodeCounts.{AreMissingCounts, IsOneMoreIf};

use epx_graph::Graph;
use epx_types::Memory;
use std::alloc::Global;

/// Adds one to the number of each missing target. `named` has a number for each missing node.
fn add_missing(named: &mut [usize], committed: usize, targets: &[usize])
    requires within { All (λ j. j < committed + length named.old) targets.now }
    requires rising { AllPairs (λ i j. i < j) targets.now }
    requires small { All (λ n. n + 1 < 2 ^ 64) named.old }
    ensures len { length named.new ≡ length named.old }
    ensures each { (i : ℕ) → i < length named.old
        → IsOneMoreIf (Contains targets.now (committed + i)) (slice_index named.old i)
        (slice_index named.new i) }
{
    for target in targets {
        if *target >= committed {
            named[*target - committed] += 1;
        }
    }
}

/// For each missing node the number of nodes with an edge to it. Takes time linear in nodes and
/// edges.
pub(crate) fn count_named(alloc: Global, graph: &Graph) -> Result<Vec<usize>, Memory>
    ensures { IfOk result (λ named. AreMissingCounts graph.now
        (λ k j. Contains (edges_of graph.now k) j) graph.now.committed named.items) }
{
    let committed = graph.committed_len();
    let mut named = vec![in alloc; 0; graph.len() - committed]?;
    for node in 0..committed {
        add_missing(&mut named, committed, graph.edges(node));
    }
    Ok(named)
}
