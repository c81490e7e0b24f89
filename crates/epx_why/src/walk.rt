//! The first of the shortest paths over nodes.
ghost use Rattle.std.specs.Prelude.{◌≡◌, ◌<◌, ◌↔◌, ℕ, suc, min, Some, All, Contains, IfOk};
ghost use Rattle.std.specs.Prelude.{length, IsTrue, MatchOption};
ghost use Rattle.epx_types.specs.Ids.{Below};
ghost use Rattle.epx_graph.specs.Graphs.{edges_of, IsGraph};
ghost use Rattle.epx_graph.specs.between.NodeSteps.{LeadsTo, distance_at};
ghost use Rattle.epx_why.specs.inner.NodeWalks.{id_at, AreFewest, IsFirstNodePath, IsNext};

use epx_graph::{Graph, distances_to};
use epx_types::Memory;
use std::alloc::Global;

/// The lower of two numbers, of which the first may be missing.
fn min_steps(fewest: Option<usize>, steps: usize) -> usize
    ensures { MatchOption fewest (result ≡ steps) (λ least. result ≡ min least steps) }
{
    match fewest {
        Some(least) => least.min(steps),
        None => steps,
    }
}

/// Whether a distance is this number of steps.
fn has_distance(distance: Option<usize>, steps: usize) -> bool
    ensures { IsTrue result ↔ (distance ≡ Some steps) }
{
    match distance {
        Some(found) => found == steps,
        None => false,
    }
}

/// Whether a node has a lower Id than another one, which may be missing.
fn is_before(graph: &Graph, node: usize, other: Option<usize>) -> bool
    requires node { node < length graph.now.ids }
    requires other { MatchOption other (Unit {0}) (λ o. o < length graph.now.ids) }
    ensures { IsTrue result ↔ MatchOption other (Unit {0})
        (λ o. Below (id_at graph.now node) (id_at graph.now o)) }
{
    match other {
        Some(other) => graph.id(node) < graph.id(other),
        None => true,
    }
}

/// The least distance of some targets.
fn fewest_steps(distances: &[Option<usize>], targets: &[usize]) -> Option<usize>
    requires { All (λ k. k < length distances.now) targets.now }
    ensures { AreFewest distances.now targets.now result }
{
    let mut fewest = None;
    for target in targets {
        let Some(steps) = distances[*target] else {
            continue;
        };
        fewest = Some(min_steps(fewest, steps));
    }
    fewest
}

/// Of the targets at a distance the one with the least Id.
fn next_node(graph: &Graph, distances: &[Option<usize>], targets: &[usize], steps: usize) -> usize
    requires distances { All (λ k. k < length distances.now) targets.now }
    requires nodes { All (λ k. k < length graph.now.ids) targets.now }
    requires some { (c : ℕ) × Contains targets.now c × (distance_at distances.now c ≡ Some steps) }
    ensures { IsNext graph.now distances.now targets.now steps result }
{
    let mut next = None;
    for target in targets {
        if has_distance(distances[*target], steps) && is_before(graph, *target, next) {
            next = Some(*target);
        }
    }
    next.unwrap()
}

/// The nodes after `node` on the first of the shortest paths to the target, the target included.
/// Takes time linear in nodes and edges.
pub(crate) fn first_walk(
    alloc: Global,
    graph: &Graph,
    node: usize,
    target: usize,
) -> Result<Option<Vec<usize>>, Memory>
    requires graph { IsGraph graph.now }
    requires node { node < length graph.now.ids }
    requires target { target < length graph.now.ids }
    ensures { IfOk result (λ found. MatchOption found
        ((n : ℕ) → ¬ LeadsTo (edges_of graph.now) node (suc n) target)
        (λ nodes. IsFirstNodePath graph.now target node nodes.items)) }
{
    let distances = distances_to(alloc, graph, target)?;
    let Some(fewest) = fewest_steps(&distances, graph.edges(node)) else {
        return Ok(None);
    };
    let mut left = fewest;
    let mut last = next_node(graph, &distances, graph.edges(node), left);
    let mut nodes = vec![in alloc; last]?;
    while left > 0 {
        left -= 1;
        last = next_node(graph, &distances, graph.edges(last), left);
        nodes.push(last)?;
    }
    Ok(Some(nodes))
}
