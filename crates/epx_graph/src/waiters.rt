//! Lists the instances that wait.
ghost use Rattle.std.specs.Prelude.{List, IfOk, OnOk};
ghost use Rattle.epx_types.specs.Instances.{Instance};
ghost use Rattle.epx_types.specs.WaitingLists.{IsWaitingList};
ghost use Rattle.epx_graph.specs.GraphOf.{IsGraphOf};
ghost use Rattle.epx_graph.specs.Graphs.{IsGraph};
ghost use Rattle.epx_graph.specs.inner.LeastMissing.{AreMarksOf};

use crate::graph::Graph;
use crate::search::{MarkKind, search};
use epx_types::{Id, Memory};
use std::alloc::Global;
use std::marker::Model;

/// A committed instance that is not ready, and the least missing instance that it reaches.
#[derive(Clone, Copy, Debug, PartialEq, Eq)]
pub struct Waiter {
    pub id: Id,
    pub missing: Id,
}

impl Model for Waiter {
    ghost use Rattle.epx_types.specs.WaitingLists.{Waiting};

    ghost Value = { Waiting };

    ghost view = { λ w. record { id = w.id; missing = w.missing } };

    ghost inverse = { λ w. record { id = w.id; missing = w.missing } };
}

/// For each node, the least missing node that it reaches, if it reaches one.
fn least_missing(alloc: Global, graph: &Graph) -> Result<Vec<Option<usize>>, Memory>
    ensures marks { IfOk result (λ marks. AreMarksOf graph.now marks.items) }
    ensures fits { OnOk result (IsGraph graph.now) }
{
    let committed = graph.committed_len();
    let nodes = graph.len();
    // If no node is missing, no edge needs to be transposed.
    if committed == nodes {
        return Ok(vec![in alloc; None; nodes]?);
    }
    let sources = graph.sources(alloc)?;
    search(alloc, &sources, nodes, committed, nodes, MarkKind::Start)
}

/// The waiting list of the map that this is the graph of, by rising Id. Takes linear time.
pub fn waiting(alloc: Global, graph: &Graph) -> Result<Vec<Waiter>, Memory>
    ensures { IfOk result (λ waiters. (m : List Instance) → IsGraphOf m graph.now
        → IsWaitingList m waiters.items) }
{
    let marks = least_missing(alloc, graph)?;
    let mut waiters = Vec::new(alloc);
    for node in 0..graph.committed_len() {
        let Some(missing) = marks[node] else {
            continue;
        };
        waiters.push(Waiter {
            id: graph.id(node),
            missing: graph.id(missing),
        })?;
    }
    Ok(waiters)
}
