//! From entries to the execution order of their instances.
ghost use Rattle.std.specs.Prelude.{MatchResult};
ghost use Rattle.epx_types.specs.Done.{remaining};
ghost use Rattle.epx_types.specs.ExecutionOrder.{IsExecutionOrder};
ghost use Rattle.epx_types.specs.Ids.{IsRising};
ghost use Rattle.epx_committed.specs.between.EntryLines.{entry_lines};
ghost use Rattle.epx_committed.specs.MergedLines.{IsMerged, IsMergeFault};

use epx_committed::{Merged, from_entries};
use epx_graph::{Graph, build_after};
use epx_order::{OrderList, order};
use epx_types::{Entry, Fault, Id, Plan};
use std::alloc::Global;
use std::thread::Threads;

/// The committed map of some entries, the graph of the instances that are not done, and the
/// execution order of these.
#[derive(Drop)]
pub(crate) struct Ordered {
    pub(crate) merged: Merged,
    pub(crate) graph: Graph,
    pub(crate) order: OrderList,
}

/// Orders the instances of the entries that are not done. Returns the fault if the entries commit
/// no map.
pub(crate) fn order_entries<R: Threads + Sync>(
    rt: &R,
    alloc: Global,
    entries: Vec<Entry>,
    done: &[Id],
    plan: Plan,
) -> Result<Ordered, Fault>
    requires { IsRising done.now }
    ensures { let lines = entry_lines entries.items in MatchResult result
        (λ ordered. IsMerged lines ordered.merged
        × IsExecutionOrder (remaining done.now ordered.merged) ordered.order)
        (IsMergeFault lines) }
{
    let merged = from_entries(alloc, entries)?;
    let graph = build_after(rt, alloc, &merged, done, plan)?;
    let order = order(rt, alloc, &merged, &graph)?;
    Ok(Ordered {
        merged,
        graph,
        order,
    })
}
