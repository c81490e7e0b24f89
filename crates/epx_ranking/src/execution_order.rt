//! The execution order.
ghost use Rattle.std.specs.Prelude.{◌≡◌, List, length, IfOk};
ghost use Rattle.std.specs.List.Sorted.{IsPermutation, IsSorted};
ghost use Rattle.epx_types.specs.declared.id.Id.{Id};
ghost use Rattle.epx_types.specs.Done.{remaining};
ghost use Rattle.epx_types.specs.ExecutionOrder.{ranked_ids, IsExecutionOrder};
ghost use Rattle.epx_types.specs.LawfulOrders.{IsLawful};
ghost use Rattle.epx_graph.specs.GraphOf.{IsGraphOfRest, IsGraphOf};

use crate::ready::ready_ranks;
use epx_committed::Merged;
use epx_components::OrderList;
use epx_graph::Graph;
use epx_types::Memory;
use rayon::prelude::*;
use std::alloc::Global;
use std::thread::Threads;

/// One thread sorts fewer items than these sooner than several do, which have to be begun.
const MANY: usize = 1_000;

/// Sorts the items, by several threads if they are many. Equal ones may change places.
fn sort<R: Threads + Sync, T: Ord + Send>(rt: &R, items: &mut [T])
    ensures permutation { IsPermutation items.old items.new }
    ensures len { length items.new ≡ length items.old }
    ensures sorted { IsSorted T.cmp items.new }
{
    if items.len() < MANY {
        items.sort_unstable();
    } else {
        par_sort_unstable(rt, items);
    }
}

/// The execution order of the ready instances of a committed map. If instances without a node are
/// done, it is the order of the remaining ones.
///
/// The time is n log n in the instances and linear in their dependencies. The only error is out of
/// memory.
///
/// A component comes after every component that it reaches. Components are sorted by increasing
/// depth, and those of one depth by their least members. Inside a component instances are sorted
/// by increasing sequence number, then by Id.
pub fn order<R: Threads + Sync>(
    rt: &R,
    alloc: Global,
    merged: &Merged,
    graph: &Graph,
) -> Result<OrderList, Memory>
    requires { IsGraphOfRest merged.now graph.now }
    ensures order { IfOk result (λ order. (done : List Id)
        → IsGraphOf (remaining done merged.now) graph.now
        → IsExecutionOrder (remaining done merged.now) order) }
    ensures lawful { IfOk result (λ order. (done : List Id)
        → IsGraphOf (remaining done merged.now) graph.now
        → IsLawful (remaining done merged.now) (ranked_ids order)) }
    // If nothing is done, this is the order of the whole map.
    ensures whole { IfOk result (λ order. IsGraphOf merged.now graph.now
        → IsExecutionOrder merged.now order) }
    ensures whole_lawful { IfOk result (λ order. IsGraphOf merged.now graph.now
        → IsLawful merged.now (ranked_ids order)) }
{
    let mut ranks = ready_ranks(alloc, merged, graph)?;
    // Ranks differ, so it is enough that the sort is unstable, and it takes no memory.
    sort(rt, &mut ranks);
    OrderList::new(alloc, ranks)
}
