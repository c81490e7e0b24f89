//! What a call of `commit` makes ready, and what waits.
ghost use Rattle.std.specs.Prelude.{◌≡◌, ◌≤◌, ◌++◌, filter, length, map, slice_get, Contains};
ghost use Rattle.std.specs.Prelude.{List, MatchResult, IfOk, IfSome, OnOk};
ghost use Rattle.epx_types.specs.declared.id.Id.{Id};
ghost use Rattle.epx_types.specs.CommittedMap.{ids_of, ops_or_empty, commands_in};
ghost use Rattle.epx_types.specs.Done.{is_among, remaining};
ghost use Rattle.epx_types.specs.ExecutionOrder.{IsExecutionOrder};
ghost use Rattle.epx_types.specs.Ids.{IsRising};
ghost use Rattle.epx_types.specs.Instances.{Instance};
ghost use Rattle.epx_types.specs.Limits.{max_instances};
ghost use Rattle.epx_committed.specs.MergedLines.{IsMerged, IsMergeFault};
ghost use Rattle.epx_types.specs.WaitingLists.{IsWaitingList};
ghost use Rattle.epx_graph.specs.GraphOf.{IsGraphOf};
ghost use Rattle.epx_executor.specs.CallLines.{call_lines, lines_from};
ghost use Rattle.epx_executor.specs.inner.Batches.{AreDoneDeps, IsMapBatch, IsCallBatch};
ghost use Rattle.epx_executor.specs.inner.Choices.{IsChoice};
ghost use Rattle.epx_executor.specs.inner.Filings.{Filings};

use crate::call_lines::{is_left, merge_call, merge_pending, pending_lines};
use crate::choose::{Choice, looked_at};
use crate::done_runs::DoneRuns;
use crate::pending::Pending;
use epx_committed::{Merged, PlacedEntry};
use epx_components::OrderList;
use epx_graph::{Graph, Waiter, build_after, waiting};
use epx_ranking::order;
use epx_types::id_list::sort_unique;
use epx_types::{Entry, Fault, Id, Memory, Plan};
use std::alloc::Global;
use std::random::RandomSource;
use std::thread::Threads;

/// Appends the Ids that are done.
fn append_done(done: &DoneRuns, ids: &[Id], found: &mut Vec<Id>) -> Result<(), Memory>
    ensures { OnOk result
        (found.new.items ≡ found.old.items ++ filter (λ x. is_among done.now x) ids.now) }
{
    for id in ids {
        if !is_left(done, *id) {
            found.push(*id)?;
        }
    }
    Ok(())
}

/// The done instances on which those of the map depend, by rising Id.
fn done_deps(alloc: Global, done: &DoneRuns, merged: &Merged) -> Result<Vec<Id>, Memory>
    ensures rising { IfOk result (λ found. IsRising found.items) }
    ensures exact { IfOk result (λ found. AreDoneDeps done.now merged.now found.items) }
{
    let mut found = Vec::new(alloc);
    for position in 0..merged.len() {
        append_done(done, merged.entry_at(position).deps(), &mut found)?;
    }
    sort_unique(alloc, &found)
}

/// Instances with their positions in a map. An instance that is not there has the number of all.
fn positions_of(alloc: Global, merged: &Merged, ids: &[Id]) -> Result<Vec<(Id, usize)>, Memory>
    ensures { IfOk result (λ positions. map (λ p. ops_or_empty (slice_get merged.now p.1))
        positions.items ≡ commands_in merged.now ids.now) }
{
    let mut positions = Vec::with_capacity(alloc, ids.len())?;
    for id in ids {
        let position = merged.position(*id).unwrap_or(merged.len());
        positions.push((*id, position))?;
    }
    Ok(positions)
}

/// The graph of the remaining map. No instance of the map is done.
fn graph_remaining<R: Threads + Sync>(
    rt: &R,
    alloc: Global,
    done: &DoneRuns,
    merged: &Merged,
    plan: Plan,
) -> Result<Graph, Memory>
    requires { (x : Id) → Contains (ids_of merged.now) x → ¬ Contains done.now x }
    ensures { IfOk result (λ graph. IsGraphOf (remaining done.now merged.now) graph) }
{
    // Of the done instances, only those that the map depends on matter. So the cost does not grow
    // with all that was ever executed.
    let deps = done_deps(alloc, done, merged)?;
    build_after(rt, alloc, merged, &deps, plan)
}

/// The waiting list of the pending instances. It makes no execution order.
pub(crate) fn waiting_pending<R: Threads + RandomSource + Sync>(
    rt: &R,
    alloc: Global,
    done: &DoneRuns,
    pending: &Pending,
    plan: Plan,
) -> Result<Vec<Waiter>, Memory>
    requires rising { IsRising (ids_of pending.now) }
    requires left { (e : Instance) → Contains pending.now e → ¬ Contains done.now e.id }
    requires few { length pending.now ≤ max_instances }
    ensures { IfOk result
        (λ waiters. IsWaitingList (remaining done.now pending.now) waiters.items) }
{
    let entries = pending.entries(alloc)?;
    let merged = merge_pending(rt, alloc, &entries)?;
    let graph = graph_remaining(rt, alloc, done, &merged, plan)?;
    waiting(alloc, &graph)
}

/// The execution order of the remaining map, and what waits in it. No instance of the map is done.
fn order_remaining<R: Threads + Sync>(
    rt: &R,
    alloc: Global,
    done: &DoneRuns,
    merged: &Merged,
    plan: Plan,
) -> Result<(OrderList, Vec<Waiter>), Memory>
    requires { (x : Id) → Contains (ids_of merged.now) x → ¬ Contains done.now x }
    ensures ordered { IfOk result
        (λ v. IsExecutionOrder (remaining done.now merged.now) v.0) }
    ensures waiting { IfOk result
        (λ v. IsWaitingList (remaining done.now merged.now) v.1.items) }
{
    let graph = graph_remaining(rt, alloc, done, merged, plan)?;
    let waiters = waiting(alloc, &graph)?;
    Ok((order(rt, alloc, merged, &graph)?, waiters))
}

/// What a call of `commit` executes, and what is done afterwards.
#[derive(Drop)]
pub(crate) struct Batch {
    /// The entries of the committed map, by rising Id.
    pub(crate) entries: Vec<Entry>,
    /// The execution order of its remaining map.
    pub(crate) order: OrderList,
    /// The instances of the order with the positions of their entries.
    pub(crate) positions: Vec<(Id, usize)>,
    /// The instances that wait.
    pub(crate) waiters: Vec<Waiter>,
    pub(crate) done: DoneRuns,
}

/// The batch of a map.
fn batch_of<R: Threads + Sync>(
    rt: &R,
    alloc: Global,
    done: &DoneRuns,
    merged: Merged,
    plan: Plan,
) -> Result<Batch, Memory>
    requires { (x : Id) → Contains (ids_of merged) x → ¬ Contains done.now x }
    ensures { IfOk result (λ batch. IsMapBatch done.now merged
        batch.entries.items batch.order batch.positions.items batch.waiters.items batch.done) }
{
    let (order, waiters) = order_remaining(rt, alloc, done, &merged, plan)?;
    let positions = positions_of(alloc, &merged, order.ids())?;
    let done = done.with(alloc, order.ids())?;
    let entries = merged.into_entries(alloc)?;
    Ok(Batch {
        entries,
        order,
        positions,
        waiters,
        done,
    })
}

/// The batch of the map that lines of pending entries and those that came commit, or why they
/// commit none.
pub(crate) fn read_batch<R: Threads + RandomSource + Sync>(
    rt: &R,
    alloc: Global,
    done: &DoneRuns,
    old: Vec<PlacedEntry>,
    came: Vec<Entry>,
    plan: Plan,
) -> Result<Batch, Fault>
    requires { (part : List Instance) × (old.items ≡ lines_from 0 1 part)
        × ((e : Instance) → Contains part e → ¬ Contains done.now e.id) }
    ensures { (part : List Instance) → old.items ≡ lines_from 0 1 part →
        let lines = call_lines done.now part came.items in
        MatchResult result (λ batch. IsMerged lines batch.entries.items × IsMapBatch done.now
        batch.entries.items batch.entries.items batch.order batch.positions.items
        batch.waiters.items batch.done) (IsMergeFault lines) }
{
    let merged = merge_call(rt, alloc, done, old, came)?;
    Ok(batch_of(rt, alloc, done, merged, plan)?)
}

/// The batch of the map that the lines of a call commit, or why they commit none.
pub(crate) fn next_batch<R: Threads + RandomSource + Sync>(
    rt: &R,
    alloc: Global,
    done: &DoneRuns,
    pending: &Pending,
    choice: &Option<Choice>,
    came: Vec<Entry>,
    plan: Plan,
) -> Result<Batch, Fault>
    requires rising { IsRising (ids_of pending.now) }
    requires left { (e : Instance) → Contains pending.now e → ¬ Contains done.now e.id }
    requires choice { IfSome choice.now (λ c. (filings : Filings)
        × IsChoice done.now pending.now came.items filings c.ids.items c.blocked.items) }
    ensures { MatchResult result (λ batch. IsCallBatch done.now pending.now came.items choice.now
        batch.entries.items batch.order batch.positions.items batch.waiters.items batch.done)
        (IsMergeFault (call_lines done.now pending.now came.items)) }
{
    let part = looked_at(alloc, pending, choice)?;
    let old = pending_lines(alloc, &part)?;
    read_batch(rt, alloc, done, old, came, plan)
}
